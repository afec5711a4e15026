// Prints a report line by line.
ghost use Rattle.std.specs.Prelude.{◌≡◌, []};

use super::report::Report;
use arrayvec::ArrayVec;
use std::{fmt, io};

// What goes out at once, at the most: a line that is longer goes out in parts, as `println!` prints it.
const ROOM: usize = 1024;

// Standard output, with each line written by a call of its own. So the lines stay whole where several programs write to one
// log, and those before an error are out. `println!` of a text of many lines would write them in pieces of its own.
#[derive(Drop)]
struct Lines<'r> {
    rt: &'r HostRuntime,
    line: ArrayVec<u8, ROOM>,
    // the error of the write that failed
    error: Option<io::Error>,
}

impl Lines<'_> {
    // Writes what stands here of a line.
    fn flush(&mut self) -> fmt::Result
        ensures { self.new.line.items ≡ [] }
    {
        let written = self.rt.write_all(self.line.as_slice());
        self.line.clear();
        match written {
            Ok(()) => Ok(()),
            Err(error) => {
                self.error = Some(error);
                Err(fmt::Error)
            }
        }
    }
}

impl fmt::Write for Lines<'_> {
    fn write_str(&mut self, s: &str) -> fmt::Result {
        for byte in s.as_bytes() {
            if self.line.is_full() {
                self.flush()?;
            }
            self.line.push(*byte);
        }
        // `writeln!` ends a line with a piece of its own. A line feed inside a name ends none.
        if s == "\n" {
            self.flush()?;
        }
        Ok(())
    }
}

// Prints a report and a line feed. The text of a report can't fail, so an error is one of writing.
pub fn print(rt: &HostRuntime, report: Report<'_, '_>) -> io::Result<()> {
    let mut lines = Lines {
        rt,
        line: ArrayVec::new(),
        error: None,
    };
    let _ = fmt::Write::writeln(&mut lines, report);
    match lines.error {
        Some(error) => Err(error),
        None => Ok(()),
    }
}
