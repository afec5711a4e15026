// What is said of a script that was read.
ghost use Rattle.std.specs.Prelude.{◌≡◌, Some};
ghost use Rattle.script.specs.Model.{program_of};
ghost use Rattle.shorten.specs.Reports.{counts_from, as_read as as_read_of, report_of};

use script::store::Script;
use std::fmt;

// How many middle nodes each block of a script has: a line for each.
#[derive(Clone, Copy)]
struct Counts<'a>(&'a Script);

impl fmt::Display for Counts<'_> {
    ghost output = { λ c. Some (counts_from 0 (program_of c.0.now)) };

    fn fmt<W: fmt::Write>(&self, f: &mut fmt::Formatter<W>) -> fmt::Result {
        for (i, block) in self.0.blocks().enumerate() {
            writeln!(f, "middle nodes of b{i}: {}", block.middles.len())?;
        }
        Ok(())
    }
}

// Whether the bytes written are those that were read, in words.
fn as_read(written: &[u8], read: &[u8]) -> &'static str
    ensures { result.now ≡ as_read_of written.now read.now }
{
    if written == read {
        "the same as read"
    } else {
        "not those read"
    }
}

// A script, with the text that was read and the text that is written. The name is lent for longer than they are.
#[derive(Clone, Copy)]
pub struct Report<'n, 'a> {
    // what the text that was read is called
    pub name: &'n str,
    pub read: &'a [u8],
    pub script: &'a Script,
    pub written: &'a [u8],
}

// A line for each fact, in the order in which they came about.
impl fmt::Display for Report<'_, '_> {
    ghost output = { λ r. Some (report_of r) };

    fn fmt<W: fmt::Write>(&self, f: &mut fmt::Formatter<W>) -> fmt::Result {
        writeln!(f, "script: {}", self.name)?;
        writeln!(f, "bytes read: {}", self.read.len())?;
        writeln!(f, "blocks: {}", self.script.block_count())?;
        writeln!(f, "middle nodes: {}", self.script.middle_count())?;
        write!(f, "{}", Counts(self.script))?;
        let same = as_read(self.written, self.read);
        write!(f, "bytes written: {}, {same}", self.written.len())
    }
}
