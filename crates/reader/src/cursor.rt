// A place in a text, at the begin of a line.
ghost use Rattle.std.specs.Prelude.{◌≡◌, ◌+◌, ◌^◌, ◌<◌, ◌≤◌, length};
ghost use Rattle.reader.specs.Read.{fault as fault_at};

use super::fault::{Due, Fault, Question};

// What is left of the text from there on, and where that is.
#[derive(Clone, Copy)]
pub struct Cursor<'a> {
    // the bytes from here on
    pub(crate) rest: &'a [u8],
    // the number of this line, from 1
    pub(crate) line: usize,
    // the place of its first byte, from 0
    pub(crate) place: usize,
    ghost small: { place + length rest.now < 2 ^ 63 },
    ghost lines: { line ≤ place + 1 },
}

impl<'a> Cursor<'a> {
    ghost use Rattle.reader.specs.Cursors.{cursor_of};

    // The fault of this line, where `question` was answered No and `due` was due.
    pub(crate) fn fault(&self, question: Question, due: Due) -> Fault
        ensures { result ≡ fault_at question due (cursor_of self.now) }
    {
        Fault {
            question,
            due,
            line: self.line,
            place: self.place,
        }
    }
}
