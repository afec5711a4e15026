// Reads a text line by line.
ghost use Rattle.std.specs.Prelude.{◌≡◌, ◌<◌, ◌≤◌, [], ◌∷◌, Some, None, Ok, Err, IfOk, List, ℕ};
ghost use Rattle.std.specs.Fn.{FnOnceReturnsAt};
ghost use Rattle.reader.specs.Cursors.{cursor_of};
ghost use Rattle.reader.specs.Read.{fault as fault_at, past, due as due_line};
ghost use Rattle.reader.specs.Steps.{Gives, Computes};
ghost use Rattle.script.specs.Limits.{most_blocks};
ghost use Rattle.words.specs.Forms.{Row, header_row, contents_row, middle_rows, last_rows, line_as};
ghost use Rattle.words.specs.Words.{cut as cut_at};

use super::cursor::Cursor;
use super::entry::{count, header};
use super::fault::{Due, Fault, Question};
use nodes::{last, middle};
use script::node::{Last, Middle};
use words::flaw::Flaw;
use words::line::cut;

impl<'a> Cursor<'a> {
    // The line that is due, without its line feed.
    fn next_line(&mut self, due: Due) -> Result<&'a [u8], Fault>
        ensures { elim result [ Ok l ↦ (cut_at 10 self.old.rest.now ≡ (l.now, Some self.new.rest.now)) × (cursor_of self.new ≡ past (cursor_of self.old) l.now self.new.rest.now) | Err f ↦ ((cut_at 10 self.old.rest.now).1 ≡ None) × (f ≡ fault_at Question.Feed due (cursor_of self.old)) ] }
    {
        let (line, rest) = cut(self.rest, b'\n');
        self.rest = rest.ok_or(self.fault(Question::Feed, due))?;
        self.line += 1;
        self.place += line.len() + 1;
        Ok(line)
    }

    // The line that is due, as `read` reads it.
    fn due<T, F: FnOnce(&[u8]) -> Result<T, Flaw>>(&mut self, due: Due, read: F) -> Result<T, Fault>
        requires { F.IsAlwaysCallable read }
        ensures { (n : ℕ) (rows : List (Row T)) → Computes (FnOnceReturnsAt F.FnOnce read) (line_as n rows) → Gives (due_line due n rows (cursor_of self.old)) result (cursor_of self.new) }
    {
        let start = *self;
        let line = self.next_line(due)?;
        // In a `let`: written into the call, its clause is not in what `map_err` says here, on the result of a generic `read`.
        let flawed = |flaw|
            ensures { result ≡ fault_at (Question.Words flaw) due (cursor_of start.entry) }
        { start.fault(Question::Words(flaw), due) };
        read(line).map_err(flawed)
    }

    // `blocks N`. That N is at most 64 is said where it is read, here, and asked where it is used, by `contents` and `body`: a
    // type for one number would be no plainer.
    pub(crate) fn header(&mut self) -> Result<u8, Fault>
        ensures reads { Gives (due_line Due.Header 0 (header_row ∷ []) (cursor_of self.old)) result (cursor_of self.new) }
        ensures range { IfOk result (λ n. (1 ≤ n) × (n ≤ most_blocks)) }
    {
        let n = self.due(Due::Header, header)?;
        // `as`: a try_from would make an error of a number above 255, and none comes here.
        Ok(n as u8)
    }

    // `bI C`
    pub(crate) fn count(&mut self, i: u8) -> Result<u32, Fault>
        requires { i < most_blocks }
        ensures { Gives (due_line Due.Count 0 (contents_row i ∷ []) (cursor_of self.old)) result (cursor_of self.new) }
    {
        self.due(Due::Count, |line| count(i, line))
    }

    // A middle node.
    pub(crate) fn middle(&mut self, blocks: u8) -> Result<Middle, Fault>
        ensures { Gives (due_line Due.MiddleNode blocks middle_rows (cursor_of self.old)) result (cursor_of self.new) }
    {
        self.due(Due::MiddleNode, |line| middle(line, blocks))
    }

    // A last node.
    pub(crate) fn last(&mut self, blocks: u8) -> Result<Last, Fault>
        ensures { Gives (due_line Due.LastNode blocks last_rows (cursor_of self.old)) result (cursor_of self.new) }
    {
        self.due(Due::LastNode, |line| last(line, blocks))
    }
}
