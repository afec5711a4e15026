// Reads the contents lines.
ghost use Rattle.std.specs.Prelude.{◌≡◌, ◌≤◌, IfOk};
ghost use Rattle.reader.specs.Cursors.{cursor_of};
ghost use Rattle.reader.specs.Read.{contents as contents_from};
ghost use Rattle.reader.specs.Steps.{GivesAs};
ghost use Rattle.script.specs.Limits.{most_blocks};

use super::counts::Counts;
use super::cursor::Cursor;
use super::fault::{Due, Fault, Question};
use super::row::Row;
use script::limits::{MOST_BLOCKS, MOST_MIDDLES};

impl Cursor<'_> {
    // The counts of the contents lines of n blocks, put into places that are lent.
    pub(crate) fn contents<'m>(
        &mut self,
        n: u8,
        each: &'m mut [usize; MOST_BLOCKS],
    ) -> Result<Counts<'m>, Fault>
        requires { (1 ≤ n) × (n ≤ most_blocks) }
        ensures reads { GivesAs (λ counts. counts.each) (contents_from n 0 0 (cursor_of self.old)) result (cursor_of self.new) }
        ensures blocks { IfOk result (λ counts. counts.blocks ≡ n) }
    {
        let mut each = Row::new(each);
        let mut total: usize = 0;
        // i is the number in the block's name, and no index.
        for i in 0..n {
            let start = *self;
            // `as`: usize has no From<u32>, and a try_from would make an error that can't come.
            let count = self.count(i)? as usize;
            total += count;
            if total > MOST_MIDDLES {
                return Err(start.fault(Question::Total, Due::Count));
            }
            each.push(count);
        }
        Ok(Counts { blocks: n, each })
    }
}
