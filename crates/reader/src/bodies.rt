// Reads the bodies of the blocks.
ghost use Rattle.std.specs.Prelude.{◌≡◌, ◌+◌, ◌≤◌, true, List, ◌++◌, length, Ok, Err, IfOk};
ghost use Rattle.reader.specs.Cursors.{cursor_of};
ghost use Rattle.reader.specs.Read.{middles as middles_from, body as body_from, bodies as bodies_from};
ghost use Rattle.reader.specs.Rows.{rows_program};
ghost use Rattle.reader.specs.Steps.{GivesAs};
ghost use Rattle.reader.specs.Totals.{total};
ghost use Rattle.script.specs.Limits.{most_blocks, most_middles};
ghost use Rattle.script.specs.Shape.{below};

use super::counts::Counts;
use super::cursor::Cursor;
use super::fault::Fault;
use super::row::Row;
use super::rows::Rows;
use script::block::BlockEnd;
use script::limits::{MOST_BLOCKS, MOST_MIDDLES};
use script::node::{Last, Middle};

impl Cursor<'_> {
    // So many middle nodes, put at the end of a row.
    fn middles(
        &mut self,
        blocks: u8,
        count: usize,
        row: &mut Row<'_, Middle, MOST_MIDDLES>,
    ) -> Result<(), Fault>
        requires { length row.old + count ≤ most_middles }
        ensures { elim result [ Ok _ ↦ ((xs : List Middle) × (row.new ≡ row.old ++ xs) × (length xs ≡ count) × (middles_from blocks count (cursor_of self.old) ≡ Ok (xs, cursor_of self.new))) | Err f ↦ middles_from blocks count (cursor_of self.old) ≡ Err f ] }
    {
        // So many nodes: nothing is there yet to go through.
        for _ in 0..count {
            row.push(self.middle(blocks)?);
        }
        Ok(())
    }

    // A block: so many middle nodes, put at the end of a row, and its last node.
    fn body(
        &mut self,
        blocks: u8,
        count: usize,
        row: &mut Row<'_, Middle, MOST_MIDDLES>,
    ) -> Result<Last, Fault>
        requires room { length row.old + count ≤ most_middles }
        requires few { blocks ≤ most_blocks }
        ensures { elim result [ Ok l ↦ ((xs : List Middle) × (row.new ≡ row.old ++ xs) × (length xs ≡ count) × (body_from blocks count (cursor_of self.old) ≡ Ok ((xs, l), cursor_of self.new)) × (below blocks l ≡ true)) | Err f ↦ body_from blocks count (cursor_of self.old) ≡ Err f ] }
    {
        self.middles(blocks, count, row)?;
        self.last(blocks)
    }

    // The bodies of the blocks, which have so many middle nodes each, put into places that are lent.
    pub(crate) fn bodies<'m>(
        &mut self,
        counts: &Counts<'_>,
        middles: &'m mut [Middle; MOST_MIDDLES],
        ends: &'m mut [BlockEnd; MOST_BLOCKS],
    ) -> Result<Rows<'m>, Fault>
        ensures reads { GivesAs rows_program (bodies_from counts.now.blocks counts.now.each (cursor_of self.old)) result (cursor_of self.new) }
        ensures size { IfOk result (λ rows. length rows.middles ≡ total counts.now.each) }
    {
        let mut middles = Row::new(middles);
        let mut ends = Row::new(ends);
        for count in counts.each.as_slice() {
            let last = self.body(counts.blocks, *count, &mut middles)?;
            ends.push(BlockEnd {
                end: middles.len(),
                last,
            });
        }
        Ok(Rows { middles, ends })
    }
}
