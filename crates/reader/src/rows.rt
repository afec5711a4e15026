// A script that was read, in rows of the reader's own.
ghost use Rattle.std.specs.Prelude.{◌≡◌, ◌<◌, true, length};
ghost use Rattle.script.specs.Shape.{ends_at, all_below};

use super::row::Row;
use script::block::BlockEnd;
use script::limits::{MOST_BLOCKS, MOST_MIDDLES};
use script::node::Middle;
use script::store::Script;

// The rows as a script stores them: the middle nodes of all blocks one after the other, and the end of each block. What
// holds of them is said again, since a script has memory reserved in vectors and these fill places that are lent: two types,
// over the same definitions.
#[derive(Drop)]
pub(crate) struct Rows<'a> {
    pub(crate) middles: Row<'a, Middle, MOST_MIDDLES>,
    pub(crate) ends: Row<'a, BlockEnd, MOST_BLOCKS>,
    ghost some: { 0 < length ends },
    ghost order: { ends_at 0 ends (length middles) ≡ true },
    ghost named: { all_below (length ends) ends ≡ true },
}

impl Rows<'_> {
    ghost use Rattle.script.specs.Model.{program_of};
    ghost use Rattle.reader.specs.Rows.{rows_program};

    // Copies them into the rows of a script, which have room for every script.
    pub(crate) fn copy_to(&self, script: &mut Script)
        ensures { program_of script.new ≡ rows_program self.now }
    {
        script.middles.clear();
        script
            .middles
            .extend_from_slice(self.middles.as_slice())
            .unwrap();
        script.blocks.clear();
        script
            .blocks
            .extend_from_slice(self.ends.as_slice())
            .unwrap();
    }
}
