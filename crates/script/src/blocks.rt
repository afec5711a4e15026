// The blocks of a script, one after the other.
ghost use Rattle.std.specs.Prelude.{◌≡◌, true, length};
ghost use Rattle.script.specs.Shape.{ends_at};

use super::block::{Block, BlockEnd};
use super::looks::part;
use super::node::Middle;

// The blocks that are left: the row of all middle nodes, where those of the next block begin in it, and the ends of the
// blocks. Where they begin is a place, since the ends are places in the whole row.
#[derive(Clone, Copy)]
pub struct Blocks<'a> {
    pub(crate) middles: &'a [Middle],
    pub(crate) from: usize,
    pub(crate) ends: &'a [BlockEnd],
    ghost ordered: { ends_at from ends.now (length middles.now) ≡ true },
}

impl<'a> Iterator for Blocks<'a> {
    ghost use Rattle.std.specs.Iterator.{YieldsFirstBy, item_count};
    ghost use Rattle.script.specs.Model.{blocks_from};

    type Item = Block<'a>;

    ghost next_gives = { YieldsFirstBy (λ b. (b.middles.now, b.last)) (λ s. blocks_from s.middles.now s.from s.ends.now) };

    ghost remaining = { item_count (λ s. blocks_from s.middles.now s.from s.ends.now) };

    fn next(&mut self) -> Option<Block<'a>> {
        let (stored, ends) = self.ends.split_first()?;
        let block = Block {
            middles: part(self.middles, self.from, stored.end),
            last: stored.last,
        };
        *self = Blocks {
            middles: self.middles,
            from: stored.end,
            ends,
        };
        Some(block)
    }
}
