// Makes a script, and looks at its blocks.
ghost use Rattle.std.specs.Prelude.{◌≡◌, ◌-◌, ◌<◌, ◌≤◌, length, take, drop, IfOk, Some, None};
ghost use Rattle.script.specs.Model.{program_of, blocks_from, blank, found, begin_at, middle_count};

use super::block::{Block, BlockEnd};
use super::blocks::Blocks;
use super::limits::{MOST_BLOCKS, MOST_MIDDLES};
use super::node::Middle;
use super::store::Script;
use std::alloc::{AllocError, Global};

impl Script {
    // The script `end r0`, with memory reserved for every script.
    pub fn new(heap: Global) -> Result<Script, AllocError>
        ensures { IfOk result (λ s. program_of s ≡ blank) }
    {
        let middles = Vec::with_capacity(heap, MOST_MIDDLES)?;
        let mut blocks = Vec::with_capacity(heap, MOST_BLOCKS)?;
        blocks.push_reserved(BlockEnd::default());
        Ok(Script { middles, blocks })
    }

    // How many blocks there are.
    pub fn block_count(&self) -> usize
        ensures { result ≡ length (program_of self.now) }
    {
        self.blocks.len()
    }

    // How many middle nodes all blocks have together.
    pub fn middle_count(&self) -> usize
        ensures { result ≡ middle_count (program_of self.now) }
    {
        self.middles.len()
    }

    // The blocks, in order.
    pub fn blocks(&self) -> Blocks<'_>
        ensures { blocks_from result.middles.now result.from result.ends.now ≡ program_of self.now }
    {
        Blocks {
            middles: self.middles.as_slice(),
            from: 0,
            ends: self.blocks.as_slice(),
        }
    }

    // Block i, if there is one.
    #[tactic(auto, using(crate::proofs::Stored::bounds, crate::proofs::Stored::found_at, crate::proofs::Stored::missing_at))]
    pub fn block(&self, i: usize) -> Option<Block<'_>>
        ensures { elim result [ Some b ↦ found (program_of self.now) i ≡ Some (b.middles.now, b.last) | None ↦ found (program_of self.now) i ≡ None ] }
    {
        let stored = self.blocks.get(i)?;
        Some(Block {
            middles: part(self.middles.as_slice(), self.begin(i), stored.end),
            last: stored.last,
        })
    }

    // Where the middle nodes of block i begin.
    fn begin(&self, i: usize) -> usize
        requires { i < length self.now.blocks.items }
        ensures { result ≡ begin_at 0 self.now.blocks.items i }
    {
        if i == 0 { 0 } else { self.blocks[i - 1].end }
    }
}

// The nodes from one place up to another.
pub(crate) fn part(nodes: &[Middle], from: usize, to: usize) -> &[Middle]
    requires order { from ≤ to }
    requires inside { to ≤ length nodes.now }
    ensures { result.now ≡ take (to - from) (drop from nodes.now) }
{
    &nodes[from..to]
}
