// A script, in two rows: the middle nodes of all blocks one after the other, and the end of each block.
//
// The memory of both rows is reserved when a script is made and is enough for every script, so changing a script never
// asks for more. A vector of nodes in each block would have to: hence the one row, and the places where blocks end in it.
ghost use Rattle.std.specs.Prelude.{◌≡◌, ◌<◌, ◌≤◌, true, length, vec_capacity};
ghost use Rattle.script.specs.Limits.{most_blocks, most_middles};
ghost use Rattle.script.specs.Shape.{ends_at, all_below};

use super::block::BlockEnd;
use super::node::Middle;

#[derive(Drop)]
pub struct Script {
    pub middles: Vec<Middle>,
    pub blocks: Vec<BlockEnd>,
    ghost some: { 0 < length blocks.items },
    ghost few: { length blocks.items ≤ most_blocks },
    ghost small: { length middles.items ≤ most_middles },
    ghost ends: { ends_at 0 blocks.items (length middles.items) ≡ true },
    ghost named: { all_below (length blocks.items) blocks.items ≡ true },
    ghost room: { most_middles ≤ vec_capacity middles },
    ghost space: { most_blocks ≤ vec_capacity blocks },
}
