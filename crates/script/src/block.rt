// The blocks of a script, as they are stored and as they are looked at.
use super::node::{Last, Middle};

// How a block is stored: its last node, and where its middle nodes end in the row of all middle nodes.
#[derive(Clone, Copy, Debug, Default, PartialEq, Eq)]
pub struct BlockEnd {
    pub end: usize,
    pub last: Last,
}

// A block: its middle nodes in order, and its last node.
#[derive(Clone, Copy, Debug, PartialEq, Eq)]
pub struct Block<'a> {
    pub middles: &'a [Middle],
    pub last: Last,
}
