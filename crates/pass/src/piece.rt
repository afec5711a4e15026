// Pieces: what a pass proposes in place of a node. Where it proposes nothing, there is no piece.
//
// The first `count` of `middles` are the nodes of the piece; those past them mean nothing. An `ArrayVec` would say so in its
// own type, and would not be `Copy`; a piece is.
ghost use Rattle.std.specs.Prelude.{◌≤◌};

use script::node::{Last, Middle};

// In place of a middle node: 0 to 4 middle nodes.
#[derive(Clone, Copy, Debug)]
pub struct MiddlePiece {
    pub count: usize,
    pub middles: [Middle; 4],
    ghost few: { count ≤ 4 },
}

// In place of a last node: 0 to 4 middle nodes, and a last node. A type of its own, since here there must be a last node.
#[derive(Clone, Copy, Debug)]
pub struct LastPiece {
    pub count: usize,
    pub middles: [Middle; 4],
    pub last: Last,
    ghost few: { count ≤ 4 },
}
