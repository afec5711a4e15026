// The edges of a last node.

// An edge of a last node: the first leads to the first block that the node names, the second to the second.
#[derive(Clone, Copy, Debug, PartialEq, Eq)]
pub enum Edge {
    First,
    Second,
}
