// Reads the line of a node.
//
// A line is given without its line feed, and is read as a middle node or as a last node, whichever is due there. Any
// bytes give a node, or say whether the form is wrong or a number is out of range.
#![tactic(auto)]

mod node;

pub use node::{last, middle};
