// Stamp scripts: registers, slots, nodes, blocks and whole scripts, and the arithmetic of their numbers.
//
// What must always hold of a script stands in its types, so no value that breaks it can be made: a register and a slot
// are below 16, a script has 1 to 64 blocks and at most 512 middle nodes, and every block that a last node names is
// there. What a run of a script is, and when two scripts run alike, is defined in specs/Run.antt. Reading and writing
// text is left to the crates above.
#![tactic(auto)]

pub mod arithmetic;
pub mod block;
pub mod blocks;
pub mod limits;
pub mod looks;
pub mod node;
pub mod numbers;
pub mod register;
pub mod store;
