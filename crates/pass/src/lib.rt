// Passes: what is known before a node, and what may stand in the node's place.
//
// A product group brings a pass by implementing `Lattice` and `ForwardPass` for a type of its own. What the answers mean
// is said by ghost members, and what they must keep is a law of `Lattice` and the promise of `ForwardPass::sound`; whoever
// runs a pass trusts these and nothing else. `Pair` makes one pass of two, to any depth. Running passes over a script is
// left to the crates above.
#![tactic(auto)]

mod admission;
pub mod edge;
pub mod forward;
mod lasts;
pub mod lattice;
mod middles;
pub mod pair;
pub mod piece;
