// Reads the text of a script.
//
// `read` is total: for every text it gives the script that the text says, or the first fault, by the one definition of
// specs/Read.antt, which asks the questions in their order. On a fault nothing has changed: the lines are read into rows
// of the reader's own, and the script that was lent is written only when the whole text is read. No memory is asked for.
// Whether a text is short enough to be read at all is asked by whoever takes texts in.
#![tactic(auto)]

mod bodies;
mod contents;
mod counts;
mod cursor;
mod due;
mod entry;
pub mod fault;
mod row;
mod rows;
mod whole;

pub use whole::{cases_stand, read};
