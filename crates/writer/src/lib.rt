// Writes the text of a script.
//
// `write` puts the whole text into lent bytes or leaves them all as they were. Its contract also carries what holds of
// reading and writing together: a script's text is never longer than a text may be, it is read as that same script, and
// whatever text the script was read from is the text that is written. No memory is asked for.
#![tactic(auto)]

mod bodies;
mod line;
mod put;
mod whole;

pub use whole::write;
