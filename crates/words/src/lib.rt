// The words of a script's text: numbers, registers, slots and blocks, and the table of node forms.
//
// Reader and writer both go by the one table of src/table.rt. Reading a word is total: any bytes, with digits of any
// length, give a value, or say whether the form is wrong or a number is out of range. Writing a number puts it after
// what stands on a page, or leaves the page as it was where it does not fit. Which lines are due in which order is left to
// the crate reader.
#![tactic(auto)]

pub mod decimal;
pub mod flaw;
pub mod kind;
pub mod line;
pub mod number;
pub mod operand;
pub mod table;
pub mod verb;
