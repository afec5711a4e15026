// Our own two passes: which registers hold a known number, and which hold a copy of another register.
//
// Each is one page of code over the definitions in specs/, and is shown to be a lawful pass; running them is left to the
// crates above.
#![tactic(auto)]

pub mod constants;
pub mod copies;
mod rows;
mod sources;
