// What people are told of a text that is turned away: one line for each fault.
//
// The line has the form `NAME:LINE: number N (LAYER): EXPECTED (byte PLACE)`, which stands in src/notice.rt. That
// the line printed is the one of specs/Notices.antt is proved. Who prints it, and where, is left to the programs.
#![tactic(auto)]

mod expected;
pub mod notice;
