// Damaged texts, each with the fault that it must give, and good ones, which must be written as they were read.
//
// There is nothing here but tests of the crates reader, writer and tell. What a fault must be was worked out by hand. The
// texts are written with the shorthands of src/shorthand.rt, a bar for a line feed above all.
#![tactic(auto)]

#[cfg(test)]
mod contents;
#[cfg(test)]
mod damage;
#[cfg(test)]
mod feeds;
#[cfg(test)]
mod good;
#[cfg(test)]
mod headers;
#[cfg(test)]
mod lasts;
#[cfg(test)]
mod messages;
#[cfg(test)]
mod middles;
#[cfg(test)]
mod shorthand;
#[cfg(test)]
mod totals;
