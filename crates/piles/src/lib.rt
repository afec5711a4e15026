// Tests of the passes: what each knows and proposes on examples, alone and in piles of pairs.
//
// There is nothing here but tests. What must be proposed was worked out by hand from docs/PASSES.md. A pile is made by
// writing its type down: nothing is proved here of a pair.
#![tactic(auto)]

#[cfg(test)]
mod alone;
#[cfg(test)]
mod offered;
#[cfg(test)]
mod paired;
#[cfg(test)]
mod ways;
