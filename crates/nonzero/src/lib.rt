// A pass as a product group brings it: which registers are known not to hold 0.
//
// It rests on `script` and `pass` alone, and docs/WRITING_A_PASS.md builds it step by step.
#![tactic(auto)]

ghost use Rattle.std.specs.Prelude.{◌≡◌};
ghost use Rattle.nonzero.specs.Marks.{Valid, Cautious, Admits, how_many, nothing, knows, marked, meet, after as after_marks, along as along_marks, in_place, in_place_last};
ghost use Rattle.nonzero.specs.Joins;

use pass::edge::Edge;
use pass::forward::ForwardPass;
use pass::lattice::Lattice;
use pass::piece::{LastPiece, MiddlePiece};
use script::limits::EACH_REGISTER;
use script::node::{Last, Middle};
use script::register::Register;
use std::array;

// For each register whether it is known not to hold 0.
#[derive(Clone, Copy, Debug, PartialEq, Eq)]
pub struct Marks {
    pub known: [bool; EACH_REGISTER],
}

#[derive(Clone, Copy, Debug)]
pub struct NonZero;

impl Marks {
    // Whether a register is known not to hold 0.
    fn has(&self, register: Register) -> bool
        ensures { result ≡ knows self.now register.index }
    {
        self.known[usize::from(register.index)]
    }

    // The marks once a register is known, or no longer known, not to hold 0.
    fn with(mut self, register: Register, known: bool) -> Marks
        ensures { result ≡ marked self register.index known }
    {
        self.known[usize::from(register.index)] = known;
        self
    }
}

impl Lattice for NonZero {
    type Fact = Marks;

    ghost valid = { λ _. Valid };

    ghost cautious = { λ _. Cautious };

    ghost rank = { λ _. how_many };

    ghost origin = { λ _. nothing };

    ghost joined = { λ _. meet };

    ghost lawful = { λ _. Joins.lattice };

    fn start(&self) -> Marks {
        Marks {
            known: [false; EACH_REGISTER],
        }
    }

    fn join(&self, old: Marks, new: Marks) -> (Marks, bool) {
        // By index, since arrays have no `zip`.
        let both = Marks {
            known: array::from_fn(|i| old.known[i] & new.known[i]),
        };
        (both, both != old)
    }
}

impl ForwardPass for NonZero {
    ghost admits = { λ _. Admits };

    ghost follows = { λ _. after_marks };

    ghost crosses = { λ _. along_marks };

    ghost middle = { λ _. in_place };

    ghost last = { λ _. in_place_last };

    fn after(&self, node: Middle, fact: Marks) -> Marks {
        match node {
            Middle::Set { to, value } => fact.with(to, value != 0),
            Middle::Mov { to, from } => fact.with(to, fact.has(from)),
            Middle::Compute { to, .. } => fact.with(to, false),
            Middle::Get { to, .. } => fact.with(to, false),
            Middle::Put { .. } => fact,
        }
    }

    fn along(&self, node: Last, edge: Edge, fact: Marks) -> Marks {
        match node {
            Last::If { test, .. } => match edge {
                Edge::First => fact.with(test, true),
                Edge::Second => fact,
            },
            Last::Go { .. } | Last::End { .. } => fact,
        }
    }

    fn for_middle(&self, node: Middle, fact: Marks) -> Option<MiddlePiece> {
        None
    }

    fn for_last(&self, node: Last, fact: Marks) -> Option<LastPiece> {
        match node {
            Last::If { test, then, .. } if fact.has(test) => {
                Some(LastPiece::only(Last::Go { target: then }))
            }
            _ => None,
        }
    }

    fn sound(&self) {}
}
