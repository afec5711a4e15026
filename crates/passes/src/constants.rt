// The pass of constants: which registers hold a known number.
ghost use Rattle.std.specs.Prelude.{◌≡◌};
ghost use Rattle.pass.specs.Pieces.{middle_piece, last_piece};
ghost use Rattle.passes.specs.Constants.{Valid, Cautious, Admits, how_many, all_zero, meet, known_as, becomes as becomes_fact, combined as combined_number, after as after_fact, along as along_fact, sets as sets_piece, in_place, goes as goes_piece, in_place_last};
ghost use Rattle.passes.specs.ConstantsLaws;

use crate::rows::{self, Row};
use pass::edge::Edge;
use pass::forward::ForwardPass;
use pass::lattice::Lattice;
use pass::piece::{LastPiece, MiddlePiece};
use script::arithmetic::compute;
use script::limits::EACH_REGISTER;
use script::node::{Last, Middle, Operation};
use script::register::Register;

// For each register its number, where it is known. A struct around the row, as `PlainSources` is: what is generic is `Row`,
// and the type says of which pass a fact is.
#[derive(Clone, Copy, Debug, PartialEq, Eq)]
pub struct Numbers {
    pub row: Row<i32>,
}

#[derive(Clone, Copy, Debug)]
pub struct Constants;

impl Numbers {
    // The number of a register, if it is known.
    fn of(&self, register: Register) -> Option<i32>
        ensures { result ≡ known_as self.now register.index }
    {
        self.row[usize::from(register.index)]
    }

    // The fact once a register holds a number that is known or not.
    fn becomes(mut self, register: Register, number: Option<i32>) -> Numbers
        ensures { result ≡ becomes_fact self register.index number }
    {
        self.row[usize::from(register.index)] = number;
        self
    }
}

// What an operation makes of two numbers, where both are known.
fn combined(operation: Operation, left: Option<i32>, right: Option<i32>) -> Option<i32>
    ensures { result ≡ combined_number operation left right }
{
    Some(compute(operation, left?, right?))
}

// `set d k`, where k is known.
fn sets(to: Register, number: Option<i32>) -> Option<MiddlePiece>
    ensures { middle_piece result ≡ sets_piece to number }
{
    let value = number?;
    Some(MiddlePiece::one(Middle::Set { to, value }))
}

// `go`, where the number that is tested is known, or both ways lead to one block. By a match, since there are three cases;
// a chain of `map`, `or` and `?` would be no plainer.
fn goes(then: u8, other: u8, number: Option<i32>) -> Option<LastPiece>
    ensures { last_piece result ≡ goes_piece then other number }
{
    let target = match number {
        Some(value) => if value == 0 { other } else { then },
        None if then == other => then,
        None => return None,
    };
    Some(LastPiece::only(Last::Go { target }))
}

impl Lattice for Constants {
    type Fact = Numbers;

    ghost valid = { λ _. Valid };

    ghost cautious = { λ _. Cautious };

    ghost rank = { λ _. how_many };

    ghost origin = { λ _. all_zero };

    ghost joined = { λ _. meet };

    ghost lawful = { λ _. ConstantsLaws.lattice };

    fn start(&self) -> Numbers {
        Numbers {
            row: [Some(0); EACH_REGISTER],
        }
    }

    fn join(&self, old: Numbers, new: Numbers) -> (Numbers, bool) {
        let (row, differs) = rows::join(old.row, new.row);
        (Numbers { row }, differs)
    }
}

impl ForwardPass for Constants {
    ghost admits = { λ _. Admits };

    ghost follows = { λ _. after_fact };

    ghost crosses = { λ _. along_fact };

    ghost middle = { λ _. in_place };

    ghost last = { λ _. in_place_last };

    fn after(&self, node: Middle, fact: Numbers) -> Numbers {
        match node {
            Middle::Set { to, value } => fact.becomes(to, Some(value)),
            Middle::Mov { to, from } => fact.becomes(to, fact.of(from)),
            Middle::Compute {
                operation,
                to,
                left,
                right,
            } => fact.becomes(to, combined(operation, fact.of(left), fact.of(right))),
            Middle::Get { to, .. } => fact.becomes(to, None),
            Middle::Put { .. } => fact,
        }
    }

    fn along(&self, node: Last, edge: Edge, fact: Numbers) -> Numbers {
        match (node, edge) {
            (Last::If { test, .. }, Edge::Second) => fact.becomes(test, Some(0)),
            _ => fact,
        }
    }

    fn for_middle(&self, node: Middle, fact: Numbers) -> Option<MiddlePiece> {
        match node {
            Middle::Mov { to, from } => sets(to, fact.of(from)),
            Middle::Compute {
                operation,
                to,
                left,
                right,
            } => sets(to, combined(operation, fact.of(left), fact.of(right))),
            Middle::Set { .. } | Middle::Get { .. } | Middle::Put { .. } => None,
        }
    }

    fn for_last(&self, node: Last, fact: Numbers) -> Option<LastPiece> {
        match node {
            Last::If { test, then, other } => goes(then, other, fact.of(test)),
            Last::Go { .. } | Last::End { .. } => None,
        }
    }

    fn sound(&self) {}
}
