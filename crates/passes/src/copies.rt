// The pass of copies: which registers hold the same number as another.
ghost use Rattle.std.specs.Prelude.{◌≡◌};
ghost use Rattle.pass.specs.Pieces.{middle_piece, last_piece};
ghost use Rattle.passes.specs.Copies.{Valid, Cautious, Admits, how_many, none, meet, after as after_fact, along as along_fact, from_sources, last_from_sources, in_place, in_place_last};
ghost use Rattle.passes.specs.CopiesLaws;

use crate::rows::Row;
use crate::sources::Sources;
use pass::edge::Edge;
use pass::forward::ForwardPass;
use pass::lattice::Lattice;
use pass::piece::{LastPiece, MiddlePiece};
use script::limits::EACH_REGISTER;
use script::node::{Last, Middle};

// For each register its source: the index of another register, or none. The indices are plain numbers and no `Register`s:
// facts lie in memory that callers lend, so they are plain records with no invariant in the type. `Sources` is made from
// the row after a check.
#[derive(Clone, Copy, Debug, PartialEq, Eq)]
pub struct PlainSources {
    pub row: Row<u8>,
}

impl From<Sources> for PlainSources {
    ghost from_gives = { λ sources plain. plain.row ≡ sources.row };

    fn from(sources: Sources) -> PlainSources {
        let row = sources.row;
        PlainSources { row }
    }
}

#[derive(Clone, Copy, Debug)]
pub struct Copies;

// No register has a source.
fn nothing() -> PlainSources
    ensures { result ≡ none }
{
    PlainSources {
        row: [None; EACH_REGISTER],
    }
}

// The node with each read of a register that has a source replaced by that source. Last nodes have a function of their own,
// since they and their pieces are other types.
fn middle_from(sources: &Sources, node: Middle) -> Option<MiddlePiece>
    ensures { middle_piece result ≡ from_sources node sources.now.row }
{
    match node {
        Middle::Mov { to, from } => {
            let source = sources.of(from)?;
            Some(MiddlePiece::one(Middle::Mov { to, from: source }))
        }
        Middle::Compute {
            operation,
            to,
            left,
            right,
        } => {
            let (a, b) = (sources.of(left), sources.of(right));
            if a.is_none() && b.is_none() {
                return None;
            }
            Some(MiddlePiece::one(Middle::Compute {
                operation,
                to,
                left: a.unwrap_or(left),
                right: b.unwrap_or(right),
            }))
        }
        Middle::Put { from } => {
            let source = sources.of(from)?;
            Some(MiddlePiece::one(Middle::Put { from: source }))
        }
        Middle::Set { .. } | Middle::Get { .. } => None,
    }
}

// The same for a last node.
fn last_from(sources: &Sources, node: Last) -> Option<LastPiece>
    ensures { last_piece result ≡ last_from_sources node sources.now.row }
{
    match node {
        Last::If { test, then, other } => {
            let source = sources.of(test)?;
            Some(LastPiece::only(Last::If {
                test: source,
                then,
                other,
            }))
        }
        Last::End { from } => {
            let source = sources.of(from)?;
            Some(LastPiece::only(Last::End { from: source }))
        }
        Last::Go { .. } => None,
    }
}

impl Lattice for Copies {
    type Fact = PlainSources;

    ghost valid = { λ _. Valid };

    ghost cautious = { λ _. Cautious };

    ghost rank = { λ _. how_many };

    ghost origin = { λ _. none };

    ghost joined = { λ _. meet };

    ghost lawful = { λ _. CopiesLaws.lattice };

    fn start(&self) -> PlainSources {
        nothing()
    }

    fn join(&self, old: PlainSources, new: PlainSources) -> (PlainSources, bool) {
        let Some(a) = Sources::checked(old.row) else {
            return (nothing(), true);
        };
        let Some(b) = Sources::checked(new.row) else {
            return (nothing(), true);
        };
        let (both, differs) = a.join(&b);
        (both.into(), differs)
    }
}

impl ForwardPass for Copies {
    ghost admits = { λ _. Admits };

    ghost follows = { λ _. after_fact };

    ghost crosses = { λ _. along_fact };

    ghost middle = { λ _. in_place };

    ghost last = { λ _. in_place_last };

    fn after(&self, node: Middle, fact: PlainSources) -> PlainSources {
        match Sources::checked(fact.row) {
            Some(before) => before.after(node).into(),
            None => nothing(),
        }
    }

    fn along(&self, node: Last, edge: Edge, fact: PlainSources) -> PlainSources {
        fact
    }

    fn for_middle(&self, node: Middle, fact: PlainSources) -> Option<MiddlePiece> {
        let sources = Sources::checked(fact.row)?;
        middle_from(&sources, node)
    }

    fn for_last(&self, node: Last, fact: PlainSources) -> Option<LastPiece> {
        let sources = Sources::checked(fact.row)?;
        last_from(&sources, node)
    }

    fn sound(&self) {}
}
