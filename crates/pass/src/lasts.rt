// Pieces in place of a last node.
ghost use Rattle.std.specs.Prelude.{◌≡◌, [], replicate, take};
ghost use Rattle.std.specs.Cmp.{partial_equiv_from_equiv, on_equiv, and_equiv};
ghost use Rattle.std.specs.Cmp.Lexicographic.{pointwise, lists_equiv};
ghost use Rattle.std.specs.Ordering.{on, eq_of_both};
ghost use Rattle.script.specs.Model.{unused};
ghost use Rattle.script.specs.contracts.node.MiddleEq.TheImpl.Laws.{laws-law as laws_of_middle};
ghost use Rattle.script.specs.contracts.node.LastEq.TheImpl.Laws.{laws-law as laws_of_last};
ghost use Rattle.pass.specs.Pieces.{last_piece};

use crate::piece::LastPiece;
use script::node::{Last, Middle};

impl LastPiece {
    // No piece: `None`.
    pub fn none() -> Option<LastPiece>
        ensures { last_piece result ≡ None }
    {
        None
    }

    // The piece that is this last node alone.
    pub fn only(node: Last) -> LastPiece
        ensures piece { last_piece (Some result) ≡ Some ([], node) }
        ensures middles { take result.count result.middles ≡ [] }
        ensures last { result.last ≡ node }
        ensures unread { result.middles ≡ replicate 4 unused }
    {
        LastPiece {
            count: 0,
            middles: [Middle::default(); 4],
            last: node,
        }
    }

    // The middle nodes of the piece.
    pub fn nodes(&self) -> &[Middle]
        ensures { result.now ≡ take self.now.count self.now.middles }
    {
        &self.middles[..self.count]
    }

    // The same piece once more.
    pub fn copy(&self) -> LastPiece
        ensures { result ≡ self.now }
    {
        *self
    }
}

// Two pieces are equal where their nodes are.
impl PartialEq for LastPiece {
    ghost eq = { eq_of_both (on (λ p. take p.count p.middles) (pointwise ⟦<Middle as PartialEq>⟧.eq)) (on (λ p. p.last) ⟦<Last as PartialEq>⟧.eq) };

    ghost laws = { partial_equiv_from_equiv (and_equiv (on_equiv (λ p. take p.count p.middles) (lists_equiv laws_of_middle)) (on_equiv (λ p. p.last) laws_of_last)) };

    fn eq(&self, other: &LastPiece) -> bool {
        self.nodes() == other.nodes() && self.last == other.last
    }
}

impl Eq for LastPiece {
    ghost laws = { and_equiv (on_equiv (λ p. take p.count p.middles) (lists_equiv laws_of_middle)) (on_equiv (λ p. p.last) laws_of_last) };
}
