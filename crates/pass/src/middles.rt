// Pieces in place of a middle node.
ghost use Rattle.std.specs.Prelude.{◌≡◌, [], ◌∷◌, replicate, take};
ghost use Rattle.std.specs.Cmp.{partial_equiv_from_equiv, on_equiv};
ghost use Rattle.std.specs.Cmp.Lexicographic.{pointwise, lists_equiv};
ghost use Rattle.std.specs.Ordering.{on};
ghost use Rattle.script.specs.contracts.node.MiddleEq.TheImpl.Laws.{laws-law as laws_of_middle};
ghost use Rattle.pass.specs.Pieces.{middle_piece};

use crate::piece::MiddlePiece;
use script::node::Middle;

impl MiddlePiece {
    // No piece: `None`.
    pub fn none() -> Option<MiddlePiece>
        ensures { middle_piece result ≡ None }
    {
        None
    }

    // The piece that is this one node.
    pub fn one(node: Middle) -> MiddlePiece
        ensures piece { middle_piece (Some result) ≡ Some (node ∷ []) }
        ensures nodes { take result.count result.middles ≡ node ∷ [] }
        ensures unread { result.middles ≡ replicate 4 node }
    {
        MiddlePiece {
            count: 1,
            middles: [node; 4],
        }
    }

    // The nodes of the piece.
    pub fn nodes(&self) -> &[Middle]
        ensures { result.now ≡ take self.now.count self.now.middles }
    {
        &self.middles[..self.count]
    }

    // The same piece once more.
    pub fn copy(&self) -> MiddlePiece
        ensures { result ≡ self.now }
    {
        *self
    }
}

// Two pieces are equal where their nodes are.
impl PartialEq for MiddlePiece {
    ghost eq = { on (λ p. take p.count p.middles) (pointwise ⟦<Middle as PartialEq>⟧.eq) };

    ghost laws = { partial_equiv_from_equiv (on_equiv (λ p. take p.count p.middles) (lists_equiv laws_of_middle)) };

    fn eq(&self, other: &MiddlePiece) -> bool {
        self.nodes() == other.nodes()
    }
}

impl Eq for MiddlePiece {
    ghost laws = { on_equiv (λ p. take p.count p.middles) (lists_equiv laws_of_middle) };
}
