// Two passes as one. A pair is again a pass, so pairs nest to any depth.
ghost use Rattle.pass.specs.Pairs.{paired_lattice, paired_pass};
ghost use Rattle.pass.specs.PairLaws.{both_lattice};

use crate::edge::Edge;
use crate::forward::ForwardPass;
use crate::lattice::Lattice;
use crate::piece::{LastPiece, MiddlePiece};
use script::node::{Last, Middle};

#[derive(Clone, Copy, Debug)]
pub struct Pair<A, B> {
    pub first: A,
    pub second: B,
}

impl<A: Lattice, B: Lattice> Lattice for Pair<A, B> {
    type Fact = (A::Fact, B::Fact);

    ghost valid = { (paired_lattice A.Lattice B.Lattice).valid };

    ghost cautious = { (paired_lattice A.Lattice B.Lattice).cautious };

    ghost rank = { (paired_lattice A.Lattice B.Lattice).rank };

    ghost origin = { (paired_lattice A.Lattice B.Lattice).origin };

    ghost joined = { (paired_lattice A.Lattice B.Lattice).joined };

    ghost lawful = { λ p. both_lattice A.Lattice.own B.Lattice.own p (A.lawful p.first) (B.lawful p.second) };

    fn start(&self) -> (A::Fact, B::Fact) {
        (self.first.start(), self.second.start())
    }

    fn join(&self, old: (A::Fact, B::Fact), new: (A::Fact, B::Fact)) -> ((A::Fact, B::Fact), bool) {
        let (a, a_differs) = self.first.join(old.0, new.0);
        let (b, b_differs) = self.second.join(old.1, new.1);
        ((a, b), a_differs | b_differs)
    }
}

impl<A: ForwardPass, B: ForwardPass> ForwardPass for Pair<A, B> {
    ghost admits = { (paired_pass A.ForwardPass.own B.ForwardPass.own).admits };

    ghost follows = { (paired_pass A.ForwardPass.own B.ForwardPass.own).follows };

    ghost crosses = { (paired_pass A.ForwardPass.own B.ForwardPass.own).crosses };

    ghost middle = { (paired_pass A.ForwardPass.own B.ForwardPass.own).middle };

    ghost last = { (paired_pass A.ForwardPass.own B.ForwardPass.own).last };

    fn after(&self, node: Middle, fact: (A::Fact, B::Fact)) -> (A::Fact, B::Fact) {
        (
            self.first.after(node, fact.0),
            self.second.after(node, fact.1),
        )
    }

    fn along(&self, node: Last, edge: Edge, fact: (A::Fact, B::Fact)) -> (A::Fact, B::Fact) {
        (
            self.first.along(node, edge, fact.0),
            self.second.along(node, edge, fact.1),
        )
    }

    fn for_middle(&self, node: Middle, fact: (A::Fact, B::Fact)) -> Option<MiddlePiece> {
        let piece = self.first.for_middle(node, fact.0);
        piece.or_else(|| self.second.for_middle(node, fact.1))
    }

    fn for_last(&self, node: Last, fact: (A::Fact, B::Fact)) -> Option<LastPiece> {
        let piece = self.first.for_last(node, fact.0);
        piece.or_else(|| self.second.for_last(node, fact.1))
    }

    fn sound(&self) {
        self.first.sound();
        self.second.sound();
    }
}
