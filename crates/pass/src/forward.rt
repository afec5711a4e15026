// Forward passes: from what is known before a node to what is known after it.
//
// Middle nodes and last nodes have functions of their own: they take and answer other types, and one function over a trait of
// nodes would have each pass write an impl for either.
ghost use Rattle.std.specs.Prelude.{◌≡◌, List, Option as Maybe};
ghost use Rattle.script.specs.declared.node.Middle.{Middle as MiddleNode};
ghost use Rattle.script.specs.declared.node.Last.{Last as LastNode};
ghost use Rattle.script.specs.Run.{File};
ghost use Rattle.pass.specs.declared.edge.Edge.{Edge as EdgeOf};
ghost use Rattle.pass.specs.Forward.{ForwardLaws};
ghost use Rattle.pass.specs.Pieces.{middle_piece, last_piece};

use crate::edge::Edge;
use crate::lattice::Lattice;
use crate::piece::{LastPiece, MiddlePiece};
use script::node::{Last, Middle};

pub trait ForwardPass: Lattice {
    // Which register files a fact admits.
    ghost admits: { Self → Self.Fact → File → Type 0 };

    // What `after` answers.
    ghost follows: { Self → MiddleNode → Self.Fact → Self.Fact };

    // What `along` answers.
    ghost crosses: { Self → LastNode → EdgeOf → Self.Fact → Self.Fact };

    // What `for_middle` answers.
    ghost middle: { Self → MiddleNode → Self.Fact → Maybe (List MiddleNode) };

    // What `for_last` answers.
    ghost last: { Self → LastNode → Self.Fact → Maybe (List MiddleNode × LastNode) };

    // The fact after a middle node.
    fn after(&self, node: Middle, fact: Self::Fact) -> Self::Fact
        ensures { result ≡ follows self.now node fact };

    // The fact along an edge of a last node.
    fn along(&self, node: Last, edge: Edge, fact: Self::Fact) -> Self::Fact
        ensures { result ≡ crosses self.now node edge fact };

    // A piece for a middle node, or none.
    fn for_middle(&self, node: Middle, fact: Self::Fact) -> Option<MiddlePiece>
        ensures { middle_piece result ≡ middle self.now node fact };

    // A piece for a last node, or none.
    fn for_last(&self, node: Last, fact: Self::Fact) -> Option<LastPiece>
        ensures { last_piece result ≡ last self.now node fact };

    // Does nothing: its promise is what ties admission to the order, to the answers and to the pieces.
    fn sound(&self)
        ensures { ForwardLaws Self.Lattice self.now (admits self.now) (follows self.now) (crosses self.now) (middle self.now) (last self.now) };
}
