// Nodes of both kinds, as examples offer them to a pass.
use nodes::{last, middle};
use pass::forward::ForwardPass;
use pass::piece::{LastPiece, MiddlePiece};
use script::node::{Last, Middle};
use std::fmt::Debug;
use std::test::Fail;

// A kind of node: a middle node or a last node.
pub trait Offered: Copy {
    // What may stand in its place.
    type Piece: PartialEq + Debug + Copy;

    // The node of a line.
    fn named(line: &str) -> Result<Self, Fail>;

    // No piece.
    fn nothing() -> Option<Self::Piece>;

    // The piece that is this node alone.
    fn alone(self) -> Self::Piece;

    // The piece that a pass proposes for it, if any.
    fn piece<P: ForwardPass>(self, pass: &P, fact: P::Fact) -> Option<Self::Piece>;
}

impl Offered for Middle {
    type Piece = MiddlePiece;

    fn named(line: &str) -> Result<Middle, Fail> {
        middle(line.as_bytes(), 64).map_err(|_| Fail::new("no middle node"))
    }

    fn nothing() -> Option<MiddlePiece> {
        MiddlePiece::none()
    }

    fn alone(self) -> MiddlePiece {
        MiddlePiece::one(self)
    }

    fn piece<P: ForwardPass>(self, pass: &P, fact: P::Fact) -> Option<MiddlePiece> {
        pass.for_middle(self, fact)
    }
}

impl Offered for Last {
    type Piece = LastPiece;

    fn named(line: &str) -> Result<Last, Fail> {
        last(line.as_bytes(), 64).map_err(|_| Fail::new("no last node"))
    }

    fn nothing() -> Option<LastPiece> {
        LastPiece::none()
    }

    fn alone(self) -> LastPiece {
        LastPiece::only(self)
    }

    fn piece<P: ForwardPass>(self, pass: &P, fact: P::Fact) -> Option<LastPiece> {
        pass.for_last(self, fact)
    }
}
