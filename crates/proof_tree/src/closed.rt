//! A piece with a tree that closes it: `Fathomed` of specs/Piece.antt.
ghost use Rattle.std.specs.Prelude.{◌≡◌};
ghost use Rattle.proof_tree.specs.Piece.{ClosesPiece, IsClosed};
ghost use Rattle.proof_tree.specs.Shape.{tree_of};

use crate::piece::Piece;
use crate::proof::Proof;
use std::marker::Model;

/// A piece with a tree which proves that each of its covers has at least `floor` places.
#[derive(Drop)]
pub struct Closed {
    piece: Piece,
    floor: u64,
    proof: Proof,
}

impl Model for Closed {
    ghost use Rattle.proof_tree.specs.Piece.{Fathomed, IsClosed, fathomed_coded};
    ghost use Rattle.proof_tree.specs.Shape.{tree_of};

    ghost Value = { Fathomed };

    ghost coded = { fathomed_coded };

    ghost view = { λ c. record { piece = c.piece; floor = c.floor; tree = tree_of c.proof } };

    ghost invariant = { λ c. IsClosed (record { piece = c.piece; floor = c.floor; tree = tree_of c.proof }) };
}

impl Closed {
    /// The piece with a tree that closes it at this floor.
    pub fn new(piece: Piece, floor: u64, proof: Proof) -> Closed
        requires { ClosesPiece piece floor (tree_of proof) }
        ensures { result ≡ record { piece = piece; floor = floor; tree = tree_of proof } }
    {
        Closed {
            piece,
            floor,
            proof,
        }
    }

    /// The piece.
    pub fn piece(&self) -> &Piece
        ensures piece { result.now ≡ self.now.piece }
        ensures closed { IsClosed self.now }
    {
        &self.piece
    }

    /// The tree.
    pub fn proof(&self) -> &Proof
        ensures tree { tree_of result.now ≡ self.now.tree }
        ensures closed { IsClosed self.now }
    {
        &self.proof
    }

    /// The tree alone, with no new memory.
    pub fn into_proof(self) -> Proof
        ensures tree { tree_of result ≡ self.tree }
        ensures closed { IsClosed self }
    {
        let Closed { proof, .. } = self;
        proof
    }
}

/// How many places each cover of the closed piece has at least.
pub fn floor_of(closed: &Closed) -> u64
    ensures floor { result ≡ closed.now.floor }
    ensures closed { IsClosed closed.now }
{
    closed.floor
}
