//! A piece that is opened: `Split` of specs/Opened.antt.
ghost use Rattle.std.specs.Prelude.{◌≡◌};
ghost use Rattle.proof_tree.specs.Opened.{IsSplit};

use crate::bars::Bar;
use crate::branching::Branching;
use crate::piece::Piece;
use cave_base::Cell;
use std::marker::Model;

/// A piece that is opened on a cell or at a place, below places that are left out, with the places of its kids.
#[derive(Drop)]
pub struct Opened {
    piece: Piece,
    bars: Vec<Bar>,
    on: Branching,
    places: Vec<Cell>,
}

impl Model for Opened {
    ghost use Rattle.proof_tree.specs.Opened.{IsSplit, Split, split_coded};

    ghost Value = { Split };

    ghost coded = { split_coded };

    ghost view = { λ o. record { piece = o.piece; bars = o.bars.items; on = o.on; places = o.places.items } };

    ghost invariant = { λ o. IsSplit (record {
      piece = o.piece;
      bars = o.bars.items;
      on = o.on;
      places = o.places.items;
    }) };
}

impl Opened {
    /// The piece opened so, with these as the places of its kids on a cell.
    pub fn new(piece: Piece, bars: Vec<Bar>, on: Branching, places: Vec<Cell>) -> Opened
        requires { IsSplit (record { piece = piece; bars = bars.items; on = on; places = places.items }) }
        ensures { result ≡ record { piece = piece; bars = bars.items; on = on; places = places.items } }
    {
        Opened {
            piece,
            bars,
            on,
            places,
        }
    }

    /// The piece.
    pub fn piece(&self) -> &Piece
        ensures piece { result.now ≡ self.now.piece }
        ensures kept { IsSplit self.now }
    {
        &self.piece
    }

    /// The places that are left out before it is opened, in their order.
    pub fn bars(&self) -> &[Bar]
        ensures bars { result.now ≡ self.now.bars }
        ensures kept { IsSplit self.now }
    {
        &self.bars
    }

    /// What it is opened on.
    pub fn on(&self) -> Branching
        ensures on { result ≡ self.now.on }
        ensures kept { IsSplit self.now }
    {
        self.on
    }

    /// The places of the kids on a cell, ascending: all that light it and aren't barred or left out. At a place none.
    pub fn places(&self) -> &[Cell]
        ensures places { result.now ≡ self.now.places }
        ensures kept { IsSplit self.now }
    {
        &self.places
    }

    /// The piece alone.
    pub fn into_piece(self) -> Piece
        ensures { result ≡ self.piece }
    {
        let Opened { piece, .. } = self;
        piece
    }
}
