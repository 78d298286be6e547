//! The kids of an opened piece.
ghost use Rattle.std.specs.Prelude.{◌≡◌, ◌<◌, ◌++◌, length, slice_index, take, [], ◌∷◌, All, Contains, IfOk};
ghost use Rattle.cave_model.specs.Plan.{AreDistinct};
ghost use Rattle.proof_rules.specs.Good.{MayBePicked};
ghost use Rattle.proof_tree.specs.Bars.{places_of};
ghost use Rattle.proof_tree.specs.Kids.{AreNewPlaces};
ghost use Rattle.proof_tree.specs.Opened.{below_bars, kid_of, kids_from, kids_of, steps_from, steps_on};
ghost use Rattle.proof_tree.specs.declared.branching.Branching.TheVariants.{Place};
ghost use Rattle.set_cover.specs.Instance.{of_instance};

use crate::bars::Bar;
use crate::branching::Branching;
use crate::opened::Opened;
use crate::piece::Piece;
use cave_base::Cell;
use cave_model::OutOfMemory;
use std::alloc::Global;
use std::sync::Arc;

/// The places with these after them.
fn joined(alloc: Global, places: &[Cell], others: &[Cell]) -> Result<Vec<Cell>, OutOfMemory>
    ensures { IfOk result (λ all. all.items ≡ places.now ++ others.now) }
{
    let mut all = Vec::from_slice(alloc, places)?;
    all.extend_from_slice(others)?;
    Ok(all)
}

/// The places with those after them that the bars leave out.
fn joined_with(alloc: Global, places: &[Cell], bars: &[Bar]) -> Result<Vec<Cell>, OutOfMemory>
    ensures { IfOk result (λ all. all.items ≡ places.now ++ places_of bars.now) }
{
    let mut all = Vec::from_slice(alloc, places)?;
    for bar in bars {
        all.push(bar.place)?;
    }
    Ok(all)
}

/// The kid with this number, in which these places are chosen too, and these barred.
fn one_kid(
    alloc: Global,
    piece: &Piece,
    number: u32,
    chosen: &[Cell],
    barred: &[Cell],
) -> Result<Piece, OutOfMemory>
    requires new { AreDistinct chosen.now × All (λ place. ¬ Contains piece.now.chosen place) chosen.now }
    requires chosen { All (Contains piece.now.region.places) chosen.now }
    requires barred { All (Contains piece.now.region.places) barred.now }
    ensures { IfOk result (λ kid. kid ≡ kid_of piece.now number (record { chosen = chosen.now; barred = barred.now })) }
{
    let chosen = joined(alloc, piece.chosen(), chosen)?;
    let barred = joined(alloc, piece.barred(), barred)?;
    let name = piece.name().kid(number)?;
    let region = Arc::try_clone(piece.region())?;
    Ok(Piece::new(region, name, chosen, barred))
}

/// The kid with this number on a cell, whose place this is.
fn kid_on_cell(
    alloc: Global,
    piece: &Piece,
    places: &[Cell],
    number: usize,
    place: Cell,
) -> Result<Piece, OutOfMemory>
    requires new { AreNewPlaces piece.now places.now }
    requires inside { number < length places.now }
    requires place { place ≡ slice_index places.now number }
    ensures { IfOk result (λ kid. kid ≡ kid_of piece.now number
        (record { chosen = place ∷ []; barred = take number places.now })) }
{
    let kid = one_kid(alloc, piece, number as u32, &[place], &places[..number])?;
    Ok(kid)
}

/// The kids on a cell, of these places in turn.
fn kids_on_cell(alloc: Global, piece: &Piece, places: &[Cell]) -> Result<Vec<Piece>, OutOfMemory>
    requires { AreNewPlaces piece.now places.now }
    ensures { IfOk result (λ kids. kids.items ≡ kids_from piece.now 0 (steps_from [] places.now)) }
{
    let mut kids = Vec::with_capacity(alloc, places.len())?;
    for number in 0..places.len() {
        kids.push(kid_on_cell(alloc, piece, places, number, places[number])?)?;
    }
    Ok(kids)
}

/// Both kids at a place.
fn kids_at_place(alloc: Global, piece: &Piece, place: Cell) -> Result<Vec<Piece>, OutOfMemory>
    requires { MayBePicked (of_instance piece.now.region) piece.now.chosen piece.now.barred place }
    ensures { IfOk result (λ kids. kids.items ≡ kids_from piece.now 0 (steps_on (Place place) [])) }
{
    let mut kids = Vec::with_capacity(alloc, 2)?;
    kids.push(one_kid(alloc, piece, 0, &[place], &[])?)?;
    kids.push(one_kid(alloc, piece, 1, &[], &[place])?)?;
    Ok(kids)
}

impl Opened {
    /// The piece once the places are left out.
    fn below_bars(&self, alloc: Global) -> Result<Piece, OutOfMemory>
        ensures { IfOk result (λ piece. piece ≡ below_bars self.now.piece self.now.bars) }
    {
        let piece = self.piece();
        let chosen = Vec::from_slice(alloc, piece.chosen())?;
        let barred = joined_with(alloc, piece.barred(), self.bars())?;
        let name = piece.name().try_clone()?;
        let region = Arc::try_clone(piece.region())?;
        Ok(Piece::new(region, name, chosen, barred))
    }

    /// The kids: on a cell in the order of their places; at a place that in which it is chosen, then that in which it
    /// is barred.
    pub fn kids(&self, alloc: Global) -> Result<Vec<Piece>, OutOfMemory>
        ensures { IfOk result (λ kids. kids.items ≡ kids_of self.now) }
    {
        let piece = self.below_bars(alloc)?;
        match self.on() {
            Branching::Cell(_) => kids_on_cell(alloc, &piece, self.places()),
            Branching::Place(place) => kids_at_place(alloc, &piece, place),
        }
    }
}
