//! The dark cells of a world, its places, and who lights what: `AreListsOf` of specs/Lists.antt.
ghost use Rattle.std.specs.Prelude.{◌≡◌, IfOk};
ghost use Rattle.lit_lists.specs.Lists.{AreListsOf, is_marked, row_at};

use crate::levels::light;
use crate::marking::{dark_marks, place_marks};
use crate::pairs::{Pairs, pairs_of};
use cave_base::Cell;
use cave_model::{Passages, World};
use std::alloc::{AllocError, Global};
use std::marker::Model;

/// Which cells of a world are dark, which are places, and who lights what.
#[derive(Debug, Drop)]
pub struct Lists {
    dark: Vec<bool>,
    places: Vec<bool>,
    pairs: Pairs,
}

impl Model for Lists {
    ghost use Rattle.lit_lists.specs.Lists as lists;

    ghost Value = { lists.LitLists };

    ghost view = { λ l. record { dark = l.dark.items; places = l.places.items; pairs = l.pairs } };
}

impl Lists {
    /// The lists of a world.
    pub fn new(alloc: Global, world: &World) -> Result<Lists, AllocError>
        ensures { IfOk result (AreListsOf world.now) }
    {
        let passages = Passages::new(alloc, world)?;
        let levels = light(alloc, world, &passages)?;
        let dark = dark_marks(alloc, world, &levels)?;
        let places = place_marks(alloc, world)?;
        let pairs = pairs_of(alloc, world, &passages, &dark, &places)?;
        Ok(Lists {
            dark,
            places,
            pairs,
        })
    }

    /// Whether the cell is dark; none outside the box is.
    pub fn is_dark(&self, cell: Cell) -> bool
        ensures { result ≡ is_marked self.now.dark cell }
    {
        flag(&self.dark, cell)
    }

    /// Whether a new torch may go into the cell; into none outside the box.
    pub fn is_place(&self, cell: Cell) -> bool
        ensures { result ≡ is_marked self.now.places cell }
    {
        flag(&self.places, cell)
    }

    /// The dark cells that a torch at the place lights; none where it is no place.
    pub fn lights(&self, place: Cell) -> &[Cell]
        ensures { result.now ≡ row_at self.now.pairs.lights place }
    {
        self.pairs.lights(place)
    }

    /// The places that light the cell, ascending; none where it isn't dark.
    pub fn lit_by(&self, cell: Cell) -> &[Cell]
        ensures { result.now ≡ row_at self.now.pairs.lit_by cell }
    {
        self.pairs.lit_by(cell)
    }
}

/// The flag of a cell; past the end none is set.
fn flag(flags: &[bool], cell: Cell) -> bool
    ensures { result ≡ is_marked flags.now cell }
{
    let cell = cell as usize;
    cell < flags.len() && flags[cell]
}
