//! Set cover instances as lists: `IsSparse` of specs/Sparse.antt.
ghost use Rattle.std.specs.Prelude.{◌≡◌, ◌<◌, length};
ghost use Rattle.set_cover.specs.Buckets.{bucket};
ghost use Rattle.set_cover.specs.Sparse.{IsSparse};

use crate::buckets::Buckets;
use cave_base::Cell;
use std::marker::Model;

/// Cells, places, and for each place the cells that it lights, by their indices. Cells and places stand ascending, and
/// each cell has a place that lights it. The memory is in proportion to what is lit (this project's own).
#[derive(Debug, Drop)]
pub struct Sparse {
    cells: Vec<Cell>,
    places: Vec<Cell>,
    lit: Buckets,
}

impl Model for Sparse {
    ghost use Rattle.set_cover.specs.Sparse.{Sparse, IsSparse};

    ghost Value = { Sparse };

    ghost view = { λ s. record { cells = s.cells.items; places = s.places.items; lit = s.lit } };

    ghost invariant = { λ s. IsSparse (record { cells = s.cells.items; places = s.places.items; lit = s.lit }) };
}

impl Sparse {
    /// The instance with these lists, one for each place.
    pub fn new(cells: Vec<Cell>, places: Vec<Cell>, lit: Buckets) -> Sparse
        requires { IsSparse (record { cells = cells.items; places = places.items; lit = lit }) }
        ensures { result ≡ record { cells = cells.items; places = places.items; lit = lit } }
    {
        Sparse { cells, places, lit }
    }

    /// The cells, ascending.
    pub fn cells(&self) -> &[Cell]
        ensures cells { result.now ≡ self.now.cells }
        ensures kept { IsSparse self.now }
    {
        &self.cells
    }

    /// The places, ascending.
    pub fn places(&self) -> &[Cell]
        ensures places { result.now ≡ self.now.places }
        ensures kept { IsSparse self.now }
    {
        &self.places
    }

    /// The indices of the cells that the place with this index lights.
    pub fn lit_by(&self, index: usize) -> &[u32]
        requires inside { index < length self.now.places }
        ensures { result.now ≡ bucket self.now.lit index }
    {
        self.lit.at(index)
    }
}
