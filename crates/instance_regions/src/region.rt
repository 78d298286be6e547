//! Regions: `IsRegion` of specs/Region.antt, with the columns of specs/Columns.antt.
ghost use Rattle.std.specs.Prelude.{◌≡◌, ◌<◌, ◌^◌, ◌↔◌, Contains, IsTrue, length, IfOk};
ghost use Rattle.instance_regions.specs.Columns.{IsColumn};
ghost use Rattle.instance_regions.specs.Region.{IsRegion};
ghost use Rattle.set_cover.specs.Instance.{IsRowAt, LightsIn, row_of};

use crate::columns::columns_of;
use cave_base::Cell;
use set_cover::{BitRow, Instance};
use std::alloc::{AllocError, Global};
use std::marker::Model;

/// A part of a set cover instance that may be planned by itself: some cells, the places that light one of them, for
/// each place the row of the cells that it lights, and for each cell the column of the places that light it. Regions
/// are shared by `Arc`.
#[derive(Debug, Drop)]
pub struct Region {
    instance: Instance,
    columns: Vec<BitRow>,
}

impl Model for Region {
    ghost use Rattle.std.specs.Prelude.{◌<◌, ◌^◌, length};
    ghost use Rattle.set_cover.specs.Instance.{Instance, instance_coded};
    ghost use Rattle.instance_regions.specs.Columns.{AreColumns, height_of};
    ghost use Rattle.instance_regions.specs.Region.{IsRegion};

    ghost Value = { Instance };

    ghost coded = { instance_coded };

    ghost view = { λ r. r.instance };

    ghost invariant = { λ r. IsRegion r.instance
        × AreColumns r.instance (length r.instance.places) r.columns.items × (height_of r.instance < 2 ^ 32) };
}

impl Region {
    /// The instance as a region, with its columns.
    pub fn new(alloc: Global, instance: Instance) -> Result<Region, AllocError>
        requires { IsRegion instance }
        ensures { IfOk result (λ region. region ≡ instance) }
    {
        let columns = columns_of(alloc, &instance)?;
        Ok(Region { instance, columns })
    }

    /// The set cover instance that the region is.
    pub fn instance(&self) -> &Instance
        ensures same { result.now ≡ self.now }
        ensures kept { IsRegion self.now }
    {
        &self.instance
    }

    /// The cells, ascending.
    pub fn cells(&self) -> &[Cell]
        ensures cells { result.now ≡ self.now.cells }
        ensures kept { IsRegion self.now }
    {
        self.instance.cells()
    }

    /// The places, ascending.
    pub fn places(&self) -> &[Cell]
        ensures places { result.now ≡ self.now.places }
        ensures kept { IsRegion self.now }
    {
        self.instance.places()
    }

    /// How many words a row has.
    pub fn width(&self) -> usize
        ensures width { result ≡ self.now.width }
        ensures kept { IsRegion self.now }
    {
        self.instance.width()
    }

    /// The row of the place with this index: bit `i % 64` of word `i / 64` is set exactly where it lights the cell with
    /// the index i.
    pub fn row_at(&self, index: usize) -> &BitRow
        requires inside { index < length self.now.places }
        ensures row { result.now ≡ row_of self.now index }
        ensures whole { length result.now ≡ self.now.width }
    {
        self.instance.row_at(index)
    }

    /// The column of the cell with this index: bit `i % 64` of word `i / 64` is set exactly where the place with the
    /// index i lights it.
    pub fn column(&self, cell: usize) -> &BitRow
        requires inside { cell < length self.now.cells }
        ensures column { IsColumn self.now cell result.now }
        ensures short { length result.now < 2 ^ 32 }
    {
        &self.columns[cell]
    }

    /// The row of a place.
    pub fn row(&self, place: Cell) -> &BitRow
        requires place { Contains self.now.places place }
        ensures { IsRowAt self.now place result.now }
    {
        self.instance.row(place)
    }

    /// Whether both regions have the same cells, places and rows.
    pub fn is_same(&self, other: &Region) -> bool
        ensures { IsTrue result ↔ (self.now ≡ other.now) }
    {
        self.instance.is_same(&other.instance)
    }

    /// Whether the place lights the cell; false for numbers that are no place or no cell of the region.
    pub fn lights(&self, place: Cell, cell: Cell) -> bool
        ensures { IsTrue result ↔ LightsIn self.now place cell }
    {
        self.instance.lights(place, cell)
    }
}
