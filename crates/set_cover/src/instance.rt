//! Set cover instances: `IsInstance` of specs/Instance.antt.
ghost use Rattle.std.specs.Prelude.{◌≡◌, ◌<◌, ◌↔◌, Contains, IsTrue, length};
ghost use Rattle.set_cover.specs.Instance.{IsInstance, IsRowAt, LightsIn, row_of};
ghost use Rattle.set_cover.specs.Rows.{AreRows, words_of};

use crate::bit_row::BitRow;
use crate::search::find;
use cave_base::Cell;
use std::marker::Model;

/// Cells, places, and which place lights which cell. Cells and places stand ascending, and each cell has a place that
/// lights it. Each place has a row: bit `i % 64` of its word `i / 64` is set exactly where the place lights the cell
/// with the index i (this project's own).
#[derive(Debug, Drop)]
pub struct Instance {
    cells: Vec<Cell>,
    places: Vec<Cell>,
    width: usize,
    rows: Vec<BitRow>,
}

impl Model for Instance {
    ghost use Rattle.std.specs.Prelude.{length};
    ghost use Rattle.set_cover.specs.Instance.{Instance, instance_coded, IsInstance};
    ghost use Rattle.set_cover.specs.Rows.{AreRows, words_of};

    ghost Value = { Instance };

    ghost coded = { instance_coded };

    ghost view = { λ i. record {
      cells = i.cells.items;
      places = i.places.items;
      width = i.width;
      words = words_of i.rows.items;
    } };

    ghost invariant = { λ i. IsInstance (record {
      cells = i.cells.items;
      places = i.places.items;
      width = i.width;
      words = words_of i.rows.items;
    }) × AreRows (length i.places.items) i.width i.rows.items };
}

impl Instance {
    /// The instance with these rows of `width` words, one for each place.
    pub fn new(cells: Vec<Cell>, places: Vec<Cell>, width: usize, rows: Vec<BitRow>) -> Instance
        requires rows { AreRows (length places.items) width rows.items }
        requires kept { IsInstance (record {
          cells = cells.items;
          places = places.items;
          width = width;
          words = words_of rows.items;
        }) }
        ensures { result ≡ record {
          cells = cells.items;
          places = places.items;
          width = width;
          words = words_of rows.items;
        } }
    {
        Instance {
            cells,
            places,
            width,
            rows,
        }
    }

    /// The cells, ascending.
    pub fn cells(&self) -> &[Cell]
        ensures cells { result.now ≡ self.now.cells }
        ensures kept { IsInstance self.now }
    {
        &self.cells
    }

    /// The places, ascending.
    pub fn places(&self) -> &[Cell]
        ensures places { result.now ≡ self.now.places }
        ensures kept { IsInstance self.now }
    {
        &self.places
    }

    /// How many words a row has.
    pub fn width(&self) -> usize
        ensures width { result ≡ self.now.width }
        ensures kept { IsInstance self.now }
    {
        self.width
    }

    /// The row of the place with this index.
    pub fn row_at(&self, index: usize) -> &BitRow
        requires inside { index < length self.now.places }
        ensures row { result.now ≡ row_of self.now index }
        ensures whole { length result.now ≡ self.now.width }
    {
        &self.rows[index]
    }

    /// The row of a place.
    pub fn row(&self, place: Cell) -> &BitRow
        requires place { Contains self.now.places place }
        ensures row { IsRowAt self.now place result.now }
        ensures whole { length result.now ≡ self.now.width }
    {
        match find(self.places(), place) {
            Some(index) => self.row_at(index),
            None => unreachable!(),
        }
    }

    /// Whether both have the same cells, places and rows.
    pub fn is_same(&self, other: &Instance) -> bool
        ensures { IsTrue result ↔ (self.now ≡ other.now) }
    {
        if self.width != other.width {
            return false;
        }
        if self.cells.as_slice() != other.cells.as_slice() {
            return false;
        }
        if self.places.as_slice() != other.places.as_slice() {
            return false;
        }
        self.has_rows_of(other)
    }

    /// Whether both have the same rows.
    fn has_rows_of(&self, other: &Instance) -> bool
        requires places { self.now.places ≡ other.now.places }
        requires width { self.now.width ≡ other.now.width }
        ensures { IsTrue result ↔ (self.now.words ≡ other.now.words) }
    {
        are_same(&self.rows, &other.rows)
    }

    /// Whether the place lights the cell; false for numbers that are no place or no cell of the instance.
    pub fn lights(&self, place: Cell, cell: Cell) -> bool
        ensures { IsTrue result ↔ LightsIn self.now place cell }
    {
        match find(self.places(), place) {
            Some(row) => match find(self.cells(), cell) {
                Some(bit) => self.row_at(row).has(bit),
                None => false,
            },
            None => false,
        }
    }
}

/// Whether both lists have the same rows.
fn are_same(rows: &[BitRow], others: &[BitRow]) -> bool
    ensures { IsTrue result ↔ (rows.now ≡ others.now) }
{
    if rows.len() != others.len() {
        return false;
    }
    for index in 0..rows.len() {
        if !rows[index].is_same(&others[index]) {
            return false;
        }
    }
    true
}
