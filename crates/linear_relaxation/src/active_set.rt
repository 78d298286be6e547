//! The active set of a run of steps: the places and cells that may move in it. A place may that is taken in part, that
//! lights nearly enough weight to be taken, or that lights a cell which lacks light. A cell may that weighs something,
//! or that is lit hardly more than once. All others are 0 and stay so. Most of them are, and a run of the
//! few costs a fraction. Source: sifting (Bixby, Gregory, Lustig, Marsten and Shanno, "Very large-scale linear
//! programming: a case study in combining interior point and simplex methods").

use crate::fixed_point::ONE;
use crate::indices::mark;
use number_lists::small;
use std::alloc::{AllocError, Global};

/// A place that lights less weight than one by this much isn't taken soon, nor does a cell weigh anything soon that is
/// lit more than once by this much.
pub(crate) const MARGIN: i64 = ONE / 20;

/// A cell that is lit less than once by this much lacks light.
pub(crate) const LACK: i64 = ONE / 10;

/// Places and cells of an instance, by its numbers.
#[derive(Drop)]
pub(crate) struct ActiveSet {
    places: Vec<bool>,
    cells: Vec<bool>,
}

impl ActiveSet {
    /// None of `places` places and `cells` cells.
    pub(crate) fn none(
        alloc: Global,
        places: usize,
        cells: usize,
    ) -> Result<ActiveSet, AllocError> {
        Ok(ActiveSet {
            places: vec![in alloc; false; places]?,
            cells: vec![in alloc; false; cells]?,
        })
    }

    /// Adds a place.
    pub(crate) fn add_place(&mut self, place: usize) {
        mark(self.places.as_mut_slice(), place);
    }

    /// Adds the places that light a cell.
    pub(crate) fn add_places(&mut self, places: &[u32]) {
        for place in places {
            mark(self.places.as_mut_slice(), *place as usize);
        }
    }

    /// Adds a cell.
    pub(crate) fn add_cell(&mut self, cell: usize) {
        mark(self.cells.as_mut_slice(), cell);
    }

    /// The places, ascending.
    pub(crate) fn places(&self, alloc: Global) -> Result<Vec<u32>, AllocError> {
        marked(alloc, self.places.as_slice())
    }

    /// The cells, ascending.
    pub(crate) fn cells(&self, alloc: Global) -> Result<Vec<u32>, AllocError> {
        marked(alloc, self.cells.as_slice())
    }
}

/// The indices that are marked, ascending.
fn marked(alloc: Global, marks: &[bool]) -> Result<Vec<u32>, AllocError> {
    let mut found = Vec::new(alloc);
    for (index, is_marked) in marks.iter().enumerate() {
        if *is_marked {
            found.push(small(index))?;
        }
    }
    Ok(found)
}
