//! Which cells each place lights, and which places light each cell: the same, read the one way and the other.

use crate::lists::NumberLists;
use std::alloc::{AllocError, Global};

/// For each place the cells that it lights, and for each cell the places that light it, ascending.
#[derive(Drop)]
pub struct Coverage {
    lights: NumberLists,
    lit_by: NumberLists,
}

impl Coverage {
    /// The coverage of places that light these cells, out of `cells` cells.
    pub fn of(alloc: Global, lights: NumberLists, cells: usize) -> Result<Coverage, AllocError> {
        let lit_by = lights.turned(alloc, cells)?;
        Ok(Coverage { lights, lit_by })
    }

    /// How many places there are.
    pub fn place_count(&self) -> usize {
        self.lights.count()
    }

    /// How many cells there are.
    pub fn cell_count(&self) -> usize {
        self.lit_by.count()
    }

    /// The cells that a place lights.
    pub fn lights(&self, place: usize) -> &[u32] {
        self.lights.list(place)
    }

    /// The places that light a cell.
    pub fn lit_by(&self, cell: usize) -> &[u32] {
        self.lit_by.list(cell)
    }

    /// For each place the cells that it lights.
    pub fn all_lights(&self) -> &NumberLists {
        &self.lights
    }

    /// For each cell the places that light it.
    pub fn all_lit_by(&self) -> &NumberLists {
        &self.lit_by
    }
}
