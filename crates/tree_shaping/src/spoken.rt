//! What a finished tree speaks of, by the indices of cells and places in the region.

use instance_reduction::InRegion;
use instance_regions::Region;
use number_lists::{is_set, join_into, set_bit};
use proof_rules::Group;
use std::alloc::{AllocError, Global};

/// What a tree speaks of, how long it is, and whether one of its leaves is weighted.
#[derive(Drop)]
pub(crate) struct Spoken {
    /// A row of the cells that it lists, branches on or leaves out.
    cells: Vec<u64>,
    /// A row of the places that others are left out for: they mustn't be barred above it.
    bys: Vec<u64>,
    /// How many cells it lists.
    size: u64,
    has_weights: bool,
}

impl Spoken {
    /// Nothing.
    pub(crate) fn none(alloc: Global, region: &Region) -> Result<Spoken, AllocError> {
        Ok(Spoken {
            cells: vec![in alloc; 0u64; region.width()]?,
            bys: vec![in alloc; 0u64; region.places().len() / 64 + 1]?,
            size: 0,
            has_weights: false,
        })
    }

    pub(crate) fn size(&self) -> u64 {
        self.size
    }

    pub(crate) fn has_weights(&self) -> bool {
        self.has_weights
    }

    /// Whether the place mustn't be barred above the tree.
    pub(crate) fn has_by(&self, place: InRegion) -> bool {
        is_set(&self.bys, place.index())
    }

    /// Adds the cells to a row.
    pub(crate) fn write_cells(&self, row: &mut [u64]) {
        join_into(row, 0, &self.cells);
    }

    pub(crate) fn add_cells(&mut self, cells: &[u32]) {
        for cell in cells {
            self.add_cell(InRegion::of(*cell));
        }
    }

    pub(crate) fn add_groups(&mut self, groups: &[Group]) {
        for group in groups {
            for share in group.shares.as_slice() {
                self.add_cell(InRegion::of(share.cell));
            }
        }
        self.has_weights = true;
    }

    pub(crate) fn add_cell(&mut self, cell: InRegion) {
        set_bit(self.cells.as_mut_slice(), cell.index());
        self.size = self.size.saturating_add(1);
    }

    /// Adds a place that another is left out for.
    pub(crate) fn add_by(&mut self, by: InRegion) {
        set_bit(self.bys.as_mut_slice(), by.index());
    }

    /// Adds what another tree speaks of.
    pub(crate) fn join(&mut self, other: &Spoken) {
        join_into(self.cells.as_mut_slice(), 0, &other.cells);
        join_into(self.bys.as_mut_slice(), 0, &other.bys);
        self.size = self.size.saturating_add(other.size);
        self.has_weights = self.has_weights || other.has_weights;
    }
}
