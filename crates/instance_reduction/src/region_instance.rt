//! A region beside its reduced instance: what its places light, of the cells that are asked for.
ghost use Rattle.std.specs.Prelude.{◌<◌, length};

use crate::numberings::InRegion;
use crate::reduced_instance::ReducedInstance;
use instance_regions::Region;
use number_lists::{ThinRow, is_set, set_bit};
use std::alloc::{AllocError, Global};

/// A region, and its reduced instance at the node where the search began. Rows and lists of cells and places are by
/// their indices in the region.
#[derive(Clone, Copy)]
pub struct RegionInstance<'a> {
    pub region: &'a Region,
    pub instance: &'a ReducedInstance,
}

impl<'a> RegionInstance<'a> {
    /// Whether the other place lights all cells of the row that this one lights.
    pub fn is_within(&self, place: InRegion, other: InRegion, cells: &[u64]) -> bool {
        let other = other.index();
        other < self.region.places().len()
            && thin_row(self.region, other).has_each(cells, self.instance.spread(place))
    }

    /// Marks the cells of the row that this place lights and the other one doesn't.
    pub fn mark_beyond(&self, place: InRegion, other: InRegion, cells: &[u64], marks: &mut [u64]) {
        let other = other.index();
        if other < self.region.places().len() {
            let row = thin_row(self.region, other);
            for cell in self.instance.spread(place) {
                let cell = *cell as usize;
                if is_set(cells, cell) && !row.has(cell) {
                    set_bit(marks, cell);
                }
            }
        }
    }

    /// Whether a place of the region lights the cell.
    pub fn lights(&self, place: InRegion, cell: InRegion) -> bool {
        let place = place.index();
        place < self.region.places().len() && thin_row(self.region, place).has(cell.index())
    }

    /// The places that light a cell and aren't in the row of those that are barred, ascending.
    pub fn open_at(
        &self,
        alloc: Global,
        cell: InRegion,
        barred: &[u64],
    ) -> Result<Vec<u32>, AllocError> {
        let mut open = Vec::new(alloc);
        for place in self.instance.sources(cell) {
            if !is_set(barred, *place as usize) {
                open.push(*place)?;
            }
        }
        Ok(open)
    }
}

/// The row of a place of the region.
pub(crate) fn thin_row(region: &Region, place: usize) -> ThinRow<'_>
    requires { place < length region.now.places }
{
    let (from, words) = region.row_at(place).kept();
    ThinRow { from, words }
}
