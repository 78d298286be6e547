//! The regions of an instance.
ghost use Rattle.std.specs.Prelude.{IfOk};
ghost use Rattle.instance_regions.specs.Splitting.{AreRegionsOf};
ghost use Rattle.set_cover.specs.Sparse.{IsSparse};

use crate::grouping::{cells_by, places_by};
use crate::joining::labels_of;
use crate::region::Region;
use crate::restricting::restrict;
use cave_model::OutOfMemory;
use set_cover::Sparse;
use std::alloc::Global;

/// The regions of an instance, by their least cells: no place lights cells of two of them, and any two cells of one are
/// joined by a row of its cells in which one place lights each and the next.
pub fn parts_of(alloc: Global, sparse: &Sparse) -> Result<Vec<Region>, OutOfMemory>
    requires kept { IsSparse sparse.now }
    ensures { IfOk result (λ v. AreRegionsOf sparse.now v.items) }
{
    let labels = labels_of(alloc, sparse)?;
    let cells = cells_by(alloc, &labels)?;
    let places = places_by(alloc, sparse, &labels)?;
    let mut ranks = vec![in alloc; 0u32; labels.len()]?;
    let ranks = ranks.as_mut_slice();
    let mut regions = Vec::new(alloc);
    for label in 0..labels.len() {
        let own = cells.at(label);
        if !own.is_empty() {
            regions.push(restrict(alloc, sparse, ranks, own, places.at(label))?)?;
        }
    }
    Ok(regions)
}
