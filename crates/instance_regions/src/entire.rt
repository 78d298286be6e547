//! A whole instance as one region.
ghost use Rattle.std.specs.Prelude.{◌≡◌, ◌<◌, ◌≤◌, ◌^◌, length, IfOk};
ghost use Rattle.cave_model.specs.Listing.{ListsAll};
ghost use Rattle.instance_regions.specs.Restricting.{IsLighting};
ghost use Rattle.instance_regions.specs.Splitting.{IsPartOf, IsWholeRegion};
ghost use Rattle.set_cover.specs.Sparse.{IsSparse};

use crate::joining::{alone, count_of};
use crate::region::Region;
use crate::restricting::restrict;
use cave_model::OutOfMemory;
use set_cover::Sparse;
use std::alloc::Global;

/// The one region of all cells of an instance, and None where it has no cell.
pub fn entire_of(alloc: Global, sparse: &Sparse) -> Result<Option<Region>, OutOfMemory>
    requires kept { IsSparse sparse.now }
    ensures { IfOk result (λ found. IsWholeRegion sparse.now found) }
{
    if sparse.cells().is_empty() {
        return Ok(None);
    }
    let region = all_of(alloc, sparse)?;
    Ok(Some(region))
}

/// All cells of an instance as a region.
fn all_of(alloc: Global, sparse: &Sparse) -> Result<Region, OutOfMemory>
    requires kept { IsSparse sparse.now }
    requires filled { 0 < length sparse.now.cells }
    ensures cells { IfOk result (λ region. region.cells ≡ sparse.now.cells) }
    ensures part { IfOk result (λ region. IsPartOf sparse.now region) }
{
    let count = count_of(sparse.cells());
    let own = alone(alloc, count)?;
    let placed = lighting(alloc, sparse)?;
    let mut ranks = vec![in alloc; 0u32; count]?;
    let region = restrict(alloc, sparse, ranks.as_mut_slice(), &own, &placed)?;
    Ok(region)
}

/// The places that light some cell, by their indices.
fn lighting(alloc: Global, sparse: &Sparse) -> Result<Vec<u32>, OutOfMemory>
    requires kept { IsSparse sparse.now }
    requires few { length sparse.now.cells ≤ 2 ^ 32 }
    ensures { IfOk result (λ v. ListsAll (IsLighting sparse.now) v.items) }
{
    let mut placed = Vec::new(alloc);
    for place in 0..count_of(sparse.places()) {
        if !sparse.lit_by(place).is_empty() {
            placed.push(place as u32)?;
        }
    }
    Ok(placed)
}
