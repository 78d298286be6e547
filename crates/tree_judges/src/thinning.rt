//! A region with some of its places alone.
ghost use Rattle.std.specs.List.Sorted.{IsStrictlyIncreasing};
ghost use Rattle.std.specs.Prelude.{◌≡◌, ◌↔◌, IsTrue, IfOk, MatchOption, map, slice_index};
ghost use Rattle.instance_regions.specs.Region.{IsRegion};
ghost use Rattle.pack_bound.specs.Indices.{IsCoverAt};
ghost use Rattle.set_cover.specs.Instance.{row_of};
ghost use Rattle.tree_judges.specs.Thinning.{MayBeKept, thinned};

use cave_base::Cell;
use instance_regions::Region;
use pack_bound::is_cover;
use set_cover::{BitRow, Instance};
use std::alloc::{AllocError, Global};

/// The region with the places of these indices alone. None where they don't ascend, or some cell is lit by none of
/// them.
pub fn thin(alloc: Global, region: &Region, kept: &[u32]) -> Result<Option<Region>, AllocError>
    ensures { IfOk result (λ found. MatchOption found (¬ MayBeKept region.now kept.now)
        (λ less. less ≡ thinned region.now kept.now)) }
{
    if !ascend(kept) {
        return Ok(None);
    }
    if !is_cover(alloc, region, kept)? {
        return Ok(None);
    }
    let less = with_places(alloc, region, kept)?;
    Ok(Some(less))
}

/// Whether the numbers ascend.
fn ascend(indices: &[u32]) -> bool
    ensures { IsTrue result ↔ IsStrictlyIncreasing indices.now }
{
    for i in 1..indices.len() {
        if indices[i - 1] >= indices[i] {
            return false;
        }
    }
    true
}

/// The region with these places alone.
fn with_places(alloc: Global, region: &Region, kept: &[u32]) -> Result<Region, AllocError>
    requires ascending { IsStrictlyIncreasing kept.now }
    requires cover { IsCoverAt region.now kept.now }
    ensures { IfOk result (λ less. less ≡ thinned region.now kept.now) }
{
    let cells = Vec::from_slice(alloc, region.cells())?;
    let places = places_at(alloc, region, kept)?;
    let rows = rows_at(alloc, region, kept)?;
    let less = Region::new(alloc, Instance::new(cells, places, region.width(), rows))?;
    Ok(less)
}

/// The numbers of these places.
fn places_at(alloc: Global, region: &Region, kept: &[u32]) -> Result<Vec<Cell>, AllocError>
    requires { IsCoverAt region.now kept.now }
    ensures numbers { IfOk result (λ places. places.items ≡ map (slice_index region.now.places) kept.now) }
    ensures kept { IfOk result (λ _. IsRegion region.now) }
{
    let all = region.places();
    let mut places = Vec::with_capacity(alloc, kept.len())?;
    for index in kept {
        places.push(all[*index as usize])?;
    }
    Ok(places)
}

/// The rows of these places.
fn rows_at(alloc: Global, region: &Region, kept: &[u32]) -> Result<Vec<BitRow>, AllocError>
    requires { IsCoverAt region.now kept.now }
    ensures { IfOk result (λ rows. rows.items ≡ map (row_of region.now) kept.now) }
{
    let mut rows = Vec::with_capacity(alloc, kept.len())?;
    for index in kept {
        rows.push(region.row_at(*index as usize).try_clone()?)?;
    }
    Ok(rows)
}
