//! A part of an instance as a region of its own.
ghost use Rattle.std.specs.Prelude.{◌≡◌, ◌<◌, length, map, slice_index, All, IfOk};
ghost use Rattle.instance_regions.specs.Restricting.{IsSelfContained, IsRestriction};

use crate::copying::copy_rows;
use crate::region::Region;
use cave_base::Cell;
use cave_model::OutOfMemory;
use set_cover::{Instance, Sparse, number};
use std::alloc::Global;

/// The items with these indices.
fn chosen(alloc: Global, items: &[Cell], indices: &[u32]) -> Result<Vec<Cell>, OutOfMemory>
    requires inside { All (λ index. index < length items.now) indices.now }
    ensures { IfOk result (λ v. v.items ≡ map (slice_index items.now) indices.now) }
{
    let mut these = Vec::with_capacity(alloc, indices.len())?;
    for index in indices {
        these.push(items[*index as usize])?;
    }
    Ok(these)
}

/// The part with these cells and places, by their indices, as a region. `ranks` is memory for a number a cell.
pub fn restrict(
    alloc: Global,
    sparse: &Sparse,
    ranks: &mut [u32],
    own: &[u32],
    placed: &[u32],
) -> Result<Region, OutOfMemory>
    requires closed { IsSelfContained sparse.now own.now placed.now }
    requires ranks { length ranks.old ≡ length sparse.now.cells }
    ensures { IfOk result (λ r. IsRestriction sparse.now own.now placed.now r) }
{
    let cells = sparse.cells();
    number(ranks, own);
    let rows = copy_rows(alloc, sparse, ranks, own, placed)?;
    let own_cells = chosen(alloc, cells, own)?;
    let own_places = chosen(alloc, sparse.places(), placed)?;
    let width = own.len().div_ceil(64);
    let region = Region::new(alloc, Instance::new(own_cells, own_places, width, rows))?;
    Ok(region)
}
