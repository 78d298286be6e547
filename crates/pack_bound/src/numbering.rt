//! Numbers of cells and places in place of their indices, and back.
ghost use Rattle.std.specs.Prelude.{◌≡◌, All, Contains, IfOk, slice_index, map};
ghost use Rattle.instance_regions.specs.Region.{IsRegion};
ghost use Rattle.pack_bound.specs.Naming.{AreIndicesOf, cell_numbers, place_numbers};

use crate::node::place_index;
use cave_base::Cell;
use instance_regions::Region;
use set_cover::find;
use std::alloc::{AllocError, Global};

/// The numbers of these cells, with no new memory.
pub fn numbers_of_cells(region: &Region, cells: Vec<u32>) -> Vec<Cell>
    ensures numbers { result.items ≡ cell_numbers region.now cells.items }
    ensures kept { IsRegion region.now }
{
    let mut numbers = cells;
    put_numbers(region.cells(), numbers.as_mut_slice());
    numbers
}

/// The numbers of these places, with no new memory.
pub fn numbers_of_places(region: &Region, places: Vec<u32>) -> Vec<Cell>
    ensures { result.items ≡ place_numbers region.now places.items }
{
    let mut numbers = places;
    put_numbers(region.places(), numbers.as_mut_slice());
    numbers
}

/// Writes its number over each index.
fn put_numbers(numbers: &[Cell], indices: &mut [u32])
    ensures { indices.new ≡ map (λ index. slice_index numbers.now index) indices.old }
{
    for cell in indices.iter_mut() {
        *cell = number_at(numbers, *cell);
    }
}

/// The number that stands at an index; 0 where none does.
pub fn number_at(numbers: &[Cell], index: u32) -> Cell
    ensures { result ≡ slice_index numbers.now index }
{
    numbers.get(index as usize).copied().unwrap_or(0)
}

/// The indices of places of the region.
pub(crate) fn indices_of(
    alloc: Global,
    region: &Region,
    places: &[Cell],
) -> Result<Vec<u32>, AllocError>
    requires { All (Contains region.now.places) places.now }
    ensures indices { IfOk result (λ indices. AreIndicesOf region.now places.now indices.items) }
    ensures kept { IfOk result (λ _. IsRegion region.now) }
{
    let all = region.places();
    let mut indices = Vec::with_capacity(alloc, places.len())?;
    for place in places {
        match find(all, *place) {
            Some(index) => indices.push(place_index(region, index))?,
            None => (),
        }
    }
    Ok(indices)
}
