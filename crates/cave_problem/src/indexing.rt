//! Indices of cells in the list of dark cells.
ghost use Rattle.std.specs.List.Sorted.{IsStrictlyIncreasing};
ghost use Rattle.std.specs.Prelude.{◌<◌, All, IfOk};
ghost use Rattle.cave_problem.specs.Filling.{AreIndices};

use cave_base::Cell;
use cave_model::OutOfMemory;
use set_cover::number;
use std::alloc::Global;

/// What stands for a cell that isn't listed.
const NONE: u32 = u32::MAX;

/// For each of `count` cells its index in the list.
pub fn indices_of(alloc: Global, count: u32, cells: &[Cell]) -> Result<Vec<u32>, OutOfMemory>
    requires inside { All (λ cell. cell < count) cells.now }
    requires ascending { IsStrictlyIncreasing cells.now }
    ensures { IfOk result (λ v. AreIndices count cells.now v.items) }
{
    let mut indices = vec![in alloc; NONE; count as usize]?;
    number(indices.as_mut_slice(), cells);
    Ok(indices)
}
