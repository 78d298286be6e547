//! The regions of a problem, as the definitions of instance regions have them.
ghost use Rattle.std.specs.Prelude.{IfOk};
ghost use Rattle.instance_regions.specs.Splitting.{AreRegionsOf, IsWholeRegion};

use cave_model::OutOfMemory;
use cave_problem::Problem;
use instance_regions::{Region, entire_of, parts_of};
use std::alloc::Global;

/// The regions of a problem, by their least cells: no place lights cells of two of them, and any two cells of one are
/// joined by a row of its cells in which one place lights each and the next.
pub fn split(alloc: Global, problem: &Problem) -> Result<Vec<Region>, OutOfMemory>
    ensures { IfOk result (λ v. AreRegionsOf problem.now v.items) }
{
    parts_of(alloc, problem.sparse())
}

/// The one region of all cells of a problem, and None where it has no cell.
pub fn whole(alloc: Global, problem: &Problem) -> Result<Option<Region>, OutOfMemory>
    ensures { IfOk result (λ found. IsWholeRegion problem.now found) }
{
    entire_of(alloc, problem.sparse())
}
