//! Joining cells that some place lights together, as trees of cells whose root is the least of them (union-find).
ghost use Rattle.std.specs.List.Sorted.{IsStrictlyIncreasing};
ghost use Rattle.std.specs.Prelude.{◌≡◌, ◌<◌, ◌≤◌, ◌^◌, length, IfOk};
ghost use Rattle.instance_regions.specs.Joining.{AreAlone, AreLabels, AreParents, AreRoots, Finds, IsForest, Joins};
ghost use Rattle.instance_regions.specs.Joining.{JoinsRow};

use cave_base::Cell;
use cave_model::OutOfMemory;
use set_cover::Sparse;
use std::alloc::Global;

/// The root of the cell's tree. Each second cell on the way gets a shorter way.
fn find(parents: &mut [u32], cell: usize) -> usize
    requires inside { cell < length parents.old }
    requires forest { IsForest parents.old }
    ensures { Finds parents.old cell result parents.new }
{
    let mut at = cell;
    while parents[at] as usize != at {
        let next = parents[parents[at] as usize];
        parents[at] = next;
        at = next as usize;
    }
    at
}

/// Joins the trees of two cells.
fn join(parents: &mut [u32], one: usize, two: usize)
    requires one { one < length parents.old }
    requires two { two < length parents.old }
    requires forest { IsForest parents.old }
    ensures { Joins parents.old one two parents.new }
{
    // Most cells of a place are joined already.
    if parents[one] == parents[two] {
        return;
    }
    let first = find(parents, one);
    let second = find(parents, two);
    let low = usize::min(first, second);
    let high = usize::max(first, second);
    parents[high] = low as u32;
}

/// Joins the trees of all cells that the place with this index lights.
fn join_row(parents: &mut [u32], sparse: &Sparse, place: usize)
    requires inside { place < length sparse.now.places }
    requires parents { AreParents sparse.now parents.old }
    ensures { JoinsRow sparse.now place parents.old parents.new }
{
    let lit = sparse.lit_by(place);
    for cell in lit {
        join(parents, lit[0] as usize, *cell as usize);
    }
}

/// How many ascending cells these are: no more than there are numbers of 32 bits.
pub fn count_of(cells: &[Cell]) -> usize
    requires ascending { IsStrictlyIncreasing cells.now }
    ensures count { result ≡ length cells.now }
    ensures few { result ≤ 2 ^ 32 }
{
    cells.len()
}

/// A forest of `count` cells, each by itself.
pub fn alone(alloc: Global, count: usize) -> Result<Vec<u32>, OutOfMemory>
    requires { count ≤ 2 ^ 32 }
    ensures { IfOk result (λ v. AreAlone count v.items) }
{
    let mut parents = Vec::with_capacity(alloc, count)?;
    for cell in 0..count {
        parents.push(cell as u32)?;
    }
    Ok(parents)
}

/// The roots of all cells.
fn roots(alloc: Global, parents: &mut [u32]) -> Result<Vec<u32>, OutOfMemory>
    requires small { length parents.old ≤ 2 ^ 32 }
    requires forest { IsForest parents.old }
    ensures { IfOk result (λ v. AreRoots parents.old v.items) }
{
    let mut labels = Vec::with_capacity(alloc, parents.len())?;
    for cell in 0..parents.len() {
        labels.push(find(parents, cell) as u32)?;
    }
    Ok(labels)
}

/// For each cell, by its index, the least cell that it is joined with.
pub fn labels_of(alloc: Global, sparse: &Sparse) -> Result<Vec<u32>, OutOfMemory>
    ensures labels { IfOk result (λ v. AreLabels sparse.now v.items) }
    ensures few { IfOk result (λ v. length v.items ≤ 2 ^ 32) }
{
    let mut parents = alone(alloc, count_of(sparse.cells()))?;
    let parents = parents.as_mut_slice();
    for place in 0..sparse.places().len() {
        join_row(parents, sparse, place);
    }
    roots(alloc, parents)
}
