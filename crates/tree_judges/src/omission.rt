//! Cells that are left out. What closes a node with all of its cells, and speaks of none of those that are left out,
//! closes it without them.
ghost use Rattle.std.specs.Prelude.{◌≡◌, ◌↔◌, ◌*◌, ◌<◌, [], ℕ, Contains, IsTrue, IfOk, length};
ghost use Rattle.pack_bound.specs.Indices.{cell_indices};
ghost use Rattle.pack_bound.specs.Nodes.{IsStateOf};
ghost use Rattle.proof_rules.specs.Omitted.{MayBeOmitted};
ghost use Rattle.proof_tree.specs.Shape.{tree_of, forest_of};
ghost use Rattle.set_cover.specs.Bits.{Has, IsRowOf, IsWithout};
ghost use Rattle.tree_judges.specs.Omission.{CellsAvoid, SharesAvoid, GroupsAvoid, Avoids, AllAvoid, MayBeBarredOver};

use instance_regions::Region;
use pack_bound::{Node, may_give_way};
use proof_rules::{Group, Share};
use proof_tree::Proof;
use set_cover::{add_each, clear_words, empty, has, is_within};
use std::alloc::{AllocError, Global};

/// Whether the cells may be left out: some of the region's, ascending.
pub(crate) fn may_be_omitted(region: &Region, cells: &[u32]) -> bool
    ensures { IsTrue result ↔ MayBeOmitted (cell_indices region.now) cells.now }
{
    if cells.len() == 0 {
        return false;
    }
    let count = region.cells().len();
    for index in 0..cells.len() {
        if cells[index] as usize >= count {
            return false;
        }
        if index > 0 && cells[index - 1] >= cells[index] {
            return false;
        }
    }
    true
}

/// A row of the cells that are left out.
pub(crate) fn omitted_row(
    alloc: Global,
    region: &Region,
    cells: &[u32],
) -> Result<Vec<u64>, AllocError>
    requires { MayBeOmitted (cell_indices region.now) cells.now }
    ensures row { IfOk result (λ row. IsRowOf cells.now row.items) }
    ensures whole { IfOk result (λ row. length row.items ≡ region.now.width) }
{
    let mut row = empty(alloc, region.width())?;
    add_each(cells, row.as_mut_slice());
    Ok(row)
}

/// A row of the cells that no chosen place lights and that aren't left out.
pub(crate) fn unlit_without(
    alloc: Global,
    node: &Node,
    omitted: &[u64],
) -> Result<Vec<u64>, AllocError>
    requires { length omitted.now ≡ length node.now.unlit }
    ensures { IfOk result (λ left. IsWithout node.now.unlit omitted.now left.items) }
{
    let mut left = Vec::from_slice(alloc, node.unlit())?;
    clear_words(&mut left, omitted);
    Ok(left)
}

/// Whether a place may be left out, where the cells of a row are left: another lights all of them that it lights.
pub(crate) fn is_bar_over(region: &Region, node: &Node, left: &[u64], place: u32, by: u32) -> bool
    requires state { IsStateOf region.now node.now }
    requires left { length left.now ≡ region.now.width }
    ensures { IsTrue result ↔ MayBeBarredOver region.now node.now left.now place by }
{
    may_give_way(region, node, place, by)
        && is_within(
            region.row_at(place as usize),
            left,
            region.row_at(by as usize),
        )
}

/// Whether the tree speaks of no cell of a row.
#[cycle(avoiding)]
pub(crate) fn avoids(tree: &Proof, omitted: &[u64]) -> bool
    ensures { IsTrue result ↔ Avoids omitted.now (tree_of tree.now) }
{
    match tree {
        Proof::Leaf(cells) => cells_avoid(cells.as_slice(), omitted),
        Proof::Weighted(groups) => groups_avoid(groups.as_slice(), omitted),
        Proof::Branch { cell, kids } => {
            if !is_other(*cell, omitted) {
                return false;
            }
            all_avoid(kids.trees(), omitted)
        }
        Proof::Bar { kid, .. } => avoids(kid.tree(), omitted),
        Proof::Omit { cells, kid } => {
            if !cells_avoid(cells.as_slice(), omitted) {
                return false;
            }
            avoids(kid.tree(), omitted)
        }
        Proof::Pick { with, without, .. } => {
            if !avoids(with.tree(), omitted) {
                return false;
            }
            avoids(without.tree(), omitted)
        }
    }
}

/// Whether each of the trees speaks of no cell of a row.
#[cycle(avoiding)]
fn all_avoid(trees: &[Proof], omitted: &[u64]) -> bool
    ensures { IsTrue result ↔ AllAvoid omitted.now (forest_of trees.now) }
{
    for index in 0..trees.len() {
        if !avoids(&trees[index], omitted) {
            return false;
        }
    }
    true
}

/// Whether none of the cells is in a row.
fn cells_avoid(cells: &[u32], omitted: &[u64]) -> bool
    ensures { IsTrue result ↔ CellsAvoid omitted.now cells.now }
{
    for index in 0..cells.len() {
        if !is_other(cells[index], omitted) {
            return false;
        }
    }
    true
}

/// Whether no group has a cell in a row.
fn groups_avoid(groups: &[Group], omitted: &[u64]) -> bool
    ensures { IsTrue result ↔ GroupsAvoid omitted.now groups.now }
{
    for index in 0..groups.len() {
        if !shares_avoid(groups[index].shares.as_slice(), omitted) {
            return false;
        }
    }
    true
}

/// Whether no share is of a cell in a row.
fn shares_avoid(shares: &[Share], omitted: &[u64]) -> bool
    ensures { IsTrue result ↔ SharesAvoid omitted.now shares.now }
{
    for index in 0..shares.len() {
        if !is_other(shares[index].cell, omitted) {
            return false;
        }
    }
    true
}

/// Whether the cell isn't in a row.
fn is_other(cell: u32, omitted: &[u64]) -> bool
    ensures { IsTrue result ↔ (¬ Has omitted.now cell) }
{
    let cell = cell as usize;
    if cell / 64 >= omitted.len() {
        return true;
    }
    !has(omitted, cell)
}
