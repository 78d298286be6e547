//! Judging a whole tree, as a copied or a pruned one.
ghost use Rattle.std.specs.Prelude.{IfOk};
ghost use Rattle.pack_bound.specs.Judged.{AreKidPlaces};
ghost use Rattle.pack_bound.specs.Nodes.{IsStateOf};
ghost use Rattle.proof_rules.specs.Tree.{pick};
ghost use Rattle.proof_tree.specs.Shape.{tree_of, forest_of};
ghost use Rattle.set_cover.specs.Bits.{Has, IsWithout};
ghost use Rattle.tree_judges.specs.Decided.{Decides, DecidesWithout, DecidesKids};

use crate::omission::{avoids, is_bar_over, may_be_omitted, omitted_row, unlit_without};
use crate::weighted_leaf::is_weighted_leaf;
use instance_regions::Region;
use pack_bound::{Node, is_bar, is_leaf, may_be_picked, open_places};
use proof_tree::Proof;
use set_cover::{add, has};
use std::alloc::{AllocError, Global};

/// Whether the tree closes what is left, at the floor. It may refuse one that does where that leaves a place out deep
/// below an omission, and not right below it. The node is used up.
#[cycle(judging)]
pub fn is_good(
    alloc: Global,
    region: &Region,
    node: &mut Node,
    tree: &Proof,
    floor: u64,
) -> Result<bool, AllocError>
    requires { IsStateOf region.now node.old }
    ensures { IfOk result (Decides region.now node.old floor (tree_of tree.now)) }
{
    match tree {
        Proof::Leaf(cells) => {
            let size = (node.chosen().len() as u64).saturating_add(cells.as_slice().len() as u64);
            if size < floor {
                return Ok(false);
            }
            let fits = is_leaf(alloc, region, node, cells.as_slice())?;
            Ok(fits)
        }
        Proof::Weighted(groups) => {
            let good = is_weighted_leaf(alloc, region, node, groups.as_slice(), floor)?;
            Ok(good)
        }
        Proof::Branch { cell, kids } => {
            if *cell as usize >= region.cells().len() || !has(node.unlit(), *cell as usize) {
                return Ok(false);
            }
            let places = open_places(alloc, region, node, *cell)?;
            let good = are_good(alloc, region, node, *cell, &places, kids.trees(), floor)?;
            Ok(good)
        }
        Proof::Bar { place, by, kid } => {
            if !is_bar(region, node, *place, *by) {
                return Ok(false);
            }
            node.bar(*place);
            let good = is_good(alloc, region, node, kid.tree(), floor)?;
            Ok(good)
        }
        Proof::Omit { cells, kid } => {
            if !may_be_omitted(region, cells.as_slice()) {
                return Ok(false);
            }
            let omitted = omitted_row(alloc, region, cells.as_slice())?;
            let left = unlit_without(alloc, node, &omitted)?;
            let good = is_good_without(alloc, region, node, &omitted, &left, kid.tree(), floor)?;
            Ok(good)
        }
        Proof::Pick {
            place,
            with,
            without,
        } => {
            let good = is_good_pick(
                alloc,
                region,
                node,
                *place,
                with.tree(),
                without.tree(),
                floor,
            )?;
            Ok(good)
        }
    }
}

/// Whether the first tree closes what is left with the place chosen, and the second what is left with it barred, at the
/// floor. The node is used up.
#[cycle(judging)]
fn is_good_pick(
    alloc: Global,
    region: &Region,
    node: &mut Node,
    place: u32,
    with: &Proof,
    without: &Proof,
    floor: u64,
) -> Result<bool, AllocError>
    requires { IsStateOf region.now node.old }
    ensures { IfOk result
        (Decides region.now node.old floor (pick place (tree_of with.now) (tree_of without.now))) }
{
    if !may_be_picked(region, node, place) {
        return Ok(false);
    }
    let mut kid = node.try_clone()?;
    kid.become_kid(region, node, node.barred(), place)?;
    if !is_good(alloc, region, &mut kid, with, floor)? {
        return Ok(false);
    }
    node.bar(place);
    let good = is_good(alloc, region, node, without, floor)?;
    Ok(good)
}

/// Whether the tree closes what is left without the cells of a row, at the floor. The places that it leaves out first
/// are judged without these cells; what stands below them closes all that is left, and speaks of none of these cells.
/// The node is used up.
#[cycle(judging)]
fn is_good_without(
    alloc: Global,
    region: &Region,
    node: &mut Node,
    omitted: &[u64],
    left: &[u64],
    tree: &Proof,
    floor: u64,
) -> Result<bool, AllocError>
    requires state { IsStateOf region.now node.old }
    requires left { IsWithout node.old.unlit omitted.now left.now }
    ensures { IfOk result (DecidesWithout region.now node.old omitted.now floor (tree_of tree.now)) }
{
    match tree {
        Proof::Bar { place, by, kid } => {
            if !is_bar_over(region, node, left, *place, *by) {
                return Ok(false);
            }
            node.bar(*place);
            let good = is_good_without(alloc, region, node, omitted, left, kid.tree(), floor)?;
            Ok(good)
        }
        _ => {
            if !avoids(tree, omitted) {
                return Ok(false);
            }
            let good = is_good(alloc, region, node, tree, floor)?;
            Ok(good)
        }
    }
}

/// Whether the trees close the kids of a branch.
#[cycle(judging)]
fn are_good(
    alloc: Global,
    region: &Region,
    node: &Node,
    cell: u32,
    places: &[u32],
    trees: &[Proof],
    floor: u64,
) -> Result<bool, AllocError>
    requires state { IsStateOf region.now node.now }
    requires cell { Has node.now.unlit cell }
    requires places { AreKidPlaces region.now node.now cell places.now }
    ensures { IfOk result (DecidesKids region.now node.now floor places.now (forest_of trees.now)) }
{
    if places.len() != trees.len() {
        return Ok(false);
    }
    let mut below = node.try_clone()?;
    let mut barred = Vec::from_slice(alloc, node.barred())?;
    let barred = barred.as_mut_slice();
    for index in 0..places.len() {
        below.become_kid(region, node, barred, places[index])?;
        if !is_good(alloc, region, &mut below, &trees[index], floor)? {
            return Ok(false);
        }
        add(barred, places[index] as usize);
    }
    Ok(true)
}
