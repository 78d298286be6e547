//! Numbers of cells and places in place of their indices.
ghost use Rattle.std.specs.Prelude.{◌≡◌, IfOk, map, slice_index};
ghost use Rattle.pack_bound.specs.Naming.{cell_numbers, numbered_group, numbered, all_numbered};
ghost use Rattle.proof_rules.specs.Tree.{leaf, weighted, pick};
ghost use Rattle.proof_tree.specs.Shape.{tree_of, forest_of};

use cave_base::{Cell, Sequence};
use instance_regions::Region;
use pack_bound::{number_at, numbers_of_cells};
use proof_rules::{Group, Share};
use proof_tree::{Bar, Below, Kids, Proof, wrap};
use std::alloc::{AllocError, Global};
use std::mem;

/// The tree with numbers in place of indices. It uses the tree's own memory, but for a box at each node that leaves a
/// place or cells out, and two at each pick.
#[cycle(numbering)]
pub fn with_numbers(alloc: Global, region: &Region, tree: Proof) -> Result<Proof, AllocError>
    ensures { IfOk result (λ proof. tree_of proof ≡ numbered region.now (tree_of tree)) }
{
    let mut bars = Vec::new(alloc);
    let mut rest = tree;
    loop {
        match rest {
            Proof::Leaf(cells) => {
                let whole = wrap(alloc, bars, leaf_with_numbers(region, cells))?;
                return Ok(whole);
            }
            Proof::Weighted(groups) => {
                let whole = wrap(alloc, bars, weighted_with_numbers(alloc, region, groups))?;
                return Ok(whole);
            }
            Proof::Branch { cell, kids } => {
                let cell = number_at(region.cells(), cell);
                let kids = Kids::of(all_with_numbers(alloc, region, kids.into_trees())?);
                let whole = wrap(alloc, bars, Proof::Branch { cell, kids })?;
                return Ok(whole);
            }
            Proof::Bar { place, by, kid } => {
                let place = number_at(region.places(), place);
                let by = number_at(region.places(), by);
                bars.push(Bar { place, by })?;
                rest = kid.into_tree();
            }
            Proof::Omit { cells, kid } => {
                let cells = Sequence::from_vec(numbers_of_cells(region, cells.into_vec()));
                let kid = Below::of(alloc, with_numbers(alloc, region, kid.into_tree())?)?;
                let whole = wrap(alloc, bars, Proof::Omit { cells, kid })?;
                return Ok(whole);
            }
            Proof::Pick {
                place,
                with,
                without,
            } => {
                let pick = pick_with_numbers(alloc, region, place, with, without)?;
                let whole = wrap(alloc, bars, pick)?;
                return Ok(whole);
            }
        }
    }
}

/// The pick with numbers in place of indices.
#[cycle(numbering)]
fn pick_with_numbers(
    alloc: Global,
    region: &Region,
    place: u32,
    with: Below,
    without: Below,
) -> Result<Proof, AllocError>
    ensures { IfOk result (λ proof. tree_of proof ≡ numbered region.now (pick place with without)) }
{
    Ok(Proof::Pick {
        place: number_at(region.places(), place),
        with: Below::of(alloc, with_numbers(alloc, region, with.into_tree())?)?,
        without: Below::of(alloc, with_numbers(alloc, region, without.into_tree())?)?,
    })
}

/// The trees with numbers in place of indices, each where it stood.
#[cycle(numbering)]
fn all_with_numbers(
    alloc: Global,
    region: &Region,
    trees: Vec<Proof>,
) -> Result<Vec<Proof>, AllocError>
    ensures { IfOk result (λ proofs. forest_of proofs.items ≡ all_numbered region.now (forest_of trees.items)) }
{
    let mut proofs = Vec::with_capacity(alloc, trees.len())?;
    for tree in trees {
        proofs.push(with_numbers(alloc, region, tree)?)?;
    }
    Ok(proofs)
}

/// The leaf with numbers in place of indices.
fn leaf_with_numbers(region: &Region, cells: Sequence<u32>) -> Proof
    ensures { tree_of result ≡ leaf (cell_numbers region.now cells) }
{
    let numbers = numbers_of_cells(region, cells.into_vec());
    Proof::Leaf(Sequence::from_vec(numbers))
}

/// The weighted leaf with numbers in place of indices.
fn weighted_with_numbers(alloc: Global, region: &Region, groups: Sequence<Group>) -> Proof
    ensures { tree_of result ≡ weighted (map (numbered_group region.now) groups) }
{
    let mut groups = groups.into_vec();
    put_group_numbers(alloc, region, groups.as_mut_slice());
    Proof::Weighted(Sequence::from_vec(groups))
}

/// Writes the group with numbers over each group.
fn put_group_numbers(alloc: Global, region: &Region, groups: &mut [Group])
    ensures { groups.new ≡ map (numbered_group region.now) groups.old }
{
    for group in groups.iter_mut() {
        let empty = Group {
            capacity: 0,
            shares: Sequence::from_vec(Vec::new(alloc)),
        };
        let old = mem::replace(group, empty);
        *group = group_with_numbers(region, old);
    }
}

/// The group with numbers in place of indices.
fn group_with_numbers(region: &Region, group: Group) -> Group
    ensures { result ≡ numbered_group region.now group }
{
    let Group { capacity, shares } = group;
    let mut items = shares.into_vec();
    put_share_numbers(region.cells(), items.as_mut_slice());
    Group {
        capacity,
        shares: Sequence::from_vec(items),
    }
}

/// Writes its cell's number over the index of each share.
fn put_share_numbers(numbers: &[Cell], shares: &mut [Share])
    ensures { shares.new ≡ map (λ share. record {
      cell = slice_index numbers.now share.cell;
      weight = share.weight;
    }) shares.old }
{
    for share in shares.iter_mut() {
        *share = Share {
            cell: number_at(numbers, share.cell),
            weight: share.weight,
        };
    }
}
