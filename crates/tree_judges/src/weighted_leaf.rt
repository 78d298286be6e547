//! The judge of weighted leaves.
ghost use Rattle.std.specs.List.Sorted.{IsStrictlyIncreasing};
ghost use Rattle.std.specs.Prelude.{◌≡◌, ◌↔◌, ◌<◌, ◌≤◌, IsTrue, IfOk, length, slice_index};
ghost use Rattle.pack_bound.specs.Nodes.{IsStateOf, Closes};
ghost use Rattle.proof_rules.specs.Groups.{cells_of, AreGroups, IsGroup};
ghost use Rattle.proof_rules.specs.Tree.{weighted};
ghost use Rattle.tree_judges.specs.Weighted.{claimed, AreShares, MayBeWeightedAt};
ghost use Rattle.weight_judge.specs.Claims.{claims_of as list_of};

use crate::open_lists::open_lists;
use cave_base::Cell;
use instance_regions::Region;
use pack_bound::{Node, mark_unlit};
use proof_rules::{Group, Share};
use set_cover::empty;
use std::alloc::{AllocError, Global};
use weight_judge::{Claim, claims_of, keep_capacities, places_for_all};

/// Whether the groups may stand in a weighted leaf that reaches the floor.
pub(crate) fn is_weighted_leaf(
    alloc: Global,
    region: &Region,
    node: &Node,
    groups: &[Group],
    floor: u64,
) -> Result<bool, AllocError>
    requires { IsStateOf region.now node.now }
    ensures { IfOk result (λ yes. IsTrue yes ↔ Closes region.now node.now floor (weighted groups.now)) }
{
    if !are_groups(groups) {
        return Ok(false);
    }
    let claims = claims_of(alloc, groups)?;
    if claims.len() > count(region.cells()) {
        return Ok(false);
    }
    if !may_be_weighted(alloc, region, node, groups, &claims)? {
        return Ok(false);
    }
    let size = (node.chosen().len() as u64).saturating_add(places_for_all(groups));
    Ok(floor <= size)
}

/// How many cells there are: each has a number of 32 bits of its own.
fn count(cells: &[Cell]) -> usize
    requires { IsStrictlyIncreasing cells.now }
    ensures exact { result ≡ length cells.now }
    ensures few { result ≤ 4294967296 }
{
    cells.len()
}

/// Whether the groups, in their one form, may stand in a weighted leaf. The claims are theirs.
fn may_be_weighted(
    alloc: Global,
    region: &Region,
    node: &Node,
    _groups: &[Group], // for the proof
    claims: &[Claim],
) -> Result<bool, AllocError>
    requires state { IsStateOf region.now node.now }
    requires groups { AreGroups _groups.now }
    requires claims { claims.now ≡ list_of _groups.now }
    ensures { IfOk result (λ yes. IsTrue yes ↔ MayBeWeightedAt region.now node.now _groups.now) }
{
    let cells = cells_of_claims(alloc, claims)?;
    let mut marks = empty(alloc, region.width())?;
    let marks = marks.as_mut_slice();
    if !mark_unlit(node, &cells, marks) {
        return Ok(false);
    }
    let lists = open_lists(alloc, region, node, claims, marks)?;
    let kept = keep_capacities(alloc, region.places().len(), claims, &lists)?;
    Ok(kept)
}

/// The cells of the claims.
fn cells_of_claims(alloc: Global, claims: &[Claim]) -> Result<Vec<u32>, AllocError>
    ensures { IfOk result (λ cells. cells.items ≡ claimed claims.now) }
{
    claims.iter().map(|claim| claim.cell).collect(alloc)
}

/// Whether the groups stand in their one form.
fn are_groups(groups: &[Group]) -> bool
    ensures { IsTrue result ↔ AreGroups groups.now }
{
    if groups.len() == 0 {
        return false;
    }
    for index in 0..groups.len() {
        if !is_group(&groups[index]) {
            return false;
        }
        if index > 0 && first_cell(&groups[index - 1]) >= first_cell(&groups[index]) {
            return false;
        }
    }
    true
}

/// The first cell of a group; 0 where it has none.
fn first_cell(group: &Group) -> u32
    ensures { result ≡ slice_index (cells_of group.now.shares) 0 }
{
    match group.shares.as_slice() {
        [first, ..] => first.cell,
        [] => 0,
    }
}

/// Whether the group stands in its one form.
fn is_group(group: &Group) -> bool
    ensures { IsTrue result ↔ IsGroup group.now }
{
    let shares = group.shares.as_slice();
    if group.capacity == 0 || shares.is_empty() {
        return false;
    }
    are_shares(shares)
}

/// Whether the cells ascend, and each weighs something.
fn are_shares(shares: &[Share]) -> bool
    ensures { IsTrue result ↔ AreShares shares.now }
{
    for index in 0..shares.len() {
        if shares[index].weight == 0 {
            return false;
        }
        if index > 0 && shares[index - 1].cell >= shares[index].cell {
            return false;
        }
    }
    true
}
