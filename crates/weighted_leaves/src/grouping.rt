//! Groups of a weighted leaf, of whole weights.

use cave_base::Sequence;
use instance_reduction::{InInstance, RowsLeft};
use linear_relaxation::{InPart, WholeWeights};
use number_lists::is_set;
use proof_rules::{Group, Share};
use std::alloc::{AllocError, Global};

/// Adds the group of those of these cells that are left, one weight each, at a capacity of one; none where none is.
pub(crate) fn push_alone(
    alloc: Global,
    groups: &mut Vec<Group>,
    left: RowsLeft<'_>,
    cells: &[u32],
) -> Result<(), AllocError> {
    let mut shares = Vec::new(alloc);
    for cell in cells {
        push_share(&mut shares, left, InInstance::of(*cell), 1)?;
    }
    push_shares(groups, 1, shares)
}

/// Adds the group of those of these cells that are left and weigh anything; none where none does.
pub(crate) fn push_group(
    alloc: Global,
    groups: &mut Vec<Group>,
    left: RowsLeft<'_>,
    cells: &[u32],
    whole: &WholeWeights<'_>,
) -> Result<(), AllocError> {
    let shares = shares_of(alloc, left, cells, whole)?;
    push_shares(groups, whole.capacity(), shares)
}

/// The shares of those of these cells that are left and weigh anything.
pub(crate) fn shares_of(
    alloc: Global,
    left: RowsLeft<'_>,
    cells: &[u32],
    whole: &WholeWeights<'_>,
) -> Result<Vec<Share>, AllocError> {
    let mut shares = Vec::new(alloc);
    for (index, cell) in cells.iter().enumerate() {
        let weight = whole.weight(InPart::at(index));
        push_share(&mut shares, left, InInstance::of(*cell), weight)?;
    }
    Ok(shares)
}

/// Adds the share of a cell, if it is left and weighs anything.
fn push_share(
    shares: &mut Vec<Share>,
    left: RowsLeft<'_>,
    cell: InInstance,
    weight: u32,
) -> Result<(), AllocError> {
    if let Some(named) = left.instance.cell_in_region(cell) {
        if weight > 0 && is_set(left.cells, cell.index()) {
            shares.push(Share {
                cell: named.number(),
                weight,
            })?;
        }
    }
    Ok(())
}

/// Adds the group of these shares, where there are any.
pub(crate) fn push_shares(
    groups: &mut Vec<Group>,
    capacity: u32,
    shares: Vec<Share>,
) -> Result<(), AllocError> {
    let mut shares = shares;
    if shares.is_empty() {
        return Ok(());
    }
    shares.sort_by_key(|share| share.cell)?;
    groups.push(Group {
        capacity,
        shares: Sequence::from_vec(shares),
    })?;
    Ok(())
}
