//! The groups of a weighted leaf: copies, by the indices of cells, and the places that have to be left out above them.

use cave_base::Sequence;
use instance_reduction::{InRegion, ReducedInstance};
use number_lists::{set_bit, small};
use proof_rules::{Group, Share};
use std::alloc::{AllocError, Global};

/// A copy of the groups.
pub(crate) fn copied_groups(
    alloc: Global,
    groups: &[Group],
) -> Result<Sequence<Group>, AllocError> {
    let mut found = Vec::with_capacity(alloc, groups.len())?;
    for group in groups {
        found.push(Group {
            capacity: group.capacity,
            shares: Sequence::from_vec(Vec::from_slice(alloc, group.shares.as_slice())?),
        })?;
    }
    Ok(Sequence::from_vec(found))
}

/// What a place lights of the group that it was met in last.
#[derive(Clone, Copy)]
struct Load {
    group: u32,
    weight: u64,
}

/// Marks the places that light more of a group than its capacity, or cells of two groups.
pub(crate) fn mark_heavy(
    alloc: Global,
    instance: &ReducedInstance,
    groups: &[Group],
    marks: &mut [u64],
) -> Result<(), AllocError> {
    let none = Load {
        group: u32::MAX,
        weight: 0,
    };
    let mut loads = vec![in alloc; none; marks.len().saturating_mul(64)]?;
    for (index, group) in groups.iter().enumerate() {
        for share in group.shares.as_slice() {
            add_share(
                instance,
                *share,
                small(index),
                group.capacity,
                loads.as_mut_slice(),
                marks,
            );
        }
    }
    Ok(())
}

/// Adds a share to what each place of its cell lights, and marks those that light too much.
fn add_share(
    instance: &ReducedInstance,
    share: Share,
    group: u32,
    capacity: u32,
    loads: &mut [Load],
    marks: &mut [u64],
) {
    for place in instance.sources(InRegion::of(share.cell)) {
        let place = *place as usize;
        if place < loads.len() {
            let load = loads[place];
            let is_other = load.group != group && load.group != u32::MAX;
            let weight = load.weight.saturating_add(u64::from(share.weight));
            if is_other || weight > u64::from(capacity) {
                set_bit(marks, place);
            }
            loads[place] = Load { group, weight };
        }
    }
}
