//! Rings of cells, where each place lights a cell and the next: the fewest are half of them, rounded up.
use instance_regions::Region;
use pack_bound::first_plan;
use proof_tree::Proof;
use search_cases::made;
use search_core::plan_by_one;
use search_moves::Moves;
use search_traits::{RegionFault, Unobserved};
use std::alloc::{AllocError, Global};
use std::sync::Arc;
use std::test::Fail;

/// A ring of `count` cells and as many places.
pub(crate) fn ring(alloc: Global, count: u32) -> Result<Arc<Region>, Fail> {
    let mut rows = Vec::new(alloc);
    for place in 0..count {
        let next = if place + 1 < count { place + 1 } else { 0 };
        rows.push([place, next])?;
    }
    region(alloc, count as usize, &rows)
}

/// The region in which each place lights these two cells.
pub(crate) fn region(alloc: Global, count: usize, rows: &[[u32; 2]]) -> Result<Arc<Region>, Fail> {
    match made(alloc, count, rows)? {
        Some(region) => Ok(Arc::new(alloc, region)?),
        None => Err(AllocError.into()),
    }
}

/// The number of the plan's places, and how many kids the root of its tree has.
fn fewest_of(
    alloc: Global,
    region: &Arc<Region>,
    turns: Option<u64>,
) -> Result<(u64, usize), Fail> {
    match plan_by_one::<Moves, Unobserved>(alloc, region, turns, &Unobserved) {
        Ok(plan) => Ok((plan.cover.size(), kids_of(&plan.proof))),
        Err(RegionFault::Stopped(found)) => Ok((found.cover.size(), found.floor as usize)),
        Err(_) => Err(AllocError.into()),
    }
}

fn kids_of(proof: &Proof) -> usize {
    match proof {
        Proof::Leaf(_) => 0,
        Proof::Weighted(_) => 0,
        Proof::Branch { cell: _, kids } => kids.trees().len(),
        Proof::Bar {
            place: _,
            by: _,
            kid,
        } => kids_of(kid.tree()),
        Proof::Omit { cells: _, kid } => kids_of(kid.tree()),
        Proof::Pick { .. } => 2,
    }
}

/// How many cells a ring has, with how many turns it is planned, and the number of the plan's places with how many kids
/// the root of its tree has or, where the turns are spent, with the floor.
type RingPlan = (u32, Option<u64>, (u64, usize));

/// An even ring is one leaf, which takes one turn; an odd one needs a branch, and stops at its floor without turns.
const RING_PLANS: [RingPlan; 6] = [
    (5, None, (3, 2)),
    (7, None, (4, 2)),
    (9, None, (5, 2)),
    (6, None, (3, 0)),
    (6, Some(1), (3, 0)),
    (5, Some(1), (3, 2)),
];

#[test]
fn rings_are_planned_in_one_leaf_or_a_branch(rt: HostRuntime) -> Result<(), Fail> {
    for (cells, turns, said) in RING_PLANS {
        let region = ring(rt.alloc(), cells)?;
        assert_eq!(rt; fewest_of(rt.alloc(), &region, turns)?, said);
    }
    Ok(())
}

#[test]
fn a_first_plan_covers_a_ring(rt: HostRuntime) -> Result<(), Fail> {
    let region = ring(rt.alloc(), 6)?;
    let cover = first_plan(rt.alloc(), &region)?;
    assert_eq!(rt; cover.places(), [0, 2, 4].as_slice());
    Ok(())
}

#[test]
fn a_ring_over_several_words_is_planned(rt: HostRuntime) -> Result<(), Fail> {
    let region = ring(rt.alloc(), 131)?;
    assert_eq!(rt; fewest_of(rt.alloc(), &region, None)?.0, 66);
    Ok(())
}
