//! Reports of many workers, and their numbers.
use super::planning::workers;
use super::ring_caves::{corridor, hall, stone_ring};
use instance_regions::Region;
use node_search::{BranchAndBound, Ground};
use pack_bound::Node;
use proof_tree::Proof;
use search_core::{at_root, first_cover};
use search_moves::Moves;
use search_pool::{Report, run_round};
use search_traits::{Proposal, Proposer, RegionFault, SharedSearch, Task};
use std::alloc::{AllocError, Global};
use std::process::Abort;
use std::sync::{Arc, Wait};
use std::test::Fail;
use std::thread::Threads;
use torch_plan::{Observer, Unobserved};

/// How a round of `count` workers ends, which proves a cover of the region to be the smallest, within these turns below
/// its root; or nothing where the caller's thread closes the root.
pub(crate) fn end_of<R: Abort + Threads + Wait + Sync, G: Observer>(
    rt: &R,
    alloc: Global,
    region: &Arc<Region>,
    count: u32,
    gate: &G,
    turns: Option<u64>,
) -> Result<Option<Result<Report, RegionFault>>, Fail> {
    let on = Ground::of(alloc, region, false);
    let (strategy, proposal) = at_root::<Moves>(&on)?;
    let Proposal { cover, .. } = proposal;
    let first = first_cover(&on, cover)?;
    let root = Node::root(alloc, region)?;
    let task = Task {
        region,
        node: &root,
        floor: Some(first.size()),
        refused: 0,
        may_pick: false,
    };
    let mut strategy = strategy;
    let Proposal {
        tree,
        bars,
        branch,
        ..
    } = strategy.propose(alloc, task)?;
    if let Proof::Leaf(cells) = tree {
        if cells.as_slice().len() as u64 >= first.size() {
            return Ok(None);
        }
    }
    let search = SharedSearch {
        alloc,
        region,
        closer: &BranchAndBound::new(&on, &strategy, bars, branch)?,
    };
    let aim = first.size();
    Ok(Some(run_round(rt, search, workers(rt, count), gate, first, aim, turns)))
}

/// The report of `count` workers, whom the root is left to.
pub(crate) fn report_of<R: Abort + Threads + Wait + Sync, G: Observer>(
    rt: &R,
    alloc: Global,
    region: &Arc<Region>,
    count: u32,
    gate: &G,
) -> Result<Report, Fail> {
    match end_of(rt, alloc, region, count, gate, None)? {
        Some(Ok(report)) => Ok(report),
        _ => Err(AllocError.into()),
    }
}

/// The pieces that workers closed.
pub(crate) fn closed(report: &Report) -> u128 {
    let mut sum = 0u128;
    for count in &report.closed_by {
        sum = sum.wrapping_add(*count as u128);
    }
    sum
}

#[test]
fn one_leaf_starts_no_worker(rt: HostRuntime) -> Result<(), Fail> {
    let alloc = rt.alloc();
    let end = end_of(&rt, alloc, &corridor(alloc)?, 3, &Unobserved, None)?;
    assert!(rt; end.is_none());
    Ok(())
}

#[test]
fn one_worker_and_64_plan_the_ring(rt: HostRuntime) -> Result<(), Fail> {
    let alloc = rt.alloc();
    let region = stone_ring(alloc)?;
    for workers in [1, 64] {
        let report = report_of(&rt, alloc, &region, workers, &Unobserved)?;
        assert_eq!(rt; report.cover.size(), 2);
        assert_eq!(rt; report.closed_by.len(), workers as usize);
        let all = closed(&report).wrapping_add(report.gleaned);
        assert_eq!(rt; all, report.pushed.wrapping_sub(report.opened));
    }
    Ok(())
}

#[test]
fn eight_workers_find_two_torches_200_times(rt: HostRuntime) -> Result<(), Fail> {
    let alloc = rt.alloc();
    let region = stone_ring(alloc)?;
    for _ in 0..200 {
        let report = report_of(&rt, alloc, &region, 8, &Unobserved)?;
        assert_eq!(rt; report.cover.size(), 2);
    }
    Ok(())
}

#[test]
fn each_piece_of_a_hall_is_closed_once(rt: HostRuntime) -> Result<(), Fail> {
    let alloc = rt.alloc();
    let report = report_of(&rt, alloc, &hall(alloc)?, 4, &Unobserved)?;
    assert_eq!(rt; report.cover.size(), 10);
    assert!(rt; report.opened > 0);
    let all = closed(&report).wrapping_add(report.gleaned);
    assert_eq!(rt; all, report.pushed.wrapping_sub(report.opened));
    Ok(())
}
