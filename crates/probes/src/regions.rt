//! Regions, and what planning one alone finds.

use cave_model::{OutOfMemory, World};
use cave_problem::{CoverFault, Problem};
use cave_regions::split;
use instance_regions::Region;
use proof_tree::Proof;
use search_core::plan_by_one;
use search_moves::Moves;
use search_traits::{RegionFault, Unobserved};
use std::alloc::Global;
use std::sync::Arc;

/// How many regions the cave has.
pub fn count(alloc: Global, world: &World) -> Result<usize, CoverFault> {
    let problem = Problem::new(alloc, world)?;
    Ok(split(alloc, &problem)?.len())
}

/// The regions of the cave. The problem that they come from is given back before they are.
pub fn shared(alloc: Global, world: &World) -> Result<Vec<Arc<Region>>, CoverFault> {
    let problem = Problem::new(alloc, world)?;
    let parts = split(alloc, &problem)?;
    let mut regions = Vec::with_capacity(alloc, parts.len())?;
    for region in parts {
        regions.push(Arc::new(alloc, region)?)?;
    }
    Ok(regions)
}

/// What planning a region alone finds, as a line of text.
pub fn found_line(alloc: Global, region: &Arc<Region>, turns: u64) -> Result<String, OutOfMemory> {
    let cells = region.cells().len();
    let places = region.places().len();
    match plan_by_one::<Moves, Unobserved>(alloc, region, Some(turns), &Unobserved) {
        Ok(plan) => {
            let lines = lines(alloc, &plan.proof)?;
            let size = plan.cover.size();
            format!(in alloc; "{cells} cells, {places} places: {size}, {lines} lines")
        }
        Err(RegionFault::Stopped(found)) => {
            let floor = found.floor;
            let size = found.cover.size();
            format!(in alloc; "{cells} cells, {places} places: {floor} to {size}")
        }
        Err(_) => Err(OutOfMemory),
    }
}

/// How many lines a tree has in a certificate.
fn lines(alloc: Global, tree: &Proof) -> Result<u64, OutOfMemory> {
    let mut open = Vec::new(alloc);
    open.push(tree)?;
    let mut count: u64 = 0;
    for _ in 0..u64::MAX {
        let Some(tree) = open.pop() else {
            break;
        };
        count = count.saturating_add(1);
        match tree {
            Proof::Leaf(_) => (),
            Proof::Weighted(groups) => count = count.saturating_add(groups.as_slice().len() as u64),
            Proof::Branch { cell: _, kids } => open.extend(kids.trees())?,
            Proof::Bar {
                place: _,
                by: _,
                kid,
            } => open.push(kid.tree())?,
            Proof::Omit { cells: _, kid } => open.push(kid.tree())?,
            Proof::Pick {
                place: _,
                with,
                without,
            } => {
                open.push(with.tree())?;
                open.push(without.tree())?;
            }
        }
    }
    Ok(count)
}
