//! How many turns a ring takes: one for each node that is worked on, and none for what is tried in between.
//!
//! In a ring of an odd number of cells, where each place lights a cell and the next, a packing has one cell less than
//! the fewest places, so the root is no leaf. Two places light the cell that it branches on. Each of them leaves a row
//! of cells of which every other one is scattered, so each kid is a leaf: three nodes, and three turns.
use super::rings::ring;
use instance_regions::Region;
use search_core::plan_by_one;
use search_moves::Moves;
use search_traits::{RegionFault, Unobserved};
use std::alloc::{AllocError, Global};
use std::sync::Arc;
use std::test::Fail;

/// How a search ends.
#[derive(Clone, Copy, Debug, PartialEq, Eq)]
enum End {
    /// A cover of the fewest places was found.
    Done { size: u64 },
    /// The turns were spent: the size of the smallest cover, one that none is below, and how many turns were granted.
    Stopped { size: u64, floor: u64, turns: u64 },
}

/// How many cells a ring has, its turns, and how the search ends.
type Row = (u32, Option<u64>, End);

const ROWS: [Row; 13] = [
    (
        5,
        Some(1),
        End::Stopped {
            size: 3,
            floor: 2,
            turns: 1,
        },
    ),
    (
        5,
        Some(2),
        End::Stopped {
            size: 3,
            floor: 2,
            turns: 2,
        },
    ),
    (5, Some(3), End::Done { size: 3 }),
    (5, Some(4), End::Done { size: 3 }),
    (5, None, End::Done { size: 3 }),
    (
        7,
        Some(1),
        End::Stopped {
            size: 4,
            floor: 3,
            turns: 1,
        },
    ),
    (
        7,
        Some(2),
        End::Stopped {
            size: 4,
            floor: 3,
            turns: 2,
        },
    ),
    (7, Some(3), End::Done { size: 4 }),
    (
        9,
        Some(2),
        End::Stopped {
            size: 5,
            floor: 4,
            turns: 2,
        },
    ),
    (9, Some(3), End::Done { size: 5 }),
    // An even ring is one leaf, and one turn.
    (6, Some(1), End::Done { size: 3 }),
    (8, Some(1), End::Done { size: 4 }),
    (8, None, End::Done { size: 4 }),
];

/// How the search of the region ends, alone.
fn end_of(alloc: Global, region: &Arc<Region>, turns: Option<u64>) -> Result<End, AllocError> {
    match plan_by_one::<Moves, Unobserved>(alloc, region, turns, &Unobserved) {
        Ok(plan) => Ok(End::Done {
            size: plan.cover.size(),
        }),
        Err(RegionFault::Stopped(found)) => Ok(End::Stopped {
            size: found.cover.size(),
            floor: found.floor,
            turns: found.granted,
        }),
        Err(_) => Err(AllocError),
    }
}

#[test]
fn three_turns_suffice_for_an_odd_ring_and_two_do_not(rt: HostRuntime) -> Result<(), Fail> {
    let alloc = rt.alloc();
    for (cells, turns, end) in ROWS {
        let region = ring(alloc, cells)?;
        assert_eq!(rt; end_of(alloc, &region, turns)?, end);
    }
    Ok(())
}
