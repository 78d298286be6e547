//! What an observer is told of a search by one worker: each turn, with the size of the smallest cover as the round
//! began and the size that the round is to prove.
use super::rings::{region, ring};
use instance_regions::Region;
use search_core::plan_by_one;
use search_moves::Moves;
use search_traits::{Observer, RegionFault};
use std::alloc::{AllocError, Global};
use std::sync::Arc;
use std::sync::atomic::{AtomicU64, Ordering};
use std::test::Fail;

/// Each two of five cells, and a place that lights them.
const PAIRS: [[u32; 2]; 10] = [
    [0, 1],
    [0, 2],
    [0, 3],
    [0, 4],
    [1, 2],
    [1, 3],
    [1, 4],
    [2, 3],
    [2, 4],
    [3, 4],
];

/// How many turns were told, and the two sizes of the first and of the last: two digits for each size.
#[derive(Drop)]
struct Turns {
    count: AtomicU64,
    first: AtomicU64,
    last: AtomicU64,
}

impl Observer for Turns {
    fn turn(&self, size: u64, aim: u64) {
        let sizes = size.wrapping_mul(100).wrapping_add(aim);
        if self.count.fetch_add(1, Ordering::SeqCst) == 0 {
            self.first.store(sizes, Ordering::SeqCst);
        }
        self.last.store(sizes, Ordering::SeqCst);
    }
}

/// How many turns were granted; and how many were told, with the sizes of the first and the last.
fn told(
    alloc: Global,
    region: &Arc<Region>,
    turns: Option<u64>,
) -> Result<(u64, u64, u64, u64), AllocError> {
    let seen = Turns {
        count: AtomicU64::new(0),
        first: AtomicU64::new(0),
        last: AtomicU64::new(0),
    };
    let plan = plan_by_one::<Moves, Turns>(alloc, region, turns, &seen);
    let granted = match &plan {
        Ok(plan) => plan.turns,
        Err(RegionFault::Stopped(found)) => found.granted,
        Err(_) => return Err(AllocError),
    };
    Ok((
        granted,
        seen.count.load(Ordering::SeqCst),
        seen.first.load(Ordering::SeqCst),
        seen.last.load(Ordering::SeqCst),
    ))
}

#[test]
fn each_turn_is_told_with_the_size_that_is_to_be_proved(rt: HostRuntime) -> Result<(), Fail> {
    let alloc = rt.alloc();
    let five = ring(alloc, 5)?;
    // A packing has two cells, so the one round is to prove 3, and takes three turns.
    assert_eq!(rt; told(alloc, &five, None)?, (3, 3, 3_03, 3_03));
    assert_eq!(rt; told(alloc, &five, Some(2))?, (2, 2, 3_03, 3_03));
    Ok(())
}

#[test]
fn rounds_are_told_by_rising_sizes(rt: HostRuntime) -> Result<(), Fail> {
    let alloc = rt.alloc();
    let pairs = region(alloc, 5, &PAIRS)?;
    // No two cells are scattered, and five cells take three places: rounds are to prove 2, then 3.
    let (granted, count, first, last) = told(alloc, &pairs, None)?;
    assert_eq!(rt; count, granted);
    assert_eq!(rt; first, 3_02);
    assert_eq!(rt; last, 3_03);
    Ok(())
}
