//! Relaxations side by side, of three cells of which each place lights two. The linear programs' values are worked out
//! by hand: one and a half for all of it, two where a place is barred, one where a cell is lit.
use linear_relaxation::{InPart, Lanes, ONE};
use number_lists::NumberLists;
use std::alloc::{AllocError, Global};
use std::test::Fail;

/// Lanes of the cells 0, 1 and 2, of which places light 0 and 1, 1 and 2, and 0 and 2.
fn lanes(alloc: Global) -> Result<Lanes, AllocError> {
    let mut lights = NumberLists::new(alloc);
    for cells in [[0u32, 1], [1, 2], [0, 2]] {
        for cell in cells {
            lights.push(cell)?;
        }
        lights.end()?;
    }
    Lanes::new(alloc, lights, &[ONE / 32; 3], &[ONE / 8; 3])
}

/// The same lanes after four runs: in one the third place is barred, in the next the cell 0 is lit.
fn solved_lanes(alloc: Global) -> Result<Lanes, AllocError> {
    let mut lanes = lanes(alloc)?;
    lanes.begin();
    lanes.bar(1, InPart::of(2));
    lanes.light(2, InPart::of(0));
    lanes.make_ready();
    for _ in 0..4u32 {
        lanes.run(alloc)?;
    }
    Ok(lanes)
}

/// A number of hundredths, nearest to this one in fixed point.
fn hundredths(number: i64) -> i64 {
    number.saturating_mul(100).saturating_add(ONE / 2) / ONE
}

#[test]
fn each_lane_shows_its_own_value(rt: HostRuntime) -> Result<(), Fail> {
    let alloc = rt.alloc();
    let lanes = solved_lanes(alloc)?;
    // The last lane is told nothing, like the first.
    for (lane, shown) in [(0usize, 150i64), (1, 200), (2, 100), (7, 150)] {
        assert_eq!(rt; hundredths(lanes.bound(lane)), shown);
        assert_eq!(rt; hundredths(lanes.estimate(lane)), shown);
    }
    Ok(())
}

#[test]
fn whole_weights_are_those_of_the_lane(rt: HostRuntime) -> Result<(), Fail> {
    let alloc = rt.alloc();
    let lanes = solved_lanes(alloc)?;
    // By the halves of all three cells no place lights more than two of a capacity of two.
    let Some(halves) = lanes.whole_weights(alloc, 0, 2)? else {
        return Err(Fail::from("no weights"));
    };
    assert_eq!(rt; halves.capacity(), 2);
    for cell in 0..3u32 {
        assert_eq!(rt; halves.weight(InPart::of(cell)), 1);
    }
    // Where the place of the cells 0 and 2 is barred each of these needs a place.
    let Some(apart) = lanes.whole_weights(alloc, 1, 2)? else {
        return Err(Fail::from("no weights"));
    };
    assert_eq!(rt; apart.capacity(), 1);
    assert_eq!(rt; apart.weight(InPart::of(0)), 1);
    assert_eq!(rt; apart.weight(InPart::of(1)), 0);
    assert_eq!(rt; apart.weight(InPart::of(2)), 1);
    // Where the cell 0 is lit one place is enough.
    assert!(rt; lanes.whole_weights(alloc, 2, 2)?.is_none());
    Ok(())
}
