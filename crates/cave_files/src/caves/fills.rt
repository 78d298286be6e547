//! What fills the boxes of the worked caves. A palette's first state is their ground, and its second their air.

use crate::structure::Fill;

/// Air two high over the lowest layer, from one corner to the other: the x and the z of each.
macro_rules! dug {
    ([$west:literal, $north:literal], [$east:literal, $south:literal]) => {
        Fill([$west, 1, $north], [$east, 2, $south], Some(1))
    };
}

/// Ground that is left there.
macro_rules! left {
    ([$west:literal, $north:literal], [$east:literal, $south:literal]) => {
        Fill([$west, 1, $north], [$east, 2, $south], Some(0))
    };
}

/// The palette's third state in one cell.
macro_rules! third {
    ($at:expr) => {
        Fill($at, $at, Some(2))
    };
}

pub(super) use dug;
pub(super) use left;
pub(super) use third;

/// Ground in all of the box, whatever its sides.
pub const ROCK: Fill = Fill([0; 3], [i32::MAX; 3], Some(0));

/// A corridor: 27 cells long, two high.
pub const DUG: Fill = dug!([1, 1], [27, 1]);

/// The palette's third state in the ground of the corridor's middle.
pub const BELOW_THE_MIDDLE: Fill = third!([14, 0, 1]);
