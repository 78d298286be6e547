//! Corridors, two high but for one.

use super::blocks::{AIR, STONE, TORCH};
use super::boxes::EMPTY;
use super::fills::{DUG, ROCK, dug, third};
use crate::structure::{Fill, Structure};

/// A cave of stone and air, by its sides and fills.
macro_rules! in_stone {
    ($size:expr, $fills:expr) => {
        Structure { size: $size, palette: &[STONE, AIR], fills: $fills, ..EMPTY }
    };
}

pub(super) use in_stone;

/// A corridor of 27 cells, two high, which one torch lights.
pub const CORRIDOR_27: Structure<'static> = in_stone!([29, 4, 3], &[ROCK, DUG]);

/// A corridor of 27 cells with a torch in its middle.
pub const LIT_27: Structure<'static> = Structure {
    palette: &[STONE, AIR, TORCH],
    fills: &[ROCK, DUG, third!([14, 1, 1])],
    ..CORRIDOR_27
};

/// A corridor of 27 cells, one high.
pub const LOW_27: Structure<'static> = Structure {
    fills: &[ROCK, Fill([1, 1, 1], [27, 1, 1], Some(1))],
    ..CORRIDOR_27
};

/// A corridor of 28 cells, two high, which needs two torches.
pub const CORRIDOR_28: Structure<'static> = in_stone!([30, 4, 3], &[ROCK, dug!([1, 1], [28, 1])]);

/// Two corridors of 27 cells side by side, with a wall between.
pub const TWO_CORRIDORS: Structure<'static> = in_stone!(
    [29, 4, 5],
    &[ROCK, DUG, dug!([1, 3], [27, 3])]
);

/// Four arms of 14 cells round a centre, two high: largest first takes five torches, and four do.
pub const PLUS: Structure<'static> = in_stone!(
    [31, 4, 31],
    &[ROCK, dug!([1, 15], [29, 15]), dug!([15, 1], [15, 29])]
);
