//! Rings round a square, two high.

use super::blocks::{AIR, FELT, STONE};
use super::boxes::EMPTY;
use super::corridors::in_stone;
use super::fills::{ROCK, dug, left, third};
use crate::structure::{Fill, Structure};

/// A cave of felt and air, with some stone, by its sides and fills.
macro_rules! in_felt {
    ($size:expr, $fills:expr) => {
        Structure { size: $size, palette: &[FELT, AIR, STONE], fills: $fills, ..EMPTY }
    };
}

/// A ring of 28 cells round a square, two high.
pub const RING: Structure<'static> = in_stone!(
    [10, 4, 10],
    &[ROCK, dug!([1, 1], [8, 8]), left!([2, 2], [7, 7])]
);

/// A ring in stone, two cells wide, with over 128 places, of which others dominate some.
pub const WIDE_RING: Structure<'static> = in_stone!(
    [22, 4, 16],
    &[ROCK, dug!([1, 1], [20, 14]), left!([3, 3], [18, 12])]
);

/// A ring of 28 cells, two high, in felt; stone under three cells alone, which are its places.
pub const FELT_RING: Structure<'static> = in_felt!(
    [10, 4, 10],
    &[
        ROCK,
        dug!([1, 1], [8, 8]),
        left!([2, 2], [7, 7]),
        third!([1, 0, 1]),
        third!([4, 0, 1]),
        third!([8, 0, 1]),
    ]
);

/// Two rings in felt, one behind the other. Three cells of each have stone below: these are its places.
pub const TWO_FELT_RINGS: Structure<'static> = in_felt!(
    [10, 4, 20],
    &[
        ROCK,
        dug!([1, 1], [8, 8]),
        left!([2, 2], [7, 7]),
        dug!([1, 11], [8, 18]),
        left!([2, 12], [7, 17]),
        third!([1, 0, 1]),
        third!([4, 0, 1]),
        third!([8, 0, 1]),
        third!([1, 0, 11]),
        third!([4, 0, 11]),
        third!([8, 0, 11]),
    ]
);
