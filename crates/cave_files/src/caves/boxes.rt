//! The smallest caves, and the largest.

use super::blocks::{AIR, STONE};
use super::fills::ROCK;
use crate::structure::{Fill, Structure};

/// A box without a cell.
pub const EMPTY: Structure<'static> = Structure {
    size: [0, 0, 0],
    palette: &[],
    fills: &[],
    more: &[],
};

/// A layer of stone with air over it.
const FLOOR: Structure<'static> = Structure {
    palette: &[STONE, AIR],
    fills: &[ROCK, Fill([0, 1, 0], [i32::MAX; 3], Some(1))],
    ..EMPTY
};

/// Two free cells over one of stone.
pub const PILLAR: Structure<'static> = Structure {
    size: [1, 3, 1],
    ..FLOOR
};

/// A floor of stone with air over it in the largest box, each of whose 262,144 cells has an entry.
pub const LARGEST_FLOOR: Structure<'static> = Structure {
    size: [128, 16, 128],
    ..FLOOR
};
