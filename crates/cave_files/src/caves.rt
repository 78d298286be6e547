//! The worked caves, and what they are made of.

mod blocks;
mod boxes;
mod corridors;
mod fills;
mod rings;

pub use blocks::{AIR, FELT, FELT_TABLE, LANTERN, STONE};
pub use boxes::{EMPTY, LARGEST_FLOOR, PILLAR};
pub use corridors::{CORRIDOR_27, CORRIDOR_28, LIT_27, LOW_27, PLUS, TWO_CORRIDORS};
pub use fills::{BELOW_THE_MIDDLE, DUG, ROCK};
pub use rings::{FELT_RING, RING, TWO_FELT_RINGS, WIDE_RING};
