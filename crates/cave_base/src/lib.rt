//! What both halves stand on: a box of cells and their numbers, the class of a cell, a list that owns its items, and,
//! in the specs, what a call answers that may meet a fault or run out of memory. Nothing here knows a byte.
#![tactic(auto)]

mod class;
mod grid;
pub mod laws;
mod sequence;

pub use class::{Class, VOID};
pub use grid::{Cell, coordinates, is_small, is_within, number};
pub use sequence::Sequence;
