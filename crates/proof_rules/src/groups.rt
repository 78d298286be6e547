//! Groups of cells that weigh, of which a weighted leaf is made.

use cave_base::{Cell, Sequence};

/// A cell of a group, and how much it weighs there.
#[derive(Clone, Copy)]
pub struct Share {
    pub cell: Cell,
    pub weight: u32,
}

/// Cells that weigh, and how much of that weight one place may light.
#[derive(Drop)]
pub struct Group {
    pub capacity: u32,
    pub shares: Sequence<Share>,
}
