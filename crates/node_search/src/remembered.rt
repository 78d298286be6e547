//! What is remembered of a piece that was opened.

use proof_tree::{Branching, Piece};

/// What the strategy remembers of its node, and how its kids go on by picks.
#[derive(Drop)]
pub struct Remembered<M> {
    memory: M,
    /// How many places that were picked above its node are barred there.
    refused: u32,
    /// Whether it was opened at a place.
    is_pick: bool,
}

impl<M> Remembered<M> {
    /// Of the whole region.
    pub(crate) fn at_root(memory: M) -> Remembered<M> {
        Remembered {
            memory,
            refused: 0,
            is_pick: false,
        }
    }

    /// Of a piece that was opened on this.
    pub(crate) fn new(memory: M, refused: u32, on: Branching) -> Remembered<M> {
        Remembered {
            memory,
            refused,
            is_pick: matches!(on, Branching::Place(_)),
        }
    }

    /// What the strategy remembers.
    pub(crate) fn memory(&self) -> &M {
        &self.memory
    }

    /// How many places that were picked above the kid are barred in it: one more in the second kid of a pick.
    pub(crate) fn refused_in(&self, kid: &Piece) -> u32 {
        match kid.name().as_slice().last() {
            Some(1) if self.is_pick => self.refused.saturating_add(1),
            _ => self.refused,
        }
    }
}
