//! The events that a core plays: when each is enabled, and what it does, is said in specs/Events.antt.
use cave_base::{Cell, Sequence};
use instance_regions::Cover;
use proof_tree::{Bar, Closed, Name};

/// What may happen in a core. Workers are numbers below the count handed in.
#[derive(Drop)]
pub enum Event {
    /// A worker sees the size at which pieces are to be closed.
    Look(u32),
    /// A worker offers a cover, which is the best from then on if it is smaller.
    Offer(u32, Cover),
    /// A worker takes a waiting piece.
    Take(u32, Name),
    /// A piece is opened on a cell, below places that are left out: its kids wait.
    Open(Name, Sequence<Bar>, Cell),
    /// A piece is opened at a place, below others that are left out: the kid in which it is chosen waits, and the one
    /// in which it is barred.
    Pick(Name, Sequence<Bar>, Cell),
    /// A worker closes a piece that it holds.
    Close(u32, Closed),
    /// A worker leaves a piece that it holds: it waits again.
    Leave(u32, Name),
}
