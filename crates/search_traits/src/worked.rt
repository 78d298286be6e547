//! What becomes of a piece by work on one node: `IsWorked` of specs/Pieces.antt.

use proof_tree::{Closed, Opened};

/// A piece that was worked on.
#[derive(Drop)]
pub enum Worked<M> {
    Closed(Closed),
    /// With what is remembered of it.
    Opened(Opened, M),
}
