//! Why a piece wasn't closed.

use proof_tree::Piece;

/// Why a piece wasn't closed. The piece comes back as it was.
#[derive(Drop)]
pub enum CloseFault {
    /// The desk granted no further turn.
    TurnsSpent(Piece),
    OutOfMemory(Piece),
}
