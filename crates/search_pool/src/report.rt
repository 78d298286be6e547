//! What many workers tell of a plan: the cover, its tree, and what became of the pieces. specs/Reports.antt says what
//! the numbers mean.
use instance_regions::Cover;
use proof_tree::Proof;

/// What workers planned.
#[derive(Drop)]
pub struct Report {
    /// The smallest cover that is known.
    pub cover: Cover,
    /// The tree which proves that none is smaller than it, or than the size that the round was after.
    pub proof: Proof,
    /// How many turns were granted, at most the limit. Without a limit the count stops at the greatest number.
    pub turns: u64,
    /// Pieces that workers took and neither closed nor opened, and kids that they kept to themselves.
    pub handed_back: u128,
    /// Pieces that the caller took from the deques after the joins.
    pub left: u128,
    /// Pieces that the caller closed, of those that were handed back or left.
    pub gleaned: u128,
    /// Pieces that came to be, but for the kids that workers still keep.
    pub pushed: u128,
    /// Pieces that workers opened, of those that came to be.
    pub opened: u128,
    /// For each worker the pieces that it closed.
    pub closed_by: Vec<u64>,
}
