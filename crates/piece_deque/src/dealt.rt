//! What a pass has done: the view of a pass in contracts. specs/Deals.antt says how it begins and what each step
//! changes.
use proof_tree::Piece;
use std::collections::LinkedList;

/// What a pass at a deque of pieces has done. No value of it is made: it stands in contracts alone.
pub struct Dealt {
    /// Is it the owner's pass?
    pub first: bool,
    /// Was it taken back?
    pub spent: bool,
    /// The number of other passes. The owner's counts them.
    pub out: u64,
    /// In the order of the pushes.
    pub pushed: LinkedList<Piece>,
    /// In the order of the takes.
    pub taken: LinkedList<Piece>,
}
