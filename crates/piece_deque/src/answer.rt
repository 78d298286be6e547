//! The answer of a take, by the owner or by a thief. `Answers` of specs/Rule.antt says what each case leaves of a
//! pass.
use proof_tree::Piece;

/// What a take answers.
#[derive(Drop)]
pub enum Take {
    Got(Piece),
    /// The deque was empty at one moment.
    Empty,
    /// Another thread took a piece first.
    Again,
}
