//! The answers of a worker's steps: what came of a try to take a piece, and of work on it. specs/Steps.antt says what
//! each leaves.

/// What a try to take a piece gave.
#[derive(Clone, Copy, Debug, PartialEq, Eq)]
pub enum Tried {
    Got,
    Empty,
    /// Another thread took a piece first.
    Again,
    /// Memory for holding one was refused, so none was taken.
    OutOfMemory,
}

/// What became of the piece that was taken last. But for the first two cases it is held on.
#[derive(Drop)]
pub enum Step<M> {
    Closed,
    /// With this number of kids, and what is remembered of it.
    Opened { kids: usize, memory: M },
    /// It isn't of the region, or none is held.
    NotMade,
    TurnsSpent,
    OutOfMemory,
}
