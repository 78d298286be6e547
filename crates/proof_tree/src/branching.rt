//! What a piece is opened on.

/// What a piece is opened on, and a search goes on with at a node.
#[derive(Clone, Copy)]
pub enum Branching {
    /// A branch on this cell: one of the places that may light it is chosen.
    Cell(u32),
    /// A pick of this place: it is chosen, or barred.
    Place(u32),
}
