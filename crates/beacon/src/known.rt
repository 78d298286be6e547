//! What a seat at a beacon knows.

/// No value of it is made: it stands in contracts alone.
pub struct Known {
    /// Is it the first seat, which splits and joins?
    pub first: bool,
    /// Was it joined into the first one?
    pub spent: bool,
    /// The least size that it has seen.
    pub seen: u64,
    /// The least size that it has told, if it told any.
    pub told: Option<u64>,
    /// The number of other seats. The first one counts them.
    pub out: u64,
}
