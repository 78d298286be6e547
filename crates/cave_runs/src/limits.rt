//! The limits of a run, all this project's own.

/// The most bytes that a structure file may have.
pub const STRUCTURE_LIMIT: usize = 67_108_864;

/// The most bytes that a user's table may have.
pub const TABLE_LIMIT: usize = 1_048_576;

/// The most bytes that a plan's text may have.
pub const PLAN_LIMIT: usize = 67_108_864;

/// The most bytes that a certificate may have.
pub const PROOF_LIMIT: u64 = 1_073_741_824;
