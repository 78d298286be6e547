//! Structure files written for tests: a box, its palette, and what fills it; the worked caves; and readers and writers
//! that give or take little at once, and fail.
#![tactic(auto)]

pub mod caves;
pub mod streams;
mod structure;
mod texts;

pub use structure::{Block, Entry, Fill, Structure};
pub use texts::row_of_cells;
