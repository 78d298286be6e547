//! What a proof tree is, when it proves how many places a cover needs at least, and the text in which it is printed:
//! definitions with the laws over them, so that the planner and the checker mean the same, and the groups of a weighted
//! leaf in memory.
#![tactic(auto)]

mod groups;
pub mod laws;

pub use groups::{Group, Share};
