//! The independent regions of a cave's problem, and the laws that tie them to the cave.
#![tactic(auto)]

pub mod laws;
mod splitting;

pub use instance_regions::{Cover, Region};
pub use splitting::{split, whole};
