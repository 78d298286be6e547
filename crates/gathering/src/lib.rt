//! The results of workers, merged: played on the event core, and finished by a search where pieces are left. What comes
//! of it is `IsGathered` of specs/Gathered.antt.
#![tactic(auto)]

mod gleaning;
mod goal_desk;
pub mod laws;
mod merge;
mod opening;
mod trying;

pub use merge::{Gathered, gather};
