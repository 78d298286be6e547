//! Which place for a torch lights which dark cell: an instance of set cover.
//!
//! The dark cells of a cave are the elements, its legal places are the candidates, and a place covers the dark cells
//! that a torch there lights.
#![tactic(auto)]

mod block_flood;
mod blocks;
mod fault;
mod filling;
mod indexing;
pub mod laws;
mod levels;
mod places;
mod problem;
mod reach;
mod search;
mod sides;

pub use fault::CoverFault;
pub use problem::Problem;
