//! Which cells are dark, which are places, and what a torch at each lights, as lists both ways: found by rounds of
//! relaxation, for whoever judges a plan and trusts no flood.
#![tactic(auto)]

mod cell_lists;
mod counting;
mod filling;
mod levels;
mod lighting;
mod lists;
mod marking;
mod pairs;
mod relaxing;

pub use lighting::lit_cells;
pub use lists::Lists;
