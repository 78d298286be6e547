//! The moves of a search: at each node a packing or a weighted leaf, the places to leave out, and the cell to branch
//! on. All of it proposes, and nothing is promised of it but that it ends and stays in bounds: judges accept or refuse.
#![tactic(auto)]

mod branching;
mod covers;
mod descent;
mod leaves;
mod moves;
mod node_count;
mod strategy;

pub use moves::Moves;
