//! Branch and bound at one node and below it: what a strategy proposes is judged, and a node is closed whole, or opened
//! as a piece that workers share. It is generic over the strategy, of which nothing is promised.
#![tactic(auto, using(crate::proofs::StepRules::search_steps))]

mod branch_and_bound;
mod ground;
mod node_step;
mod pieces;
mod remembered;
mod shortening;
mod steps;

pub use branch_and_bound::close_node;
pub use ground::Ground;
pub use pieces::BranchAndBound;
pub use remembered::Remembered;
pub use shortening::shortened;
pub use steps::{is_closed_by, proposed};
