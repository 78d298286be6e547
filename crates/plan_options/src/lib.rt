//! What a plan is made by: how many workers search, the rule of spawning, and how far the search may go.
#![tactic(auto)]

mod options;
mod workers;

pub use options::PlanOpts;
pub use workers::Workers;
