//! The plan of a cave: its regions planned one after another, and the text that is printed of it.
#![tactic(auto)]

mod course;
mod drawing;
mod fault;
pub mod laws;
mod outline;

pub use drawing::plan_text;
pub use fault::PlanFault;
pub use outline::{Outline, plan_cave};
pub use search_traits::{
    Allowance, BestPlan, Observer, Planner, RegionFault, RegionPlan, Unobserved,
};
