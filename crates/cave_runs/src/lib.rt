//! The runs of torchplan, from bytes read to bytes written.
#![tactic(auto)]

mod check;
mod dark;
mod fault;
mod levels;
mod levels_text;
mod limits;
mod plan;
mod reading;
mod rows;
mod rows_text;
mod sides;
mod text;
mod unkept;
mod watcher;
mod writing;

pub use cave_plan::{Allowance, Observer, Planner, Unobserved};
pub use check::run_check;
pub use dark::run_dark;
pub use fault::{Input, RunFault};
pub use levels::run_levels;
pub use plan::{Outcome, run_planner};
pub use proof_check::Verdict;
pub use proof_tree::Name;
pub use reading::{read_plan, read_table};
pub use rows::run_rows;
pub use sides::OpenSides;
pub use unkept::Unkept;
pub use watcher::Watcher;
