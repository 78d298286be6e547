//! What the words of a command line ask for is done, over whatever opens files for it, and an exit status answered.
#![tactic(auto)]

mod answering;
mod crew;
mod environment;
mod levels;
mod memory;
mod planner;
mod resources;
mod rows;
mod runs;

pub use answering::answer;
pub use cave_model::Rule;
pub use cave_runs::{
    Input, Name, Observer, OpenSides, Outcome, RunFault, Unkept, Unobserved, Verdict, Watcher,
    read_plan, read_table, run_check, run_dark, run_levels, run_rows,
};
pub use command_words::{Request, request_of};
pub use memory::{Ended, NamedFile, answer_in_memory};
pub use plan_options::{PlanOpts, Workers};
pub use planner::{run_plan, run_plan_alone};
pub use resources::Resources;
pub use run_system::{Advance, System, status_of};
