//! A round of a search by many workers: each has a deque of pieces, and all see the size of the best cover. What comes
//! of it is `IsMerged` of specs/Reports.antt, or `StopsPool`.
#![tactic(auto)]

mod deques;
mod ledger;
mod memories;
mod merging;
mod piece_counts;
mod pool;
mod report;
mod round;
mod run;
mod slots;
mod starting;
mod unrun;
mod worker;

pub use plan_options::Workers;
pub use report::Report;
pub use round::run_round;
