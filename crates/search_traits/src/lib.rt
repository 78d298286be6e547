//! The roles of a search, and what they tell each other: who proposes, who closes pieces, where a size to beat is
//! shown, who is told how it gets on, and who plans a region, whether by one thread or by many. Those who search and
//! those who ask for a plan stand on these alone, and not on each other.
#![tactic(auto)]

mod aimed;
mod alone;
mod close_fault;
mod closer;
mod desk;
mod halt;
mod observer;
mod planner;
mod proposer;
mod region_fault;
mod round_desk;
mod shared_search;
mod so_far;
mod two_searches;
mod worked;

pub use aimed::AimedDesk;
pub use alone::AloneDesk;
pub use close_fault::CloseFault;
pub use closer::Closer;
pub use desk::Desk;
pub use halt::Halt;
pub use observer::{Observer, Unobserved};
pub use planner::{Allowance, BestPlan, Planner};
pub use proposer::{Proposal, Proposer, Strategy, Task};
pub use region_fault::{RegionFault, RegionPlan};
pub use round_desk::RoundDesk;
pub use shared_search::SharedSearch;
pub use so_far::SoFar;
pub use two_searches::{
    are_spent, first_of, rest_of, smaller_of, stopped, with_earlier, with_known,
};
pub use worked::Worked;
