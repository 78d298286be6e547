//! The search for the fewest places, as far as it is proved: by rounds, each of which proves a size, and which one
//! thread makes or many. It is generic over the strategy, of which nothing is promised.
#![tactic(auto, using(node_search::proofs::StepRules::search_steps))]

mod beginning;
mod carrying;
mod core_rounds;
mod leaf_sizes;
mod one_worker;
mod rounds;
mod shared_rounds;
mod told;

pub use beginning::{at_root, first_cover};
pub use one_worker::{plan_by, plan_by_one};
pub use rounds::{ByOne, Rounds};
pub use shared_rounds::ByMany;
pub use told::Told;
