//! The linear relaxation of a set cover instance, in fixed point: weights of cells of which no place lights more than
//! one in all, found by steps of a primal-dual method, and what they show to be needed. All of it proposes, and nothing
//! is promised of it but that it ends and stays in bounds: judges accept or refuse what is made of it.
//!
//! The instance is a part of a larger one. From outside a cell or a place of it comes as `InPart`. Inside numbers are
//! plain for the most part: there is no second numbering to mix them up with.
#![tactic(auto)]

mod active_set;
mod ends;
mod fewer_cells;
mod fixed_point;
mod in_part;
mod indices;
mod lane_numbers;
mod lane_side;
mod lane_steps;
mod lane_weights;
mod lanes;
mod relaxation;
mod rounding;
mod run_lists;
mod runs;
mod side;
mod sides;
mod unrounded;
mod whole_weights;

pub use fixed_point::{BITS, ONE, add_at, at, most_at, numbers_at, ones};
pub use in_part::InPart;
pub use indices::{mark, number_all};
pub use lanes::{LANES, Lanes};
pub use relaxation::Relaxation;
pub use rounding::places_for;
pub use whole_weights::WholeWeights;
