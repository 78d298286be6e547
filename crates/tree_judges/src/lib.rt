//! Judges of what is proposed for a node as a whole: trees, places that are left out, a region with fewer places; and
//! trees by numbers in place of indices. What a judge takes is right.
#![tactic(auto)]

mod bars;
mod numbering;
mod omission;
mod open_lists;
mod thinning;
mod tree_judge;
mod weighted_leaf;

pub use bars::take_bars;
pub use numbering::with_numbers;
pub use thinning::thin;
pub use tree_judge::is_good;
