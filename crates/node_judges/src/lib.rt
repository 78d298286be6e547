//! The judges of nodes of a proof tree by lists of which place lights what, for the checker alone: whether
//! cells or groups may stand in a leaf, a cell may be branched on, a place left out for another, cells left out, a
//! place picked.
#![tactic(auto)]

mod leaf;
mod loads;
mod setting;
mod tally;
mod testing;
mod weighted;

pub use leaf::is_leaf;
pub use setting::Setting;
pub use tally::Tally;
pub use testing::{are_left, is_dominated, is_free, left_of, mark, may_be_picked};
pub use weighted::is_weighted;
