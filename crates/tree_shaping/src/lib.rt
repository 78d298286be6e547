//! What is done to trees beside the search: the places left out above a branch, finished trees made shorter, and trees
//! of a region's core carried into the whole region. All of it proposes, and nothing is promised of it but that it ends
//! and stays in bounds: judges accept or refuse.
#![tactic(auto)]

mod barring;
mod carrying;
mod groups;
mod kernel_cells;
mod lessening;
mod needless_kids;
mod node_rows;
mod pruning;
mod spoken;

pub use barring::{bars_at_first, bars_for, bars_for_pick};
pub use carrying::{below_core, core_places, in_core, indices_in, with_indices};
pub use lessening::without_needless_kids;
pub use pruning::pruned_tree;
