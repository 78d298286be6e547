//! What is left of a region below some chosen and barred places, and judges of what a search proposes for it, all by
//! the indices of cells and places. A search may propose anything: what a judge accepts is proved, and what it refuses
//! costs only time.
#![tactic(auto)]

mod cover;
mod dominance;
mod greedy;
mod judge;
pub mod laws;
mod node;
mod numbering;
mod openings;
mod packing;
mod pieces;

pub use cover::cover_of;
pub use dominance::dominated;
pub use greedy::{first_places, first_plan};
pub use judge::{is_bar, is_cover, is_leaf, mark_unlit, may_be_picked, may_give_way, open_places};
pub use node::{Node, first_unlit};
pub use numbering::{number_at, numbers_of_cells, numbers_of_places};
pub use openings::places_for;
pub use packing::packed;
pub use pieces::{node_of, scattered};
