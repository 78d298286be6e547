//! Block light by flooding: the level of every cell, and what one emission alone reaches.
//!
//! A flood goes through the levels from 15 down: each cell that has the level passes light on to its neighbours, so
//! each is passed on once (Minecraft Wiki, "Light").
#![tactic(auto)]

mod darkness;
mod flood;
mod level_map;
mod levels;
mod reached;
mod reaching;
mod spreading;
mod store;
mod waiting;

pub use darkness::dark_cells;
pub use flood::light;
pub use levels::Levels;
pub use reached::Reach;
pub use reaching::reach;
