//! The cave that bytes tell: a structure and a table of rows make the class of each cell.
#![tactic(auto)]

mod building;
mod cave_fault;
mod fault;
pub mod laws;
mod name;
mod reading;

pub use building::build;
pub use cave_fault::CaveFault;
pub use fault::BuildFault;
pub use name::ShownName;
pub use reading::{read_cave, read_parts};
