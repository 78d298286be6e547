//! A structure file as a palette of block states and the state of each cell.
//!
//! `read_scan` reads the bytes of a structure that a structure block saved (Minecraft Wiki, "Structure
//! file"), unpacked. Cells are numbered by x, then z, then y; the numbering is this project's own.
#![tactic(auto)]

mod block;
mod fault;
pub mod laws;
mod palette;
mod property;
mod read;
mod scan;
mod size;
mod state;
mod value;

pub use fault::{Field, ScanFault};
pub use read::read_scan;
pub use scan::Scan;
pub use state::BlockState;
