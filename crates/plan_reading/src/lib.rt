//! A plan's text read back: the torches that it tells, and the cave in which they stand.
#![tactic(auto)]

mod fault;
mod fields;
pub mod laws;
mod lines;
mod placing;
mod reading;
mod torch;

pub use fault::TorchesFault;
pub use placing::with_torches;
pub use reading::read_torches;
pub use torch::ToldTorch;
