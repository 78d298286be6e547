//! The system that the program runs on: its files, its streams, and lines about a run on standard error. Nothing is
//! promised of it.
#![tactic(auto)]

mod host;
mod progress;
mod words;

pub use host::Host;
pub use progress::Progress;
pub use words::{spare_descriptors, words_of};
