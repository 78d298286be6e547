//! The results of workers stand for a list of events of the event core, and every event of it is enabled.
#![tactic(auto)]

pub mod laws;
mod work;

pub use work::Work;
