//! One shared word that holds the least size told so far, and a seat for each thread.
#![tactic(auto)]

mod beacon;
mod known;
mod rule;
mod seat;

pub use beacon::Beacon;
pub use seat::Seat;
