//! Proof trees in memory, and the pieces that they close.
#![tactic(auto)]

mod bars;
mod branching;
mod closed;
mod kids;
mod name;
mod opened;
mod piece;
mod proof;

pub use bars::{Bar, wrap};
pub use branching::Branching;
pub use closed::{Closed, floor_of};
pub use name::Name;
pub use opened::Opened;
pub use piece::Piece;
pub use proof::{Below, Kids, Proof};
