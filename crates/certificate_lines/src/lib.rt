//! The lines of a certificate, taken one by one: which fit, and which is the first that doesn't.
#![tactic(auto)]

mod cut;
mod group;
mod kind;
mod line;
mod lines;
mod listed;
mod meaning;
mod node;
mod numbers;
mod pieces;
mod read;
mod shape;
mod stage;
mod step;

pub use cut::cut_line;
pub use kind::LineKind;
pub use lines::{Lines, is_done};
pub use numbers::number;
pub use pieces::Pieces;
pub use read::first_misfit;
pub use stage::Stage;
