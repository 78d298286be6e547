//! The cave: a class for each cell of a box, and a rule of spawning. Which cells share a face, how light spreads,
//! where hostile mobs spawn and where torches go are definitions of this crate's specs; each has its source there.
#![tactic(auto)]

mod face;
mod hang;
pub mod laws;
mod neighbours;
mod passages;
mod rule;
mod spawn;
mod world;

pub use hang::{Hang, TORCH_LIGHT};
pub use passages::Passages;
pub use rule::Rule;
pub use std::alloc::AllocError as OutOfMemory;
pub use world::World;
