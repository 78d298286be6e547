//! The event core: what any number of workers did to close a region, replayed one event after another.
#![tactic(auto)]

mod assembling;
mod closing;
mod event;
mod event_state;
mod joining;
pub mod laws;
mod looking;
mod node;
mod opening;
mod putting;
mod stepping;
mod steps;
mod taking;
mod tracing;
mod waiting;

pub use event::Event;
pub use event_state::Core;
