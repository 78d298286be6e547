//! What a run asks of the system that it is started on (`System`), what it tells while it goes on, and the exit status
//! of a fault. The program and tests bring systems of their own.
#![tactic(auto)]

mod advance;
mod status;
mod system;

pub use advance::Advance;
pub use status::status_of;
pub use system::System;
