//! What a checker may accept, and why it refuses; the judge of a certificate's lines; and the calls that read a
//! certificate, in memory or from a reader, and answer with a verdict.
#![tactic(auto)]

mod checking;
mod ending;
mod ends;
mod fault;
mod homes;
mod judge;
pub mod laws;
mod node_lines;
mod nodes;
mod parts;
mod reading;
mod reason;
mod track;
mod trial;
mod verdict;
mod weighing;

pub use checking::{check, check_from};
pub use fault::CheckFault;
pub use reading::{READ_CALLS, READ_SIZE};
pub use reason::Reason;
pub use verdict::Verdict;
