//! The text of a certificate, written line by line from plans of regions.
#![tactic(auto)]

mod certificate;
mod fault;
mod groups;
mod heading;
mod line;
mod nodes;
mod sections;
mod sink;
mod versions;
mod writing;

pub use certificate::{Planned, write_certificate};
pub use fault::WriteFault;
pub use writing::put_all;
