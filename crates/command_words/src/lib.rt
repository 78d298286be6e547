//! The words of a command line: the commands with their options, and what words ask for. Nothing is run here.
#![tactic(auto)]

mod command;
mod request;
mod version;

pub use request::{Request, request_of};
