//! Small regions for tests of the search, from the cells that their places light.
#![tactic(auto)]

mod making;

pub use making::made;
