//! What a plan is made by.
use crate::workers::Workers;
use cave_model::Rule;

/// What a plan is made by: the rule of spawning, how many workers search, and how many nodes the search of a region may
/// work on.
#[derive(Clone, Copy, Debug, PartialEq, Eq)]
pub struct PlanOpts {
    pub rule: Rule,
    pub workers: Workers,
    pub turns: Option<u64>,
}
