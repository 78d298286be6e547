//! Who plans the regions of a cave.

use instance_regions::Cover;
use proof_tree::Proof;

/// A cover, a tree, and how many turns were granted.
#[derive(Drop)]
pub struct BestPlan {
    pub cover: Cover,
    pub proof: Proof,
    pub turns: u64,
}

/// How many workers plan, and how many turns each region has, or any number of them.
#[derive(Clone, Copy, Debug, PartialEq, Eq)]
pub struct Allowance {
    pub workers: u32,
    pub turns: Option<u64>,
}

/// What is promised of a plan doesn't tell who made it. `plan` plans one region, as `PlansRegions` says. Who makes it
/// holds the handles for threads, if it starts some; so what is planned by one that starts none is proved to return.
#[derive(Drop)]
pub struct Planner<'o, F, O> {
    pub allowance: Allowance,
    pub plan: F,
    /// Who is told of each region before it is planned.
    pub observer: &'o O,
}
