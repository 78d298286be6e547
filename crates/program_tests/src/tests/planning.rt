//! What runs of `plan` are made by, and what is read of them.

use std::alloc::{AllocError, Global};
use std::process::Abort;
use torch_plan::{PlanOpts, Rule, RunFault, Workers};

/// The words of a fault.
pub fn line_of(alloc: Global, fault: &RunFault) -> Result<String, AllocError> {
    format!(in alloc; "{fault}")
}

/// `count` workers, which are 1 to 64.
pub fn workers(rt: &impl Abort, count: u32) -> Workers {
    Workers::new(count).expect(rt, "1 to 64 workers")
}

/// One worker, with `turns` turns or any number of them.
pub fn alone(rt: &impl Abort, rule: Rule, turns: Option<u64>) -> PlanOpts {
    shared(rt, 1, rule, turns)
}

/// `count` workers, which share `turns` turns or any number of them.
pub fn shared(rt: &impl Abort, count: u32, rule: Rule, turns: Option<u64>) -> PlanOpts {
    PlanOpts {
        rule,
        workers: workers(rt, count),
        turns,
    }
}

/// One worker with all the turns, under the rule of 1.18.
pub fn freely(rt: &impl Abort) -> PlanOpts {
    alone(rt, Rule::new(2, 1), None)
}

/// How many lines begin with this byte and a space.
pub fn lines_with(text: &[u8], first: u8) -> usize {
    let begins = |pair: &[u8]| pair.first() == Some(&first) && pair.get(1) == Some(&b' ');
    text.split(|byte| *byte == b'\n')
        .filter(|line| begins(line))
        .count()
}
