//! The planner put together: the run of a plan, with the strategy that proposes. What it answers and writes is
//! `IsRunOfPlan` of cave_runs' specs/RunOfPlan.antt.
ghost use Rattle.std.specs.Prelude.{option_copied};
ghost use Rattle.cave_model.specs.RuleOf.{rule_of};
ghost use Rattle.cave_runs.specs.RunOfPlan.{IsRunOfPlan};
ghost use Rattle.cave_runs.specs.Streams.{inputs, outputs, stream};
ghost use Rattle.torch_plan.specs.Given.{given};

use crate::crew::Crew;
use crate::resources::Resources;
use cave_model::Rule;
use cave_runs::{Allowance, Outcome, Planner, RunFault, Watcher, run_planner};
use instance_regions::Region;
use plan_options::PlanOpts;
use search_core::plan_by_one;
use search_moves::Moves;
use std::io::{Read, Write};
use std::sync::{Arc, Wait};
use std::thread::Threads;

/// The run of a plan by this project's own strategy: by one worker without a thread, by more with a thread for each.
pub fn run_plan<X, O, R, W, V>(
    resources: &Resources<'_, X, O>,
    reader: &mut R,
    table: Option<&[u8]>,
    opts: &PlanOpts,
    writer: &mut W,
    proof: &mut V,
) -> Result<Outcome, RunFault>
where
    X: Threads + Wait + Sync,
    O: Watcher,
    R: Read,
    W: Write,
    V: Write,
    ensures { IsRunOfPlan (inputs (stream (R.remaining reader.old) (R.remaining reader.new))
        (option_copied table.entry) (rule_of opts.now.rule)) (given opts.now.workers.number opts.now.turns) result
        (outputs (stream (W.contents writer.old) (W.contents writer.new))
        (stream (V.contents proof.old) (V.contents proof.new))) }
{
    if opts.workers.number == 1 {
        return run_plan_alone(
            resources, reader, table, opts.rule, opts.turns, writer, proof,
        );
    }
    let crew = Crew {
        resources: &*resources,
        workers: opts.workers,
    };
    let planner = Planner {
        allowance: Allowance {
            workers: opts.workers.number,
            turns: opts.turns,
        },
        plan: |region: &Arc<Region>| crew.plan_region::<Moves>(region, opts.turns),
        observer: resources.observer,
    };
    let alloc = resources.alloc;
    run_planner(alloc, reader, table, opts.rule, &planner, writer, proof)
}

/// The run of a plan by one worker, the caller's thread: whatever the resources have for threads, it starts none, waits
/// for nobody, and is proved to return.
pub fn run_plan_alone<X, O, R, W, V>(
    resources: &Resources<'_, X, O>,
    reader: &mut R,
    table: Option<&[u8]>,
    rule: Rule,
    turns: Option<u64>,
    writer: &mut W,
    proof: &mut V,
) -> Result<Outcome, RunFault>
where
    O: Watcher,
    R: Read,
    W: Write,
    V: Write,
    ensures { IsRunOfPlan (inputs (stream (R.remaining reader.old) (R.remaining reader.new))
        (option_copied table.entry) (rule_of rule)) (given 1 turns) result
        (outputs (stream (W.contents writer.old) (W.contents writer.new))
        (stream (V.contents proof.old) (V.contents proof.new))) }
{
    let alloc = resources.alloc;
    let observer = resources.observer;
    let planner = Planner {
        allowance: Allowance { workers: 1, turns },
        plan: |region: &Arc<Region>| plan_by_one::<Moves, O>(alloc, region, turns, observer),
        observer,
    };
    run_planner(alloc, reader, table, rule, &planner, writer, proof)
}
