//! The run of levels over the files of a system.
ghost use Rattle.std.specs.Prelude.{◌≡◌, ◌⊎◌, IfErr, IfOk, IfSome, option_copied, option_map};
ghost use Rattle.cave_model.specs.RuleOf.{rule_of};
ghost use Rattle.cave_runs.specs.TextRuns.{IsOfInput};
ghost use Rattle.cave_runs.specs.declared.fault.Input.TheVariants.{PlanInput};
ghost use Rattle.cave_runs.specs.declared.fault.RunFault.{RunFault};
ghost use Rattle.run_system.specs.Sources.{LacksNamed};
ghost use Rattle.cave_runs.specs.Streams.{stream};
ghost use Rattle.torch_plan.specs.Answers.{AnswersLevels, IsOfPlan, named_in};

use crate::environment::Environment;
use crate::runs::table_of;
use cave_model::Rule;
use cave_runs::{RunFault, Watcher, read_plan, run_levels};
use run_system::System;
use std::alloc::Global;
use std::io::Write;

/// The bytes of the plan's text, where one is named. It is read before the structure is opened.
fn plan_text_of<S: System>(
    alloc: Global,
    system: &S,
    plan: Option<&str>,
) -> Result<Option<Vec<u8>>, RunFault>
    ensures known { IfOk result (λ read. IfSome (named_in (S.sources system.now) (option_copied plan.entry))
        (λ text. option_map (λ v. v.items) read ≡ text)) }
    ensures fault { IfErr result (λ e. (e ≡ RunFault.ReadFailed) ⊎ (e ≡ RunFault.TooLong PlanInput)
        ⊎ (e ≡ RunFault.OutOfMemory)) }
    ensures long { IfErr result (λ e. IsOfInput e
        → IsOfPlan (S.sources system.now) (option_copied plan.entry) e) }
    ensures there { IfOk result (λ _. ¬ LacksNamed (S.sources system.now) (option_copied plan.entry)) }
{
    let Some(path) = plan else {
        return Ok(None);
    };
    match system.open(path) {
        Some(mut input) => Ok(Some(read_plan(alloc, &mut input)?)),
        None => Err(RunFault::ReadFailed),
    }
}

/// The levels of light of a structure, with the torches of a plan, where one is named.
pub(crate) fn answer_levels<X, S, O, W>(
    environment: &Environment<'_, X, S, O>,
    file: &str,
    plan: Option<&str>,
    table: Option<&str>,
    rule: Rule,
    output: &mut W,
) -> Result<(), RunFault>
where
    S: System,
    O: Watcher,
    W: Write,
    ensures { AnswersLevels (S.sources environment.now.system.now) file.now (option_copied plan.entry)
        (option_copied table.entry) (rule_of rule) (stream (W.contents output.old) (W.contents output.new)) result }
{
    let alloc = environment.resources.alloc;
    let system = environment.system;
    let observer = environment.resources.observer;
    let table = table_of(alloc, system, table)?;
    let table = table.as_deref();
    let plan = plan_text_of(alloc, system, plan)?;
    let plan = plan.as_deref();
    if file == "-" {
        let mut input = system.standard();
        return run_levels(alloc, &mut input, table, rule, plan, observer, output);
    }
    match system.open(file) {
        Some(mut input) => run_levels(alloc, &mut input, table, rule, plan, observer, output),
        None => Err(RunFault::ReadFailed),
    }
}
