//! The runs over the files of a system.
ghost use Rattle.std.specs.Io.KnownBytes.{Keeps};
ghost use Rattle.std.specs.Prelude.{◌≡◌, ◌≢◌, ◌<◌, ◌⊎◌, IfErr, IfOk, IfSome, option_copied, option_map};
ghost use Rattle.cave_model.specs.RuleOf.{rule_of};
ghost use Rattle.cave_runs.specs.PlanRuns.{BeginsPlan, IsNoPlanOfInput, Plans};
ghost use Rattle.cave_runs.specs.Streams.{outputs, stream};
ghost use Rattle.cave_runs.specs.TextRuns.{IsOfInput};
ghost use Rattle.cave_runs.specs.declared.fault.Input.TheVariants.{TableInput};
ghost use Rattle.cave_runs.specs.declared.fault.RunFault.{RunFault};
ghost use Rattle.run_system.specs.Sources.{LacksNamed, made_in};
ghost use Rattle.torch_plan.specs.Answers.{AnswersCheck, AnswersDark, AnswersPlan, IsOfTable, LeavesMade};
ghost use Rattle.torch_plan.specs.Answers.{LeavesOutput, named_in};
ghost use Rattle.torch_plan.specs.Given.{given};
ghost use Rattle.torch_plan.specs.Kept.{held_by};

use crate::environment::Environment;
use crate::planner::run_plan;
use cave_model::Rule;
use cave_runs::{Outcome, RunFault, Unkept, Verdict, Watcher, read_table, run_check, run_dark};
use plan_options::PlanOpts;
use run_system::System;
use std::alloc::Global;
use std::io::{Read, Write};
use std::sync::Wait;
use std::thread::Threads;

/// The bytes of the user's table, where one is named. It is read before the structure is opened.
pub(crate) fn table_of<S: System>(
    alloc: Global,
    system: &S,
    table: Option<&str>,
) -> Result<Option<Vec<u8>>, RunFault>
    ensures known { IfOk result (λ read. IfSome (named_in (S.sources system.now) (option_copied table.entry))
        (λ rows. option_map (λ v. v.items) read ≡ rows)) }
    ensures fault { IfErr result (λ e. (e ≡ RunFault.ReadFailed) ⊎ (e ≡ RunFault.TooLong TableInput)
        ⊎ (e ≡ RunFault.OutOfMemory)) }
    ensures long { IfErr result (λ e. IsOfInput e
        → IsOfTable (S.sources system.now) (option_copied table.entry) e) }
    ensures there { IfOk result (λ _. ¬ LacksNamed (S.sources system.now) (option_copied table.entry)) }
{
    let Some(path) = table else {
        return Ok(None);
    };
    match system.open(path) {
        Some(mut input) => Ok(Some(read_table(alloc, &mut input)?)),
        None => Err(RunFault::ReadFailed),
    }
}

/// The dark cells of a structure.
pub(crate) fn answer_dark<X, S, O, W>(
    environment: &Environment<'_, X, S, O>,
    file: &str,
    table: Option<&str>,
    rule: Rule,
    output: &mut W,
) -> Result<(), RunFault>
where
    S: System,
    O: Watcher,
    W: Write,
    ensures { AnswersDark (S.sources environment.now.system.now) file.now (option_copied table.entry)
        (rule_of rule) (stream (W.contents output.old) (W.contents output.new)) result }
{
    let alloc = environment.resources.alloc;
    let system = environment.system;
    let observer = environment.resources.observer;
    let table = table_of(alloc, system, table)?;
    let table = table.as_deref();
    if file == "-" {
        return run_dark(alloc, &mut system.standard(), table, rule, observer, output);
    }
    match system.open(file) {
        Some(mut input) => run_dark(alloc, &mut input, table, rule, observer, output),
        None => Err(RunFault::ReadFailed),
    }
}

/// Plans what the reader has. The file for the proof is made, or emptied, before it is read, and handed back.
fn plan_from<X, S, O, R, W>(
    environment: &Environment<'_, X, S, O>,
    reader: &mut R,
    table: Option<&[u8]>,
    opts: &PlanOpts,
    proof: Option<&str>,
    output: &mut W,
) -> (Result<Outcome, RunFault>, Option<S::Kept>)
where
    X: Threads + Wait + Sync,
    S: System,
    O: Watcher,
    R: Read,
    W: Write,
    ensures done { IfOk result.0 (λ outcome. IfSome (R.remaining reader.old) (λ bytes.
        Plans bytes (option_copied table.entry) (rule_of opts.now.rule)
        (given opts.now.workers.number opts.now.turns) outcome
        (outputs (stream (W.contents output.old) (W.contents output.new))
        (stream (made_in (S.sources environment.now.system.now) (option_copied proof.entry))
        (held_by S.Kept.contents result.1))))) }
    ensures left { LeavesOutput result.0 (stream (W.contents output.old) (W.contents output.new)) }
    ensures begun { IfErr result.0 (λ e. e ≡ RunFault.WriteFailed
        → Keeps (W.contents output.old) (W.contents output.new)
        ⊎ IfSome (R.remaining reader.old) (λ bytes. BeginsPlan bytes (option_copied table.entry) (rule_of opts.now.rule)
        (given opts.now.workers.number opts.now.turns)
        (outputs (stream (W.contents output.old) (W.contents output.new))
        (stream (made_in (S.sources environment.now.system.now) (option_copied proof.entry))
        (held_by S.Kept.contents result.1))))) }
    ensures fault { IfErr result.0 (λ e. IsOfInput e → e ≢ RunFault.NoThread → IfSome (R.remaining reader.old)
        (λ bytes. IsNoPlanOfInput bytes (option_copied table.entry) (rule_of opts.now.rule) e)) }
    ensures threads { IfErr result.0 (λ e. e ≡ RunFault.NoThread → 1 < opts.now.workers.number) }
    ensures untouched { LeavesMade result.0
        (stream (made_in (S.sources environment.now.system.now) (option_copied proof.entry))
        (held_by S.Kept.contents result.1)) }
{
    let resources = environment.resources;
    let Some(path) = proof else {
        let result = run_plan(resources, reader, table, opts, output, &mut Unkept);
        return (result, None);
    };
    match environment.system.create(path) {
        Some(mut kept) => {
            let result = run_plan(resources, reader, table, opts, output, &mut kept);
            (result, Some(kept))
        }
        None => (Err(RunFault::WriteFailed), None),
    }
}

/// The plan of a structure, and the file for its proof, where one was made.
pub(crate) fn answer_plan<X, S, O, W>(
    environment: &Environment<'_, X, S, O>,
    file: &str,
    table: Option<&str>,
    opts: &PlanOpts,
    proof: Option<&str>,
    output: &mut W,
) -> (Result<Outcome, RunFault>, Option<S::Kept>)
where
    X: Threads + Wait + Sync,
    S: System,
    O: Watcher,
    W: Write,
    ensures { AnswersPlan (S.sources environment.now.system.now) file.now (option_copied table.entry)
        (option_copied proof.entry) (rule_of opts.now.rule) (given opts.now.workers.number opts.now.turns)
        (stream (W.contents output.old) (W.contents output.new)) (held_by S.Kept.contents result.1) result.0 }
{
    let system = environment.system;
    let table = match table_of(environment.resources.alloc, system, table) {
        Ok(table) => table,
        Err(fault) => return (Err(fault), None),
    };
    let table = table.as_deref();
    if file == "-" {
        let mut input = system.standard();
        return plan_from(environment, &mut input, table, opts, proof, output);
    }
    match system.open(file) {
        Some(mut input) => plan_from(environment, &mut input, table, opts, proof, output),
        None => (Err(RunFault::ReadFailed), None),
    }
}

/// The verdict on a certificate. Both files are opened before either is read.
pub(crate) fn answer_check<X, S: System, O, W: Write>(
    environment: &Environment<'_, X, S, O>,
    file: &str,
    proof: &str,
    table: Option<&str>,
    rule: Rule,
    output: &mut W,
) -> Result<Verdict, RunFault>
    ensures { AnswersCheck (S.sources environment.now.system.now) file.now proof.now (option_copied table.entry)
        (rule_of rule) (stream (W.contents output.old) (W.contents output.new)) result }
{
    let alloc = environment.resources.alloc;
    let system = environment.system;
    let table = table_of(alloc, system, table)?;
    let table = table.as_deref();
    if file == "-" {
        return match system.open(proof) {
            Some(mut proof) => {
                let mut input = system.standard();
                run_check(alloc, &mut input, table, rule, &mut proof, output)
            }
            None => Err(RunFault::ReadFailed),
        };
    }
    match (system.open(file), system.open(proof)) {
        (Some(mut input), Some(mut proof)) => {
            run_check(alloc, &mut input, table, rule, &mut proof, output)
        }
        _ => Err(RunFault::ReadFailed),
    }
}
