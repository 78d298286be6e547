//! The run of rows over the files of a system.
ghost use Rattle.std.specs.Prelude.{option_copied};
ghost use Rattle.cave_runs.specs.Streams.{stream};
ghost use Rattle.torch_plan.specs.Answers.{AnswersRows};

use crate::environment::Environment;
use crate::runs::table_of;
use cave_runs::{RunFault, run_rows};
use run_system::System;
use std::io::Write;

/// The rows that serve the block states of a structure.
pub(crate) fn answer_rows<X, S, O, W>(
    environment: &Environment<'_, X, S, O>,
    file: &str,
    table: Option<&str>,
    output: &mut W,
) -> Result<(), RunFault>
where
    S: System,
    W: Write,
    ensures { AnswersRows (S.sources environment.now.system.now) file.now (option_copied table.entry)
        (stream (W.contents output.old) (W.contents output.new)) result }
{
    let alloc = environment.resources.alloc;
    let system = environment.system;
    let table = table_of(alloc, system, table)?;
    let table = table.as_deref();
    if file == "-" {
        return run_rows(alloc, &mut system.standard(), table, output);
    }
    match system.open(file) {
        Some(mut input) => run_rows(alloc, &mut input, table, output),
        None => Err(RunFault::ReadFailed),
    }
}
