//! The judging of a certificate, from the bytes read to the bytes written: `IsRunOfCheck` of specs/RunOfCheck.antt.
ghost use Rattle.std.specs.Prelude.{◌≡◌, IfOk, option_copied, string_bytes};
ghost use Rattle.cave_model.specs.RuleOf.{rule_of};
ghost use Rattle.cave_runs.specs.CheckRuns.{verdict_line};
ghost use Rattle.cave_runs.specs.RunOfCheck.{IsRunOfCheck};
ghost use Rattle.cave_runs.specs.Streams.{inputs, stream};

use crate::fault::{Input, RunFault};
use crate::limits::{PROOF_LIMIT, STRUCTURE_LIMIT};
use crate::reading::read_all;
use crate::writing::put_all;
use cave_model::Rule;
use proof_check::{Verdict, check_from};
use std::alloc::{AllocError, Global};
use std::io::{Read, Write};

/// The line of a verdict.
fn line_of(alloc: Global, verdict: Verdict) -> Result<String, AllocError>
    ensures { IfOk result (λ s. string_bytes s ≡ verdict_line verdict) }
{
    format!(in alloc; "{verdict}\n")
}

/// Reads a structure and then a certificate to the ends of their readers, and writes what is to be said of the
/// certificate: `accepted n`, or `rejected: ` and the reason. The rows are those of the user's table, where there is
/// one, before the shipped ones. A certificate may have 1,073,741,824 bytes; one line of it is kept at a time.
pub fn run_check<R, C, W>(
    alloc: Global,
    reader: &mut R,
    table: Option<&[u8]>,
    rule: Rule,
    certificate: &mut C,
    writer: &mut W,
) -> Result<Verdict, RunFault>
where
    R: Read,
    C: Read,
    W: Write,
    ensures { IsRunOfCheck
        (inputs (stream (R.remaining reader.old) (R.remaining reader.new)) (option_copied table.entry) (rule_of rule))
        (stream (C.remaining certificate.old) (C.remaining certificate.new)) result
        (stream (W.contents writer.old) (W.contents writer.new)) }
{
    let bytes = read_all(alloc, reader, STRUCTURE_LIMIT, Input::StructureInput)?;
    let verdict = check_from(alloc, &bytes, table, rule, certificate, PROOF_LIMIT)?;
    let line = line_of(alloc, verdict)?;
    put_all(writer, line.as_bytes())?;
    Ok(verdict)
}
