//! A run of the program: what the words of its command line ask for is done, and an exit status answered.
ghost use Rattle.std.specs.Io.KnownBytes.{Keeps};
ghost use Rattle.std.specs.Prelude.{◌≡◌, ◌⊎◌, IsFalse, IsTrue, map, option_copied, string_bytes};
ghost use Rattle.clap.specs.Words.{kind_of};
ghost use Rattle.cave_runs.specs.Streams.{stream};
ghost use Rattle.run_system.specs.Sources.{MayOverwrite, MayStandApart};
ghost use Rattle.run_system.specs.Status.{IsRefused, status};
ghost use Rattle.torch_plan.specs.Answers.{Answers, check_status, text_status, plan_status};
ghost use Rattle.torch_plan.specs.Kept.{held_by};
ghost use Rattle.torch_plan.specs.Usage.{explained_status};

use crate::environment::Environment;
use crate::levels::answer_levels;
use crate::resources::Resources;
use crate::rows::answer_rows;
use crate::runs::{answer_check, answer_dark, answer_plan};
use cave_runs::{Outcome, RunFault, Verdict, Watcher};
use clap::Error;
use clap::error::ErrorKind;
use command_words::{Request, request_of};
use run_system::{System, status_of};
use std::io::Write;
use std::sync::Wait;
use std::thread::Threads;

/// The mistake of a file for the proof that is read too, or is the output.
const OVERWRITING: &str = "--proof would write over a file that is read, or over the output";

/// Prints the fault line, and answers its status.
fn refused<S: System>(system: &S, fault: &RunFault) -> u8
    ensures { result ≡ status fault.now }
{
    system.print_fault(fault);
    status_of(fault)
}

/// The status of a run that writes a text alone: 0, or that of the fault, whose line is printed.
fn status_of_text<S: System>(system: &S, ended: Result<(), RunFault>) -> u8
    ensures { result ≡ text_status ended }
{
    match ended {
        Ok(()) => 0,
        Err(fault) => refused(system, &fault),
    }
}

/// The status of a plan: 0, or 5 where it was stopped, or that of the fault, whose line is printed.
fn status_of_plan<S: System>(system: &S, ended: Result<Outcome, RunFault>) -> u8
    ensures { result ≡ plan_status ended }
{
    match ended {
        Ok(Outcome::Done { .. }) => 0,
        Ok(Outcome::Stopped { .. }) => 5,
        Err(fault) => refused(system, &fault),
    }
}

/// The status of a check: 0, or 4 where the certificate is rejected, or that of the fault, whose line is printed.
fn status_of_check<S: System>(system: &S, ended: Result<Verdict, RunFault>) -> u8
    ensures { result ≡ check_status ended }
{
    match ended {
        Ok(Verdict::Accepted { .. }) => 0,
        Ok(Verdict::Rejected(_)) => 4,
        Err(fault) => refused(system, &fault),
    }
}

/// Prints the help that was asked for, or the mistake in usage.
fn explained<S: System>(system: &S, error: &Error) -> u8
    ensures memory { kind_of error.now ≡ ErrorKind.OutOfMemory → result ≡ 7 }
    ensures status { (result ≡ 7) ⊎ (result ≡ 6) ⊎ (result ≡ explained_status (kind_of error.now)) }
{
    if error.kind() == ErrorKind::OutOfMemory {
        return refused(system, &RunFault::OutOfMemory);
    }
    if !system.print_help(error) {
        return refused(system, &RunFault::WriteFailed);
    }
    if error.use_stderr() { 2 } else { 0 }
}

/// Whether writing to the file for the proof would write over one that is read, or over standard output.
fn is_overwriting<S: System>(
    system: &S,
    proof: Option<&str>,
    file: &str,
    table: Option<&str>,
) -> bool
    ensures over { IsTrue result → MayOverwrite (S.sources system.now) (option_copied proof.entry) file.now
        (option_copied table.entry) }
    ensures apart { IsFalse result → MayStandApart (S.sources system.now) (option_copied proof.entry) file.now
        (option_copied table.entry) }
{
    let Some(proof) = proof else {
        return false;
    };
    if system.is_output(proof) {
        return true;
    }
    if system.is_same(proof, file) {
        return true;
    }
    match table {
        Some(table) => system.is_same(proof, table),
        None => false,
    }
}

/// Does what the words of a command line ask for, of which the first is the program's name, and answers the exit
/// status: 0 done, or help that was asked for; 1 refused input; 2 a mistake in usage; 3 a cell that no torch lights;
/// 4 a certificate that is rejected; 5 a plan whose turns were spent; 6 reading or writing failed; 7 memory or threads
/// refused (this project's own). What is asked for is written to the output, help by the system. The file that was made
/// for a proof, if one was, is handed back. The observer is told of a plan while it goes on, and where free cells lie
/// at a side of the box, as of dark cells and levels.
pub fn answer<X, O, S, W>(
    resources: &Resources<'_, X, O>,
    system: &S,
    words: &[String],
    output: &mut W,
) -> (u8, Option<S::Kept>)
where
    X: Threads + Wait + Sync,
    O: Watcher,
    S: System,
    W: Write,
    // Where the words are well formed, what they ask for is done over the system's files, and the file that is handed
    // back holds the certificate; else help is explained where they ask for it, or the mistake in usage that they make.
    ensures does { Answers (S.sources system.now) (map (λ word. string_bytes word) words.now)
        (stream (W.contents output.old) (W.contents output.new)) (held_by S.Kept.contents result.1) result.0 }
    // A refused input, a mistake in usage, and refused memory or threads leave the output as it was.
    ensures silent { IsRefused result.0 → Keeps (W.contents output.old) (W.contents output.new) }
{
    let environment = Environment {
        resources: &*resources,
        system,
    };
    let request = match request_of(resources.alloc, words) {
        Ok(request) => request,
        Err(error) => return (explained(system, &error), None),
    };
    match request {
        Request::Dark {
            file,
            table,
            rule,
            progress,
        } => {
            system.watch(progress);
            let ended = answer_dark(&environment, file, table, rule, output);
            (status_of_text(system, ended), None)
        }
        Request::Plan {
            file,
            table,
            opts,
            proof,
            progress,
        } => {
            if is_overwriting(system, proof, file, table) {
                system.print_mistake(OVERWRITING);
                return (2, None);
            }
            system.watch(progress);
            let (ended, kept) = answer_plan(&environment, file, table, &opts, proof, output);
            (status_of_plan(system, ended), kept)
        }
        Request::Check {
            file,
            proof,
            table,
            rule,
        } => {
            let ended = answer_check(&environment, file, proof, table, rule, output);
            (status_of_check(system, ended), None)
        }
        Request::Levels {
            file,
            plan,
            table,
            rule,
            progress,
        } => {
            system.watch(progress);
            let ended = answer_levels(&environment, file, plan, table, rule, output);
            (status_of_text(system, ended), None)
        }
        Request::Rows { file, table } => {
            let ended = answer_rows(&environment, file, table, output);
            (status_of_text(system, ended), None)
        }
    }
}
