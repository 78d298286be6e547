//! The runs of a case: each of its lines, for each number of its series, by each number of workers, from the file that
//! the line names and from standard input, with all bytes at once and one by one.

use crate::cases::{Case, case_of};
use crate::commands::{Command, check_of, command_of, piped};
use crate::fields::{parts_of, unknown};
use crate::judging::{Came, difference};
use crate::machine::Machine;
use crate::record::Record;
use crate::series::Series;
use crate::shelf::{Files, Shelf};
use crate::sides::Sides;
use std::alloc::{AllocError, Global};
use std::sync::Wait;
use std::test::Fail;
use std::thread::Threads;
use torch_plan::{Resources, answer};

/// How many cases a file has, how many runs they took, and for each that differs what was due and what came.
#[derive(Drop)]
pub struct Tally {
    pub cases: u64,
    pub runs: u64,
    pub differences: Vec<String>,
}

/// What runs are of: a case, its files and those of all, and the number of its series, 0 where it has none.
#[derive(Clone, Copy)]
struct Place<'a> {
    alloc: Global,
    case: &'a Case<'a>,
    files: Files<'a>,
    number: usize,
}

/// What comes of a command over these files, where `step` bytes are read and written at a time.
fn came_of<X: Threads + Wait + Sync>(
    rt: &X,
    alloc: Global,
    files: Files<'_>,
    command: &Command<'_>,
    step: usize,
) -> Result<Came, AllocError> {
    let record = Record::new(alloc);
    let machine = Machine {
        alloc,
        files,
        input: command.input,
        step,
        record: &record,
    };
    let sides = Sides::new();
    let mut output = record.output(step);
    let resources = Resources {
        threads: rt,
        alloc,
        observer: &sides,
    };
    let (status, _kept) = answer(&resources, &machine, &command.words, &mut output);
    Ok(Came {
        status,
        told: record.told(),
        out: record.out(),
        made: record.made(),
        edge: sides.line(alloc)?,
    })
}

/// Checks the proof of a plan of `torches` torches: what came where it isn't accepted at that number.
fn accepted_otherwise<X: Threads + Wait + Sync>(
    rt: &X,
    place: Place<'_>,
    plan: &Command<'_>,
    torches: usize,
    proof: Vec<u8>,
) -> Result<Option<String>, Fail> {
    let alloc = place.alloc;
    let mut written = Shelf::new(alloc);
    written.put(alloc, plan.proof, proof)?;
    let files = Files {
        written: &written,
        ..place.files
    };
    let check = check_of(alloc, plan)?;
    let came = came_of(rt, alloc, files, &check, usize::MAX)?;
    let due = format!(in alloc; "accepted {torches}\n")?;
    let status = came.status;
    if status == 0 && came.out.as_slice() == due.as_bytes() {
        return Ok(None);
    }
    Ok(Some(format!(in alloc; "check: accepted {torches} was due, status {status} came")?))
}

/// Runs a command of the case, `step` bytes at a time: what came otherwise than it is due.
fn run_once<X: Threads + Wait + Sync>(
    rt: &X,
    place: Place<'_>,
    command: &Command<'_>,
    step: usize,
) -> Result<Option<String>, Fail> {
    let came = came_of(rt, place.alloc, place.files, command, step)?;
    let due = &place.case.due;
    if let Some(line) = difference(place.alloc, due, &came, place.number)? {
        return Ok(Some(line));
    }
    match (due.torches, came.made) {
        (Some(torches), Some(proof)) => accepted_otherwise(rt, place, command, torches, proof),
        _ => Ok(None),
    }
}

/// Runs a command of the case with all bytes at once and one by one.
fn run_each_step<X: Threads + Wait + Sync>(
    rt: &X,
    place: Place<'_>,
    command: &Command<'_>,
) -> Result<Option<String>, Fail> {
    for (step, how) in [(usize::MAX, ""), (1, ", byte by byte")] {
        if let Some(line) = run_once(rt, place, command, step)? {
            let words = command.line.as_str();
            return Ok(Some(format!(in place.alloc; "{words}{how}: {line}")?));
        }
    }
    Ok(None)
}

/// Runs a line of the case by `workers` workers, from the file that it names and from standard input.
fn run_line<X: Threads + Wait + Sync>(
    rt: &X,
    place: Place<'_>,
    line: &str,
    workers: &str,
    runs: &mut u64,
) -> Result<Option<String>, Fail> {
    let command = command_of(place.alloc, line, workers, place.case.input)?;
    *runs = runs.wrapping_add(2);
    if let Some(told) = run_each_step(rt, place, &command)? {
        return Ok(Some(told));
    }
    if !place.case.is_piped() {
        return Ok(None);
    }
    match piped(place.alloc, place.files, line, workers)? {
        Some(command) => {
            *runs = runs.wrapping_add(2);
            run_each_step(rt, place, &command)
        }
        None => Ok(None),
    }
}

/// Runs each line of the case by each number of workers.
fn run_lines<X: Threads + Wait + Sync>(
    rt: &X,
    place: Place<'_>,
    runs: &mut u64,
) -> Result<Option<String>, Fail> {
    for line in &place.case.lines {
        for workers in &place.case.workers {
            if let Some(told) = run_line(rt, place, line, workers, runs)? {
                return Ok(Some(told));
            }
        }
    }
    Ok(None)
}

/// Runs the case with its file changed as this number of its series says.
fn run_member<X: Threads + Wait + Sync>(
    rt: &X,
    place: Place<'_>,
    series: Series<'_>,
    runs: &mut u64,
) -> Result<Option<String>, Fail> {
    let Some(bytes) = place.files.get(series.file) else {
        return Err(unknown(series.file));
    };
    let changed = series.member(place.alloc, bytes, place.number)?;
    let mut written = Shelf::new(place.alloc);
    written.put(place.alloc, series.file, changed)?;
    let files = Files {
        written: &written,
        ..place.files
    };
    run_lines(rt, Place { files, ..place }, runs)
}

/// Runs the case: the first difference.
fn run_case<X: Threads + Wait + Sync>(
    rt: &X,
    alloc: Global,
    common: &Shelf,
    case: &Case<'_>,
    runs: &mut u64,
) -> Result<Option<String>, Fail> {
    let written = Shelf::new(alloc);
    let files = Files {
        written: &written,
        own: &case.own,
        common,
    };
    let mut place = Place {
        alloc,
        case,
        files,
        number: 0,
    };
    let Some(series) = case.series else {
        return run_lines(rt, place, runs);
    };
    for number in series.from..series.to.saturating_add(1) {
        place.number = number;
        if let Some(told) = run_member(rt, place, series, runs)? {
            return Ok(Some(format!(in alloc; "{number}: {told}")?));
        }
    }
    Ok(None)
}

/// Runs the cases of a file.
pub fn tried<X: Threads + Wait + Sync>(
    rt: &X,
    alloc: Global,
    common: &Shelf,
    text: &str,
) -> Result<Tally, Fail> {
    let mut tally = Tally {
        cases: 0,
        runs: 0,
        differences: Vec::new(alloc),
    };
    for part in parts_of(alloc, text, "case")? {
        let case = case_of(alloc, common, &part)?;
        tally.cases = tally.cases.wrapping_add(1);
        if let Some(told) = run_case(rt, alloc, common, &case, &mut tally.runs)? {
            let name = case.name;
            tally
                .differences
                .push(format!(in alloc; "{name}: {told}")?)?;
        }
    }
    Ok(tally)
}
