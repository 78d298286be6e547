//! Runs the worked cases over the library, from the words of a command line to what is written, and prints for each
//! file of cases how many it has, how many runs they took, and how many differ; of each that differs, what was due and
//! what came.
//!
//! The words are names of files: the caves, the texts that cases name, and then the files of cases. Each says at its
//! top what its lines mean.
#![tactic(auto)]

mod cases;
mod caves;
mod changes;
mod commands;
mod due;
mod fields;
mod judging;
mod machine;
mod record;
mod running;
mod series;
mod shelf;
mod sides;
mod texts;

use crate::caves::put_caves;
use crate::running::{Tally, tried};
use crate::shelf::Shelf;
use crate::texts::put_texts;
use std::test::Fail;
use std::{env, fs};

/// The caves and the texts that cases name.
fn shelf_of(rt: &HostRuntime, caves: &str, texts: &str) -> Result<Shelf, Fail> {
    let alloc = rt.alloc();
    let mut shelf = Shelf::new(alloc);
    let text = fs::read_to_string(rt, caves)?;
    put_caves(alloc, &mut shelf, text.as_str())?;
    let text = fs::read_to_string(rt, texts)?;
    put_texts(alloc, &mut shelf, text.as_str())?;
    Ok(shelf)
}

/// Prints what came of the cases of a file.
fn print(rt: &HostRuntime, path: &str, tally: &Tally) -> Result<(), Fail> {
    let cases = tally.cases;
    let runs = tally.runs;
    let differ = tally.differences.len();
    println!(rt; "{path}: {cases} cases, {runs} runs, {differ} differ")?;
    for line in &tally.differences {
        println!(rt; "  {line}")?;
    }
    Ok(())
}

fn main(rt: HostRuntime) -> Result<(), Fail> {
    let words: Vec<String> = env::args(&rt)?.collect(rt.alloc())?;
    let [_, caves, texts, paths @ ..] = words.as_slice() else {
        return Err(Fail::new("files of caves, texts and cases are to be named"));
    };
    let shelf = shelf_of(&rt, caves, texts)?;
    for path in paths {
        let text = fs::read_to_string(&rt, path.as_str())?;
        let tally = tried(&rt, rt.alloc(), &shelf, text.as_str())?;
        print(&rt, path, &tally)?;
    }
    Ok(())
}
