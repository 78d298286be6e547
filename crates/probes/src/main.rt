//! What scripts measure, and a run that the gate compares.
//!
//! `PART FILE [TIMES]`, where PART is `cave`, `light`, `reach`, `coverage` or `split`, prints what the part counts,
//! after doing it TIMES times; `plan FILE TURNS [RULE]` plans each region alone and prints for each its cells, its
//! places, the size of the plan (or the range in which it lies) and the lines of its tree.
//! `whole FILE OUT RULE [TURNS]` plans the cave as the program does by one worker, writes the proof to OUT, and prints
//! the turns that it took. `calls` makes each call that takes memory on the pillar from standard input.
//! `stored FILE LIST` reads the table of the examples from the file and tries each name of the list, takes the largest
//! box through each step, and makes the calls.
#![tactic(auto)]

mod calls;
mod facts;
mod full;
mod names;
mod parts;
mod regions;
mod table;
mod whole;

use cave_model::{Rule, World};
use std::env;
use std::fs::File;
use std::io::Read;
use std::test::Fail;

/// The rule of a version, 1.18 unless it is 1.17, with headroom 2.
pub(crate) fn rule_of(version: &str) -> Rule {
    if version == "1.17" {
        return Rule::new(2, 8);
    }
    Rule::new(2, 1)
}

/// How many turns a region has; any number where no word says so.
fn limit_of(word: Option<&String>) -> Option<u64> {
    word?.parse::<u64>().ok()
}

/// The cave of the structure in the file, by the shipped rows.
fn cave(rt: &HostRuntime, path: &str, rule: Rule) -> Result<World, Fail> {
    let mut bytes = Vec::new(rt.alloc());
    File::open(rt, path)?.read_to_end(&mut bytes)?;
    Ok(parts::world_of(rt.alloc(), &bytes, rule)?)
}

/// Plans each region, and prints a line for each.
fn plan_each(rt: &HostRuntime, world: &World, turns: u64) -> Result<(), Fail> {
    for region in regions::shared(rt.alloc(), world)? {
        let told = regions::found_line(rt.alloc(), &region, turns)?;
        println!(rt; "{told}")?;
    }
    Ok(())
}

fn run(rt: &HostRuntime, part: &str, path: &str, number: u64, rule: &str) -> Result<(), Fail> {
    if part == "plan" {
        let world = cave(rt, path, rule_of(rule))?;
        return plan_each(rt, &world, number);
    }
    let world = cave(rt, path, rule_of(rule))?;
    let mut found = 0;
    for _ in 0..number {
        found = parts::counted(rt.alloc(), &world, part)?;
    }
    println!(rt; "{part} {found}")?;
    Ok(())
}

/// What the gate compares.
fn stored(rt: &HostRuntime, path: &str, list: &str) -> Result<(), Fail> {
    table::run(rt, path, list)?;
    full::run(rt)?;
    calls::run(rt)
}

fn main(rt: HostRuntime) -> Result<(), Fail> {
    let words: Vec<String> = env::args(&rt)?.collect(rt.alloc())?;
    let Some(part) = words.get(1) else {
        return Ok(());
    };
    let path = match words.get(2) {
        Some(path) => path.as_str(),
        None => "",
    };
    let third = match words.get(3) {
        Some(word) => word.as_str(),
        None => "",
    };
    let number = third.parse::<u64>().unwrap_or(1);
    let rule = match words.get(4) {
        Some(rule) => rule.as_str(),
        None => "",
    };
    match part.as_str() {
        "calls" => calls::run(&rt),
        "stored" => stored(&rt, path, third),
        "whole" => whole::run(&rt, path, third, rule, limit_of(words.get(5))),
        part => run(&rt, part, path, number, rule),
    }
}
