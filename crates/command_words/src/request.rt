//! What the words of a command line ask for.
ghost use Rattle.std.specs.Prelude.{◌≡◌, ◌↔◌, ◌⊎◌, IfErr, IfNone, IfOk, IfSome, IsTrue, OnOk, Option, Some, codes, map};
ghost use Rattle.std.specs.Prelude.{option_copied, string_bytes};
ghost use Rattle.cave_model.specs.Rule as rules;
ghost use Rattle.cave_model.specs.RuleOf.{rule_of};
ghost use Rattle.clap.specs.Words.{Text, found_of, kind_of, rows_of, subcommand_rows_of};
ghost use Rattle.command_words.specs.Mistakes.{AreExplainedBy, AreWellFormed};
ghost use Rattle.command_words.specs.Requests as requests;
ghost use Rattle.command_words.specs.Requests.{IsAsked, IsCrewOf, IsEntered, IsFoundBy, IsProofOf, IsRuleOf};

use crate::command::command;
use crate::version::need_for;
use cave_model::Rule;
use clap::error::ErrorKind;
use clap::{ArgMatches, Error};
use plan_options::{PlanOpts, Workers};
use std::alloc::Global;

/// What the words of a command line ask for. A structure is in the file, or in standard input where that is `-`; its
/// blocks go by the user's table in that file, where there is one, before the shipped rows.
#[derive(Clone, Copy, Debug, PartialEq, Eq)]
pub enum Request<'a> {
    /// The dark cells of the structure.
    Dark {
        file: &'a str,
        table: Option<&'a str>,
        rule: Rule,
        /// Whether standard error tells where the box cuts the cave.
        progress: bool,
    },
    /// The fewest torches of the structure, and a certificate in the file `proof`, where there is one.
    Plan {
        file: &'a str,
        table: Option<&'a str>,
        opts: PlanOpts,
        proof: Option<&'a str>,
        /// Whether standard error tells that too, and how the plan gets on.
        progress: bool,
    },
    /// The verdict on the certificate in the file `proof`, which is never standard input.
    Check {
        file: &'a str,
        proof: &'a str,
        table: Option<&'a str>,
        rule: Rule,
    },
    /// The levels of light, with the torches of the plan in the file `plan`, where one is named; it is never standard
    /// input.
    Levels {
        file: &'a str,
        plan: Option<&'a str>,
        table: Option<&'a str>,
        rule: Rule,
        /// Whether standard error tells where the box cuts the cave.
        progress: bool,
    },
    /// The rows that serve the block states of the structure's palette.
    Rows {
        file: &'a str,
        table: Option<&'a str>,
    },
}

/// Headroom 1 where that is told, and else 2.
fn headroom_by(told: Option<u8>) -> u8
    ensures headroom { result ≡ requests.headroom_by told }
    ensures one_or_two { (result ≡ 1) ⊎ (result ≡ 2) }
{
    match told {
        Some(told) if told == 1 => 1,
        _ => 2,
    }
}

/// The rule that the words name: headroom 2 and version 1.18 unless told. None for another version.
fn rule_of(matches: &ArgMatches) -> Option<Rule>
    ensures some { IfSome result (λ rule. IsRuleOf (rows_of (found_of matches.now)) (rule_of rule)) }
    ensures none { IfNone result ((rule : rules.Rule) → ¬ IsRuleOf (rows_of (found_of matches.now)) rule) }
{
    let need = need_for(matches.get_str("rule"))?;
    let headroom = headroom_by(matches.get_one::<u8>("headroom"));
    Some(Rule::new(headroom, need))
}

fn dark_of<'a>(matches: &ArgMatches<'a>) -> Option<Request<'a>>
    ensures { IsFoundBy (codes "dark") (rows_of (found_of matches.now)) result }
{
    Some(Request::Dark {
        file: matches.get_str("FILE")?,
        table: matches.get_str("table"),
        rule: rule_of(matches)?,
        progress: matches.get_flag("progress"),
    })
}

/// How many workers the words name: one unless told.
fn workers_of(matches: &ArgMatches) -> Option<Workers>
    ensures some { IfSome result (λ workers. IsCrewOf (rows_of (found_of matches.now)) workers.number) }
    ensures none { IfNone result ((workers : Workers) → ¬ IsCrewOf (rows_of (found_of matches.now)) workers.number) }
{
    let told = matches.get_one::<u8>("workers");
    Workers::new(u32::from(told.unwrap_or(1)))
}

/// Whether a file is named by `-`, which stands for a stream.
fn is_stream(name: Option<&str>) -> bool
    ensures { IsTrue result ↔ (option_copied name.entry ≡ Some (codes "-")) }
{
    match name {
        Some(name) => name == "-",
        None => false,
    }
}

/// The file that the words name for the proof, where they name one. None where they name a stream.
fn proof_of<'a>(matches: &ArgMatches<'a>) -> Option<Option<&'a str>>
    ensures some { IfSome result (λ proof. IsProofOf (rows_of (found_of matches.now)) (option_copied proof)) }
    ensures none { IfNone result ((proof : Option Text) → ¬ IsProofOf (rows_of (found_of matches.now)) proof) }
{
    let told = matches.get_str("proof");
    if is_stream(told) {
        return None;
    }
    Some(told)
}

fn plan_of<'a>(matches: &ArgMatches<'a>) -> Option<Request<'a>>
    ensures { IsFoundBy (codes "plan") (rows_of (found_of matches.now)) result }
{
    Some(Request::Plan {
        file: matches.get_str("FILE")?,
        table: matches.get_str("table"),
        opts: PlanOpts {
            rule: rule_of(matches)?,
            workers: workers_of(matches)?,
            turns: matches.get_one::<u64>("turns"),
        },
        proof: proof_of(matches)?,
        progress: matches.get_flag("progress"),
    })
}

fn check_of<'a>(matches: &ArgMatches<'a>) -> Option<Request<'a>>
    ensures { IsFoundBy (codes "check") (rows_of (found_of matches.now)) result }
{
    Some(Request::Check {
        file: matches.get_str("FILE")?,
        proof: matches.get_str("PROOF")?,
        table: matches.get_str("table"),
        rule: rule_of(matches)?,
    })
}

fn levels_of<'a>(matches: &ArgMatches<'a>) -> Option<Request<'a>>
    ensures { IsFoundBy (codes "levels") (rows_of (found_of matches.now)) result }
{
    Some(Request::Levels {
        file: matches.get_str("FILE")?,
        plan: matches.get_str("PLAN"),
        table: matches.get_str("table"),
        rule: rule_of(matches)?,
        progress: matches.get_flag("progress"),
    })
}

fn rows_of<'a>(matches: &ArgMatches<'a>) -> Option<Request<'a>>
    ensures { IsFoundBy (codes "rows") (rows_of (found_of matches.now)) result }
{
    Some(Request::Rows {
        file: matches.get_str("FILE")?,
        table: matches.get_str("table"),
    })
}

/// What the command that was entered asks for.
fn asked<'a>(matches: &ArgMatches<'a>) -> Option<Request<'a>>
    ensures some { IfSome result (IsEntered (subcommand_rows_of matches.now)) }
    ensures none { IfNone result ((request : Request) → ¬ IsEntered (subcommand_rows_of matches.now) request) }
{
    if let Some(dark) = matches.subcommand_matches("dark") {
        return dark_of(dark);
    }
    if let Some(plan) = matches.subcommand_matches("plan") {
        return plan_of(plan);
    }
    if let Some(check) = matches.subcommand_matches("check") {
        return check_of(check);
    }
    if let Some(levels) = matches.subcommand_matches("levels") {
        return levels_of(levels);
    }
    if let Some(rows) = matches.subcommand_matches("rows") {
        return rows_of(rows);
    }
    None
}

/// What is wrong with words that are well formed and ask for nothing.
fn mistake_of<'a>(matches: &ArgMatches<'a>) -> &'a str {
    match matches.subcommand_matches("plan") {
        Some(plan) if is_stream(plan.get_str("proof")) => "--proof names a file, and - is none",
        _ => "--rule is 1.18 or 1.17",
    }
}

/// What the words ask for; the first is the program's name. An error has the text for the user: help where that was
/// asked for, else the mistake and the usage.
pub fn request_of<'a>(alloc: Global, words: &'a [String]) -> Result<Request<'a>, Error>
    // The words are well formed then, and the request is what they ask for.
    ensures formed { OnOk result (AreWellFormed (map (λ word. string_bytes word) words.entry.now)) }
    ensures asked { IfOk result (IsAsked (map (λ word. string_bytes word) words.entry.now)) }
    // Else memory was refused, or the words are to be explained, by the error's kind.
    ensures refused { IfErr result (λ e. (kind_of e ≡ ErrorKind.OutOfMemory)
        ⊎ AreExplainedBy (map (λ word. string_bytes word) words.entry.now) (kind_of e)) }
{
    let mut command = command(alloc)?;
    let matches = command.try_get_matches_from_mut(words)?;
    match asked(&matches) {
        Some(request) => Ok(request),
        None => Err(command.error(ErrorKind::InvalidValue, mistake_of(&matches))?),
    }
}
