//! The command line: its commands and their options.
ghost use Rattle.std.specs.Prelude.{IfOk, codes};
ghost use Rattle.command_words.specs.Options as options;
ghost use Rattle.command_words.specs.Options.{IsArg, IsCommand, IsGrownBy};

use clap::{Arg, ArgAction, Command};
use std::alloc::{AllocError, Global};

/// The version, and the toolchain that it was proved with.
const VERSION: &str = "0.29.0 (proved with rattle-kit-13f)";

/// An argument that has to be there.
fn placed<'a>(alloc: Global, name: &'a str, help: &'a str) -> Arg<'a>
    ensures { IsArg (options.placed name.now) result }
{
    Arg::new(alloc, name)
        .required(true)
        .action(ArgAction::Set)
        .help(help)
}

/// An argument that may be left out.
fn optional<'a>(alloc: Global, name: &'a str, help: &'a str) -> Arg<'a>
    ensures { IsArg (options.optional name.now) result }
{
    Arg::new(alloc, name).action(ArgAction::Set).help(help)
}

fn file<'a>(alloc: Global) -> Arg<'a>
    ensures { IsArg (options.placed (codes "FILE")) result }
{
    placed(
        alloc,
        "FILE",
        "The structure file, unpacked (NBT), or - for standard input",
    )
}

fn certificate<'a>(alloc: Global) -> Arg<'a>
    ensures { IsArg (options.placed (codes "PROOF")) result }
{
    placed(alloc, "PROOF", "The proof that `plan --proof` wrote")
}

fn told_plan<'a>(alloc: Global) -> Arg<'a>
    ensures { IsArg (options.optional (codes "PLAN")) result }
{
    optional(
        alloc,
        "PLAN",
        "What `plan` printed: its torches count as well",
    )
}

fn progress<'a>(alloc: Global) -> Arg<'a>
    ensures { IsArg (options.flag (codes "progress")) result }
{
    Arg::new(alloc, "progress")
        .long("progress")
        .action(ArgAction::SetTrue)
        .help(
            "Tell on standard error where the box cuts the cave, and how a plan gets on [default: at a terminal]",
        )
}

/// An option with a value, and what help calls that.
fn valued<'a>(alloc: Global, name: &'a str, value: &'a str) -> Arg<'a>
    ensures { IsArg (options.valued name.now) result }
{
    Arg::new(alloc, name)
        .long(name)
        .value_name(value)
        .action(ArgAction::Set)
}

fn table<'a>(alloc: Global) -> Arg<'a>
    ensures { IsArg (options.valued (codes "table")) result }
{
    valued(alloc, "table", "T").help(
        "A table of blocks (TOML) whose rows go before the shipped ones",
    )
}

/// Adds the options of the rule that mobs spawn by, and that of a table.
fn ruled<'a>(alloc: Global, command: Command<'a>) -> Result<Command<'a>, AllocError>
    ensures { IfOk result (IsGrownBy options.ruled command.entry) }
{
    let headroom = valued(alloc, "headroom", "1|2")
        .value_parser(clap::value_parser!(u8).range(1..=2))
        .help("How many free cells above its ground a mob needs [default: 2]");
    let rule = valued(alloc, "rule", "1.18|1.17").help(
        "Which version's rule: mobs spawn at light 0 from 1.18 on, before up to 7 [default: 1.18]",
    );
    command.arg(headroom)?.arg(rule)?.arg(table(alloc))
}

fn dark_command<'a>(alloc: Global) -> Result<Command<'a>, AllocError>
    ensures { IfOk result (IsCommand options.dark) }
{
    let command = Command::new(alloc, "dark")
        .about(
            "Print the cells in which a hostile mob could spawn: their number, then x y z of each",
        )
        .after_help(
            "Example: torchplan dark cave.nbt\nIt prints `dark 3`, and three lines `x y z`.",
        )
        .arg(file(alloc))?;
    ruled(alloc, command)?.arg(progress(alloc))
}

fn proof<'a>(alloc: Global) -> Arg<'a>
    ensures { IsArg (options.valued (codes "proof")) result }
{
    valued(alloc, "proof", "OUT").help("Where to write the proof that fewer torches don't do")
}

fn workers<'a>(alloc: Global) -> Arg<'a>
    ensures { IsArg options.workers result }
{
    valued(alloc, "workers", "N")
        .value_parser(clap::value_parser!(u8).range(1..=64))
        .help("How many workers search [default: 1]")
}

fn turns<'a>(alloc: Global) -> Arg<'a>
    ensures { IsArg options.turns result }
{
    valued(alloc, "turns", "N")
        .value_parser(clap::value_parser!(u64).range(1..=1_000_000_000))
        .help("How many nodes the search of a region may work on [default: no limit]")
}

fn plan_command<'a>(alloc: Global) -> Result<Command<'a>, AllocError>
    ensures { IfOk result (IsCommand options.plan) }
{
    let command = Command::new(alloc, "plan")
        .about("Print the fewest torches that leave no such cell dark, layer by layer")
        .after_help(
            "Example: torchplan plan cave.nbt --proof cave.proof\nIt prints `torches 2`, `dark 88`, torches, layers.",
        )
        .arg(file(alloc))?;
    ruled(alloc, command)?
        .arg(proof(alloc))?
        .arg(workers(alloc))?
        .arg(turns(alloc))?
        .arg(progress(alloc))
}

fn check_command<'a>(alloc: Global) -> Result<Command<'a>, AllocError>
    ensures { IfOk result (IsCommand options.check) }
{
    let command = Command::new(alloc, "check")
        .about("Say whether a proof shows that its torches are the fewest for the structure")
        .after_help(
            "Example: torchplan check cave.nbt cave.proof\nIt prints `accepted 2`, or `rejected: ` and why.",
        )
        .arg(file(alloc))?
        .arg(certificate(alloc))?;
    ruled(alloc, command)
}

fn levels_command<'a>(alloc: Global) -> Result<Command<'a>, AllocError>
    ensures { IfOk result (IsCommand options.levels) }
{
    let command = Command::new(alloc, "levels")
        .about(
            "Print the block light of each cell, a hexadecimal digit each, a line for each row along x",
        )
        .after_help(
            "Example: torchplan levels cave.nbt cave.plan\nIt prints `levels 29 3 3`, and nine lines of 29 digits.",
        )
        .arg(file(alloc))?
        .arg(told_plan(alloc))?;
    ruled(alloc, command)?.arg(progress(alloc))
}

fn rows_command<'a>(alloc: Global) -> Result<Command<'a>, AllocError>
    ensures { IfOk result (IsCommand options.rows) }
{
    Command::new(alloc, "rows")
        .about(
            "Print the row that serves each block state: opacity, emission, the columns that are yes; - for none",
        )
        .after_help(
            "Example: torchplan rows cave.nbt --table blocks.toml\nOf stone: `15 0 stand top side`, then its name.",
        )
        .arg(file(alloc))?
        .arg(table(alloc))
}

/// The program's command.
pub(crate) fn command<'a>(alloc: Global) -> Result<Command<'a>, AllocError>
    ensures { IfOk result (IsCommand options.torchplan) }
{
    Command::new(alloc, "torchplan")
        .about("Plan the fewest torches for a Minecraft cave, saved as a structure file")
        .after_help(
            "Save a cave with a structure block, then: gunzip -c cave.nbt | torchplan plan -",
        )
        .version(VERSION)
        .subcommand_required(true)
        .arg_required_else_help(true)
        .subcommand(dark_command(alloc)?)?
        .subcommand(plan_command(alloc)?)?
        .subcommand(check_command(alloc)?)?
        .subcommand(levels_command(alloc)?)?
        .subcommand(rows_command(alloc)?)
}
