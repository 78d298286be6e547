//! The run of `dark`, from the bytes read to the bytes written: `IsRunOfDark` of specs/RunOfDark.antt.
ghost use Rattle.std.specs.Prelude.{◌≡◌, ◌≢◌, IfOk, IfErr, option_copied, string_bytes};
ghost use Rattle.cave_base.specs.Answer.{IsRefusal};
ghost use Rattle.cave_model.specs.RuleOf.{rule_of};
ghost use Rattle.cave_runs.specs.DarkText.{IsDarkText};
ghost use Rattle.cave_runs.specs.RunOfDark.{IsRunOfDark};
ghost use Rattle.cave_runs.specs.Runs.{IsDarkTextOf, IsFaultOfBytes};
ghost use Rattle.cave_runs.specs.Streams.{inputs, stream};
ghost use Rattle.cave_runs.specs.declared.fault.RunFault.{RunFault};

use crate::fault::{Input, RunFault};
use crate::limits::STRUCTURE_LIMIT;
use crate::reading::read_all;
use crate::text::dark_text;
use crate::watcher::{Watcher, tell_sides};
use crate::writing::put_all;
use cave_model::{Rule, World};
use cave_reading::read_cave;
use light_flood::{dark_cells, light};
use std::alloc::{AllocError, Global};
use std::io::{Read, Write};

/// The text of the dark cells of a world.
fn world_text(alloc: Global, world: &World) -> Result<String, AllocError>
    ensures { IfOk result (λ s. IsDarkText world.now (string_bytes s)) }
{
    let levels = light(alloc, world)?;
    let cells = dark_cells(alloc, world, &levels)?;
    dark_text(alloc, world.size(), &cells)
}

/// The text of the dark cells of the cave that the bytes tell. A fault of the structure goes before one of the table,
/// and that before an unknown block.
fn text_of<O: Watcher>(
    alloc: Global,
    bytes: &[u8],
    table: Option<&[u8]>,
    rule: Rule,
    observer: &O,
) -> Result<String, RunFault>
    ensures done { IfOk result (λ s.
        IsDarkTextOf bytes.now (option_copied table.entry) (rule_of rule) (string_bytes s)) }
    ensures fault { IfErr result (λ e. e ≢ RunFault.OutOfMemory
        → IsFaultOfBytes bytes.now (option_copied table.entry) e) }
    ensures refused { (e : RunFault) → IsFaultOfBytes bytes.now (option_copied table.entry) e
        → IsRefusal RunFault.OutOfMemory result e }
{
    let world = read_cave(alloc, bytes, table, rule)?;
    tell_sides(&world, observer);
    let text = world_text(alloc, &world)?;
    Ok(text)
}

/// Reads a structure to the end of the reader, and writes the text of its dark cells: `dark m`, and `x y z` of each
/// on a line of its own, in the order of their numbers. All is read before it is judged, and the whole text is made
/// before its first byte is written. The rows are those of the user's table, where there is one, before the shipped
/// ones. The observer is told where free cells lie at a side of the box.
pub fn run_dark<R, O, W>(
    alloc: Global,
    reader: &mut R,
    table: Option<&[u8]>,
    rule: Rule,
    observer: &O,
    writer: &mut W,
) -> Result<(), RunFault>
where
    R: Read,
    O: Watcher,
    W: Write,
    ensures { IsRunOfDark
        (inputs (stream (R.remaining reader.old) (R.remaining reader.new)) (option_copied table.entry) (rule_of rule))
        result (stream (W.contents writer.old) (W.contents writer.new)) }
{
    let bytes = read_all(alloc, reader, STRUCTURE_LIMIT, Input::StructureInput)?;
    let text = text_of(alloc, &bytes, table, rule, observer)?;
    put_all(writer, text.as_bytes())
}
