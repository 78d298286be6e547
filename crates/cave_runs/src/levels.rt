//! The run of `levels`, from the bytes read to the bytes written: `IsRunOfLevels` of specs/RunOfLevels.antt.
ghost use Rattle.std.specs.Prelude.{◌≡◌, ◌≢◌, IfOk, IfErr, option_copied};
ghost use Rattle.cave_base.specs.Answer.{IsRefusal};
ghost use Rattle.cave_model.specs.RuleOf.{rule_of};
ghost use Rattle.cave_runs.specs.LevelsRuns.{IsCaveLitBy, IsFaultOfLevels, IsFaultOfPlan, IsLevelsTextOf};
ghost use Rattle.cave_runs.specs.LevelsText.{IsLevelsText};
ghost use Rattle.cave_runs.specs.RunOfLevels.{IsRunOfLevels};
ghost use Rattle.cave_runs.specs.Streams.{inputs, stream};
ghost use Rattle.cave_runs.specs.declared.fault.RunFault.{RunFault};

use crate::fault::{Input, RunFault};
use crate::levels_text::levels_text;
use crate::limits::STRUCTURE_LIMIT;
use crate::reading::read_all;
use crate::watcher::{Watcher, tell_sides};
use crate::writing::put_all;
use cave_model::{Rule, World};
use cave_reading::read_cave;
use light_flood::light;
use plan_reading::with_torches;
use std::alloc::{AllocError, Global};
use std::io::{Read, Write};

/// The text of the levels of a world.
fn world_text(alloc: Global, world: &World) -> Result<Vec<u8>, AllocError>
    ensures { IfOk result (λ v. IsLevelsText world.now v.items) }
{
    let size = world.size();
    let levels = light(alloc, world)?;
    levels_text(alloc, size, &levels)
}

/// The world with the torches of the plan, where there is one.
fn lit_by(alloc: Global, world: World, plan: Option<&[u8]>) -> Result<World, RunFault>
    ensures found { IfOk result (λ lit. IsCaveLitBy world (option_copied plan.entry) lit) }
    ensures fault { IfErr result (λ e. e ≢ RunFault.OutOfMemory
        → IsFaultOfPlan world (option_copied plan.entry) e) }
    ensures refused { (e : RunFault) → IsFaultOfPlan world (option_copied plan.entry) e
        → IsRefusal RunFault.OutOfMemory result e }
{
    match plan {
        Some(text) => {
            let lit = with_torches(alloc, &world, text)?;
            Ok(lit)
        }
        None => Ok(world),
    }
}

/// The text of the levels of the cave that the bytes tell, with the torches of the plan. A fault of the structure goes
/// before one of the table, that before an unknown block, and that before one of the plan.
fn text_of<O: Watcher>(
    alloc: Global,
    bytes: &[u8],
    table: Option<&[u8]>,
    rule: Rule,
    plan: Option<&[u8]>,
    observer: &O,
) -> Result<Vec<u8>, RunFault>
    ensures done { IfOk result (λ v. IsLevelsTextOf bytes.now (option_copied table.entry) (rule_of rule)
        (option_copied plan.entry) v.items) }
    ensures fault { IfErr result (λ e. e ≢ RunFault.OutOfMemory → IsFaultOfLevels bytes.now
        (option_copied table.entry) (rule_of rule) (option_copied plan.entry) e) }
    ensures refused { (e : RunFault) → IsFaultOfLevels bytes.now (option_copied table.entry) (rule_of rule)
        (option_copied plan.entry) e → IsRefusal RunFault.OutOfMemory result e }
{
    let world = read_cave(alloc, bytes, table, rule)?;
    tell_sides(&world, observer);
    let lit = lit_by(alloc, world, plan)?;
    let text = world_text(alloc, &lit)?;
    Ok(text)
}

/// Reads a structure to the end of the reader, and writes the text of the level of block light of each of its cells:
/// the sides of the box, and a hexadecimal digit a cell. Where there is a plan's text, its torches stand in the cave as
/// well. All is read before it is judged, and the whole text is made before its first byte is written. The rows are
/// those of the user's table, where there is one, before the shipped ones. The observer is told where free cells lie at
/// a side of the box.
pub fn run_levels<R, O, W>(
    alloc: Global,
    reader: &mut R,
    table: Option<&[u8]>,
    rule: Rule,
    plan: Option<&[u8]>,
    observer: &O,
    writer: &mut W,
) -> Result<(), RunFault>
where
    R: Read,
    O: Watcher,
    W: Write,
    ensures { IsRunOfLevels
        (inputs (stream (R.remaining reader.old) (R.remaining reader.new)) (option_copied table.entry) (rule_of rule))
        (option_copied plan.entry) result (stream (W.contents writer.old) (W.contents writer.new)) }
{
    let bytes = read_all(alloc, reader, STRUCTURE_LIMIT, Input::StructureInput)?;
    let text = text_of(alloc, &bytes, table, rule, plan, observer)?;
    put_all(writer, &text)
}
