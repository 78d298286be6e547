//! A cave from a structure and a table: `IsCaveOf` of specs/World.antt, and where there is none `IsUnknownBlock`.
ghost use Rattle.std.specs.Prelude.{◌≡◌, ◌≢◌, ◌<◌, IfOk, IfErr, IfSome, All, length, map};
ghost use Rattle.cave_base.specs.Answer.{IsAnswer, IsRefusal};
ghost use Rattle.cave_model.specs.Cave.{Cave};
ghost use Rattle.cave_model.specs.RuleOf.{rule_of};
ghost use Rattle.cave_reading.specs.Building.{AreClassesOf, AreUsed, class_by};
ghost use Rattle.cave_reading.specs.World.{IsCaveOf, IsUnknownBlock};
ghost use Rattle.cave_reading.specs.declared.fault.BuildFault.{BuildFault};

use crate::fault::BuildFault;
use block_rows::Rows;
use cave_base::{Class, Sequence, VOID};
use cave_model::{Rule, World};
use scan_core::{BlockState, Scan};
use std::alloc::{AllocError, Global};

/// Which block states some cell names.
fn used_states(alloc: Global, scan: &Scan) -> Result<Vec<bool>, AllocError>
    ensures { IfOk result (λ used. AreUsed scan.now.cells (length scan.now.palette) used.items) }
{
    let mut used = vec![in alloc; false; scan.palette().len()]?;
    for cell in scan.cells() {
        if let Some(index) = cell {
            used[*index as usize] = true;
        }
    }
    Ok(used)
}

/// The fault of a state without a row.
fn unknown_block(alloc: Global, index: usize, state: &BlockState) -> BuildFault
    ensures { result ≢ BuildFault.OutOfMemory → result ≡ BuildFault.UnknownBlock index state.now.name }
{
    match Vec::from_slice(alloc, state.name.as_slice()) {
        Ok(name) => BuildFault::UnknownBlock {
            index,
            name: Sequence::from_vec(name),
        },
        Err(_) => BuildFault::OutOfMemory,
    }
}

/// The class of each block state that some cell names; any other state isn't judged.
fn state_classes(
    alloc: Global,
    scan: &Scan,
    rows: &Rows,
    used: &[bool],
) -> Result<Vec<Class>, BuildFault>
    requires { AreUsed scan.now.cells (length scan.now.palette) used.now }
    ensures found { IfOk result (λ classes. AreClassesOf scan.now.cells scan.now.palette rows.now
        (length scan.now.palette) classes.items) }
    ensures fault { IfErr result (λ e. e ≢ BuildFault.OutOfMemory → IsUnknownBlock scan.now rows.now e) }
{
    let palette = scan.palette();
    let mut classes = Vec::with_capacity(alloc, palette.len())?;
    for index in 0..palette.len() {
        let state = &palette[index];
        let class = if used[index] {
            match rows.row_of(state) {
                Some(row) => row.class,
                None => return Err(unknown_block(alloc, index, state)),
            }
        } else {
            VOID
        };
        classes.push(class)?;
    }
    Ok(classes)
}

/// The class of each cell, by those of the block states.
fn cell_classes(
    alloc: Global,
    cells: &[Option<u32>],
    classes: &[Class],
) -> Result<Vec<Class>, AllocError>
    requires { All (λ cell. IfSome cell (λ index. index < length classes.now)) cells.now }
    ensures { IfOk result (λ all. all.items ≡ map (class_by classes.now) cells.now) }
{
    let mut all = Vec::with_capacity(alloc, cells.len())?;
    for cell in cells {
        let class = match cell {
            Some(index) => classes[*index as usize],
            None => VOID,
        };
        all.push(class)?;
    }
    Ok(all)
}

/// The cave that a structure tells by a table of rows: the class of each cell is that of the row of its block
/// state, and a cell without an entry is void (this project's own). A block state that no cell names isn't judged.
pub fn build(alloc: Global, scan: &Scan, rows: &Rows, rule: Rule) -> Result<World, BuildFault>
    // What is built is the cave of the structure.
    ensures found { IfOk result (IsCaveOf scan.now rows.now (rule_of rule)) }
    // Such a cave is built.
    ensures only { (cave : Cave) → IsCaveOf scan.now rows.now (rule_of rule) cave
        → IsAnswer BuildFault.OutOfMemory result (λ x. x ≡ cave) }
    // A fault names the least index that a cell names and no row fits.
    ensures fault { IfErr result (λ e. e ≢ BuildFault.OutOfMemory → IsUnknownBlock scan.now rows.now e) }
    // Such a fault is answered.
    ensures refused { (e : BuildFault) → IsUnknownBlock scan.now rows.now e
        → IsRefusal BuildFault.OutOfMemory result e }
{
    let cells = scan.cells();
    let used = used_states(alloc, scan)?;
    let states = state_classes(alloc, scan, rows, &used)?;
    let classes = cell_classes(alloc, cells, &states)?;
    Ok(World::new(scan.size(), classes, rule))
}
