//! The state of each cell, from the blocks of a structure: `AreCellsOf` of specs/Cells.antt, and where there is none
//! `blocks_fault` of specs/Faults.antt.
ghost use Rattle.std.specs.Prelude.{◌≡◌, ◌<◌, ◌∷◌, ℕ, All, Some, None, pos, codes, length, IfSome, IsTrue};
ghost use Rattle.cave_base.specs.Box as grid;
ghost use Rattle.nbt_core.specs.Value.{Nbt};
ghost use Rattle.nbt_views.specs.Fields.{two_fields};
ghost use Rattle.scan_core.specs.Answer.{TellsOrFaults, TellsInRoom};
ghost use Rattle.scan_core.specs.Cells.{AreCellsOf, IsIndexOf, IsPlaced, IsPointOf, ShowEntries};
ghost use Rattle.scan_core.specs.Faults.{blocks_fault, entry_faults, index_fault, pos_fault, state_fault};
ghost use Rattle.scan_core.specs.Judging.{each_from, first_fault};
ghost use Rattle.scan_core.specs.declared.fault.ScanFault.{ScanFault};

use crate::fault::{Field, ScanFault};
use crate::value::{compounds, int, natural, triple};
use cave_base::{Cell, is_within, number};
use nbt_views::{ItemsView, View};
use std::alloc::Global;

/// For each cell of a box of this size the state that the root's blocks tell: an index below `states`, or none.
pub fn cells_of(
    alloc: Global,
    found: Option<View<'_>>,
    size: [u32; 3],
    states: usize,
) -> Result<Vec<Option<u32>>, ScanFault>
    requires { IsTrue (grid.is_small (grid.point size)) }
    ensures { let told = found.entry in
        let sides = grid.point size in
        TellsInRoom result (λ cells. AreCellsOf told sides states cells.items)
        (blocks_fault sides states told) }
{
    let Some(value) = found else {
        return Err(ScanFault::Missing(Field::BlocksField));
    };
    let Some(entries) = compounds(&value) else {
        return Err(ScanFault::WrongType(Field::BlocksField));
    };
    let count = size[0] * size[1] * size[2];
    let mut cells = vec![in alloc; None; count as usize]?;
    fill(cells.as_mut_slice(), size, states, entries)?;
    Ok(cells)
}

/// Gives each cell the state of the last entry that names it.
fn fill(
    cells: &mut [Option<u32>],
    size: [u32; 3],
    states: usize,
    mut entries: ItemsView<'_>,
) -> Result<(), ScanFault>
    requires small { IsTrue (grid.is_small (grid.point size)) }
    requires whole { length cells.old ≡ grid.cell_count (grid.point size) }
    requires void { All (λ cell. cell ≡ None) cells.old }
    ensures { let told = entries.entry in
        let sides = grid.point size in
        TellsOrFaults result (λ _. ShowEntries told sides states cells.new)
        (first_fault (each_from 0 (entry_faults sides states) told)) }
{
    for index in 0..entries.len() {
        if let Some((placed, others)) = sound_entry(size, states, &entries) {
            cells[placed.cell as usize] = Some(placed.state);
            entries = others;
            continue;
        }
        let Some((pos, state)) = entries.next_fields(b"pos", b"state") else {
            return Ok(());
        };
        let Placed { cell, state } = placement(size, states, index as usize, pos, state)?;
        cells[cell as usize] = Some(state);
    }
    Ok(())
}

/// An entry's cell, and its index into the palette.
#[derive(Drop)]
struct Placed {
    cell: Cell,
    state: u32,
}

/// What the next entry tells and the entries after it, where it has a place and a state alone, and both are sound. So
/// has nearly every block of a file. `None` says only that `placement` has to be asked.
#[inline(always)]
fn sound_entry<'a>(
    size: [u32; 3],
    states: usize,
    entries: &ItemsView<'a>,
) -> Option<(Placed, ItemsView<'a>)>
    requires { IsTrue (grid.is_small (grid.point size)) }
    ensures { let sides = grid.point size in
        IfSome result (λ r. (told : Nbt) × (entries.now ≡ told ∷ r.1)
        × IsPlaced told sides states r.0.cell r.0.state) }
{
    let Some(found) = entries.split_numbers(b"pos", b"state") else {
        return None;
    };
    let numbers = found.0;
    let Some(at) = natural(numbers) else {
        return None;
    };
    if !is_within(size, at) {
        return None;
    }
    let Some(state) = known(states, found.1) else {
        return None;
    };
    let placed = Placed {
        cell: number(size, at),
        state,
    };
    Some((placed, found.2))
}

/// The number as an index below `states`, where it is one.
#[inline(always)]
fn known(states: usize, number: i32) -> Option<u32>
    ensures known { IfSome result (λ state. (number ≡ pos state) × (state < states)) }
    ensures unknown { result ≡ None → (index : ℕ) → index_fault states index number ≡ Some (ScanFault.BadState index) }
{
    if number >= 0 && (number as usize) < states {
        Some(number as u32)
    } else {
        None
    }
}

/// What the place and the state of the entry with this index tell.
fn placement(
    size: [u32; 3],
    states: usize,
    index: usize,
    pos: Option<View<'_>>,
    state: Option<View<'_>>,
) -> Result<Placed, ScanFault>
    requires { IsTrue (grid.is_small (grid.point size)) }
    ensures { (told : Nbt) → (pos.entry, state.entry) ≡ two_fields (codes "pos") (codes "state") told
        → let sides = grid.point size in
        TellsOrFaults result (λ placed. IsPlaced told sides states placed.cell placed.state)
        (first_fault (entry_faults sides states index told)) }
{
    let at = place_of(size, index, pos)?;
    let state = index_of(states, index, state)?;
    Ok(Placed {
        cell: number(size, at),
        state,
    })
}

/// The coordinates of the entry with this index.
fn place_of(size: [u32; 3], index: usize, found: Option<View<'_>>) -> Result<[u32; 3], ScanFault>
    ensures { let told = found.entry in
        let sides = grid.point size in
        TellsOrFaults result (λ at. IsPointOf told sides (grid.point at)) (pos_fault sides index told) }
{
    let Some(value) = found else {
        return Err(ScanFault::Missing(Field::PosField(index)));
    };
    let Some(numbers) = triple(&value) else {
        return Err(ScanFault::WrongType(Field::PosField(index)));
    };
    let Some(at) = natural(numbers) else {
        return Err(ScanFault::BadPosition { index });
    };
    if is_within(size, at) {
        Ok(at)
    } else {
        Err(ScanFault::BadPosition { index })
    }
}

/// The state of the entry with this index: an index below `states`.
fn index_of(states: usize, index: usize, found: Option<View<'_>>) -> Result<u32, ScanFault>
    ensures { let told = found.entry in
        TellsOrFaults result (λ state. IsIndexOf told states state) (state_fault states index told) }
{
    let Some(value) = found else {
        return Err(ScanFault::Missing(Field::StateField(index)));
    };
    let Some(number) = int(&value) else {
        return Err(ScanFault::WrongType(Field::StateField(index)));
    };
    let Some(state) = known(states, number) else {
        return Err(ScanFault::BadState { index });
    };
    Ok(state)
}
