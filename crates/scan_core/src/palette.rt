//! The block states of a structure: `IsPaletteOf` of specs/Told.antt, and where there are none `palette_fault` of
//! specs/Faults.antt.
ghost use Rattle.std.specs.Prelude.{◌≡◌, codes};
ghost use Rattle.nbt_core.specs.Value.{Nbt};
ghost use Rattle.nbt_views.specs.Fields.{two_fields};
ghost use Rattle.scan_core.specs.Answer.{TellsInRoom};
ghost use Rattle.scan_core.specs.Faults.{name_fault, palette_fault};
ghost use Rattle.scan_core.specs.Judging.{each_from, first_fault};
ghost use Rattle.scan_core.specs.Scan.{AreEach, IsEntryState};
ghost use Rattle.scan_core.specs.Told.{IsPaletteOf};

use crate::fault::{Field, ScanFault};
use crate::property::{copy, properties};
use crate::state::BlockState;
use crate::value::{compounds, text};
use nbt_views::{ItemsView, View};
use std::alloc::Global;

/// The states that the root's palette tells.
pub fn palette_of(alloc: Global, found: Option<View<'_>>) -> Result<Vec<BlockState>, ScanFault>
    ensures { let told = found.entry in
        TellsInRoom result (λ states. IsPaletteOf told states.items) (palette_fault told) }
{
    let Some(value) = found else {
        return Err(ScanFault::Missing(Field::PaletteField));
    };
    let Some(entries) = compounds(&value) else {
        return Err(ScanFault::WrongType(Field::PaletteField));
    };
    states_of(alloc, entries)
}

/// The states that these entries tell.
fn states_of(alloc: Global, mut entries: ItemsView<'_>) -> Result<Vec<BlockState>, ScanFault>
    ensures { let told = entries.entry in
        TellsInRoom result (λ states. AreEach IsEntryState told states.items)
        (first_fault (each_from 0 name_fault told)) }
{
    let mut states = Vec::new(alloc);
    for index in 0..entries.len() {
        let Some((name, props)) = entries.next_fields(b"Name", b"Properties") else {
            return Ok(states);
        };
        states.push(state_of(alloc, index as usize, name, props)?)?;
    }
    Ok(states)
}

/// The state that the name and the properties of the entry with this index tell.
fn state_of(
    alloc: Global,
    index: usize,
    name: Option<View<'_>>,
    props: Option<View<'_>>,
) -> Result<BlockState, ScanFault>
    ensures { (told : Nbt) → (name.entry, props.entry) ≡ two_fields (codes "Name") (codes "Properties") told
        → TellsInRoom result (λ state. IsEntryState told state) (first_fault (name_fault index told)) }
{
    let Some(value) = name else {
        return Err(ScanFault::Missing(Field::NameField(index)));
    };
    let Some(name) = text(&value) else {
        return Err(ScanFault::WrongType(Field::NameField(index)));
    };
    Ok(BlockState {
        name: copy(alloc, name)?,
        props: properties(alloc, props)?,
    })
}
