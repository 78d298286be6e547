//! Columns of an instance: for each cell a row of bits with a bit for each place that lights it. Whoever asks which
//! places light a cell looks at its column and at no other place (this project's own).
ghost use Rattle.std.specs.Prelude.{◌≡◌, ◌<◌, ◌+◌, ◌^◌, length, IfOk, OnOk};
ghost use Rattle.instance_regions.specs.Columns.{height_of, AreColumns};
ghost use Rattle.set_cover.specs.Instance.{IsInstance};

use crate::joining::count_of;
use set_cover::{BitRow, Instance};
use std::alloc::{AllocError, Global};

/// As many words as a column has.
fn height(instance: &Instance) -> usize
    ensures exact { result ≡ height_of instance.now }
    ensures short { result < 2 ^ 32 }
{
    count_of(instance.places()).div_ceil(64)
}

/// The columns of all cells.
pub(crate) fn columns_of(alloc: Global, instance: &Instance) -> Result<Vec<BitRow>, AllocError>
    requires kept { IsInstance instance.now }
    ensures columns { IfOk result (λ v. AreColumns instance.now (length instance.now.places) v.items) }
    ensures short { IfOk result (λ _. height_of instance.now < 2 ^ 32) }
{
    let mut columns = bare_columns(alloc, instance)?;
    for place in 0..count_of(instance.places()) {
        add_place(alloc, columns.as_mut_slice(), instance, place)?;
    }
    Ok(columns)
}

/// Columns without bits. Those of 64 cells, which share a word of the rows, have room from the first place that lights
/// one of these cells to the last.
fn bare_columns(alloc: Global, instance: &Instance) -> Result<Vec<BitRow>, AllocError>
    requires kept { IsInstance instance.now }
    ensures columns { IfOk result (λ v. AreColumns instance.now 0 v.items) }
    ensures short { IfOk result (λ _. height_of instance.now < 2 ^ 32) }
    ensures narrow { IfOk result (λ _. instance.now.width < 2 ^ 32) }
{
    let mut firsts = vec![in alloc; u32::MAX; instance.width()]?;
    let firsts = firsts.as_mut_slice();
    let mut lasts = vec![in alloc; 0u32; instance.width()]?;
    let lasts = lasts.as_mut_slice();
    note_places(instance, firsts, lasts);
    let height = height(instance);
    let cells = count_of(instance.cells());
    let mut columns = Vec::with_capacity(alloc, cells)?;
    for cell in 0..cells {
        let first = firsts[cell / 64] as usize / 64;
        let end = lasts[cell / 64] as usize / 64 + 1;
        columns.push(BitRow::spanning(alloc, height, first, end)?)?;
    }
    Ok(columns)
}

/// Writes down, for each word of the rows, the first place and the last with a bit there.
fn note_places(instance: &Instance, firsts: &mut [u32], lasts: &mut [u32])
    requires firsts { length firsts.old ≡ instance.now.width }
    requires lasts { length lasts.old ≡ instance.now.width }
    ensures firsts { length firsts.new ≡ length firsts.old }
    ensures lasts { length lasts.new ≡ length lasts.old }
{
    for place in 0..count_of(instance.places()) {
        note_place(instance.row_at(place), place as u32, firsts, lasts);
    }
}

/// Writes down this place where its row has bits, after all places before it.
fn note_place(row: &BitRow, place: u32, firsts: &mut [u32], lasts: &mut [u32])
    requires firsts { length firsts.old ≡ length row.now }
    requires lasts { length lasts.old ≡ length row.now }
    ensures firsts { length firsts.new ≡ length firsts.old }
    ensures lasts { length lasts.new ≡ length lasts.old }
{
    let (before, kept) = row.kept();
    for index in 0..kept.len() {
        if kept[index] != 0 {
            firsts[before + index] = u32::min(firsts[before + index], place);
            lasts[before + index] = place;
        }
    }
}

/// Adds the place to the column of each cell that it lights.
fn add_place(
    alloc: Global,
    columns: &mut [BitRow],
    instance: &Instance,
    place: usize,
) -> Result<(), AllocError>
    requires kept { IsInstance instance.now }
    requires place { place < length instance.now.places }
    requires narrow { instance.now.width < 2 ^ 32 }
    requires columns { AreColumns instance.now place columns.old }
    ensures { OnOk result (AreColumns instance.now (place + 1) columns.new) }
{
    let row = instance.row_at(place);
    let mut from = 0;
    while let Some(cell) = row.next(from) {
        columns[cell].add(alloc, place)?;
        from = cell + 1;
    }
    Ok(())
}
