//! Small regions from the cells that their places light, looked at row by row.
ghost use Rattle.std.specs.Prelude.{◌≡◌, ◌≤◌, ◌<◌, ◌*◌, ℕ, [], slice_index_or, IsTrue, length, IfOk};
ghost use Rattle.search_cases.specs.Made.{CountsUp, AreWide, IsRowFor, IsLitIn, AreLit};
ghost use Rattle.set_cover.specs.Instance.{words_for};
ghost use Rattle.set_cover.specs.Rows.{AreRows};

use instance_regions::Region;
use set_cover::{BitRow, Instance};
use std::alloc::{AllocError, Global};

/// No region made here has more cells or places.
const MOST: usize = 1000;

/// The region of `count` cells, numbered from 0, in which each place lights these two; none where that is no region:
/// where a number is no cell, where no place lights some cell, or where there are too many.
pub fn made(alloc: Global, count: usize, lit: &[[u32; 2]]) -> Result<Option<Region>, AllocError> {
    if count > MOST || lit.len() > MOST {
        return Ok(None);
    }
    let width = (count + 63) / 64;
    let rows = rows_of(alloc, width, lit)?;
    let cells = numbers(alloc, count)?;
    let places = numbers(alloc, lit.len())?;
    if !are_lit(count, width, &rows) {
        return Ok(None);
    }
    let region = Region::new(alloc, Instance::new(cells, places, width, rows))?;
    Ok(Some(region))
}

/// The numbers below `count`, in order.
fn numbers(alloc: Global, count: usize) -> Result<Vec<u32>, AllocError>
    requires { count ≤ 1000 }
    ensures { IfOk result (λ numbers. CountsUp count numbers.items) }
{
    let mut numbers = Vec::new(alloc);
    for number in 0..count {
        numbers.push(number as u32)?;
    }
    Ok(numbers)
}

/// Rows of `width` words, with a bit for each cell that a place lights.
fn rows_of(alloc: Global, width: usize, lit: &[[u32; 2]]) -> Result<Vec<BitRow>, AllocError>
    ensures { IfOk result (λ rows. AreRows (length lit.now) width rows.items) }
{
    let mut rows = Vec::new(alloc);
    for cells in lit {
        let row = row_of(alloc, width, cells)?;
        rows.push(row)?;
    }
    Ok(rows)
}

/// A row of `width` words with the bits of those of the cells for which it has room.
fn row_of(alloc: Global, width: usize, cells: &[u32]) -> Result<BitRow, AllocError>
    ensures { IfOk result (λ row. length row ≡ width) }
{
    let mut row = BitRow::spanning(alloc, width, 0, width)?;
    for cell in cells {
        if *cell as usize / 64 < width {
            row.add(alloc, *cell as usize)?;
        }
    }
    Ok(row)
}

/// Whether the rows are those of a region.
fn are_lit(count: usize, width: usize, rows: &[BitRow]) -> bool
    requires wide { width ≡ words_for count }
    requires rows { AreWide width rows.now }
    requires short { width ≤ 1000 }
    ensures { IsTrue result → AreLit count rows.now }
{
    if count == 0 || !each_is_row(count, width, rows) {
        return false;
    }
    each_is_lit(count, width, rows)
}

/// Whether each row has a bit, and none from the count on.
fn each_is_row(count: usize, width: usize, rows: &[BitRow]) -> bool
    requires rows { AreWide width rows.now }
    requires short { width ≤ 1000 }
    ensures { IsTrue result → (at : ℕ) → at < length rows.now → IsRowFor count (slice_index_or rows.now at []) }
{
    for place in 0..rows.len() {
        if !is_row(count, &rows[place]) {
            return false;
        }
    }
    true
}

/// Whether the row has a bit, and none from the count on.
fn is_row(count: usize, row: &BitRow) -> bool
    requires { length row.now ≤ 1000 }
    ensures { IsTrue result → IsRowFor count row.now }
{
    match row.next(0) {
        None => false,
        Some(_) => match row.next(count) {
            None => true,
            Some(_) => false,
        },
    }
}

/// Whether some row has each bit below the count.
fn each_is_lit(count: usize, width: usize, rows: &[BitRow]) -> bool
    requires wide { width ≡ words_for count }
    requires rows { AreWide width rows.now }
    ensures { IsTrue result → (bit : ℕ) → bit < count → IsLitIn rows.now bit }
{
    for bit in 0..count {
        if !is_lit(width, rows, bit) {
            return false;
        }
    }
    true
}

/// Whether some row has the bit.
fn is_lit(width: usize, rows: &[BitRow], bit: usize) -> bool
    requires inside { bit < 64 * width }
    requires rows { AreWide width rows.now }
    ensures { IsTrue result → IsLitIn rows.now bit }
{
    for place in 0..rows.len() {
        if rows[place].has(bit) {
            return true;
        }
    }
    false
}
