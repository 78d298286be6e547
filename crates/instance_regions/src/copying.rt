//! Rows of bits from lists of cells, with other indices for these.
ghost use Rattle.std.specs.Prelude.{◌≡◌, [], length, IfOk};
ghost use Rattle.instance_regions.specs.Restricting.{AreCopied, AreRanks, HaveRanks, IsSelfContained, IsOfRanks};
ghost use Rattle.set_cover.specs.Bits.{IsRowOf};
ghost use Rattle.set_cover.specs.Instance.{words_for};

use cave_model::OutOfMemory;
use set_cover::{BitRow, Sparse};
use std::alloc::{AllocError, Global};

/// A row of `width` words without bits, with room from the first cell's rank to the last one's.
fn bare_row(alloc: Global, width: usize, cells: &[u32], ranks: &[u32]) -> Result<BitRow, AllocError>
    requires { HaveRanks cells.now ranks.now width }
    ensures none { IfOk result (λ row. IsRowOf [] row) }
    ensures whole { IfOk result (λ row. length row ≡ width) }
{
    if cells.is_empty() {
        let row = BitRow::spanning(alloc, width, 0, 0)?;
        return Ok(row);
    }
    let first = ranks[cells[0] as usize] as usize / 64;
    let end = ranks[cells[cells.len() - 1] as usize] as usize / 64 + 1;
    let row = BitRow::spanning(alloc, width, first, end)?;
    Ok(row)
}

/// A row of `width` words with the ranks of the cells.
fn row_with(alloc: Global, width: usize, cells: &[u32], ranks: &[u32]) -> Result<BitRow, AllocError>
    requires { HaveRanks cells.now ranks.now width }
    ensures { IfOk result (IsOfRanks cells.now ranks.now width) }
{
    let mut row = bare_row(alloc, width, cells, ranks)?;
    for cell in cells {
        row.add(alloc, ranks[*cell as usize] as usize)?;
    }
    Ok(row)
}

/// The rows of the places with these indices: the ranks of the cells that each lights.
pub fn copy_rows(
    alloc: Global,
    sparse: &Sparse,
    ranks: &[u32],
    own: &[u32],
    placed: &[u32],
) -> Result<Vec<BitRow>, OutOfMemory>
    requires closed { IsSelfContained sparse.now own.now placed.now }
    requires ranks { AreRanks sparse.now own.now ranks.now }
    ensures { IfOk result (λ v.
        AreCopied sparse.now own.now placed.now (words_for (length own.now)) (length placed.now) v.items) }
{
    let width = own.len().div_ceil(64);
    let mut rows = Vec::with_capacity(alloc, placed.len())?;
    for place in placed {
        let row = row_with(alloc, width, sparse.lit_by(*place as usize), ranks)?;
        rows.push(row)?;
    }
    Ok(rows)
}
