//! The text of dark cells: specs/DarkText.antt.
ghost use Rattle.std.specs.Prelude.{◌≡◌, ◌<◌, All, IfOk, string_bytes};
ghost use Rattle.cave_base.specs.Box.{cell_count, point};
ghost use Rattle.cave_runs.specs.DarkText as texts;

use cave_base::{Cell, coordinates};
use std::alloc::{AllocError, Global};

/// The text of these cells of a box: their number, and each on a line as `x y z`.
pub fn dark_text(alloc: Global, size: [u32; 3], cells: &[Cell]) -> Result<String, AllocError>
    requires in_box { All (λ cell. cell < cell_count (point size)) cells.now }
    ensures { IfOk result (λ s. string_bytes s ≡ texts.dark_text (point size) cells.now) }
{
    let mut out = format!(in alloc; "dark {}\n", cells.len())?;
    for cell in cells {
        let line = cell_line(alloc, size, *cell)?;
        out.push_str(line.as_str())?;
    }
    Ok(out)
}

/// A cell on a line of its own.
fn cell_line(alloc: Global, size: [u32; 3], cell: Cell) -> Result<String, AllocError>
    requires in_box { cell < cell_count (point size) }
    ensures { IfOk result (λ s. string_bytes s ≡ texts.cell_line (point size) cell) }
{
    point_line(alloc, coordinates(size, cell))
}

fn point_line(alloc: Global, at: [u32; 3]) -> Result<String, AllocError>
    ensures { IfOk result (λ s. string_bytes s ≡ texts.point_line (point at)) }
{
    let [x, y, z] = at;
    format!(in alloc; "{x} {y} {z}\n")
}
