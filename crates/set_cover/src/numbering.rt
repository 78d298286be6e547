//! Indices of cells among ascending cells: specs/Numbering.antt.
ghost use Rattle.std.specs.List.Sorted.{IsStrictlyIncreasing};
ghost use Rattle.std.specs.Prelude.{◌<◌, ◌≤◌, ◌^◌, length, All};
ghost use Rattle.set_cover.specs.Numbering.{Numbers};

use cave_base::Cell;

/// Writes down, at each of the ascending cells, its index.
pub fn number(indices: &mut [u32], cells: &[Cell])
    requires inside { All (λ cell. cell < length indices.old) cells.now }
    requires ascending { IsStrictlyIncreasing cells.now }
    requires few { length cells.now ≤ 2 ^ 32 }
    ensures { Numbers indices.old cells.now indices.new }
{
    for (index, cell) in cells.iter().enumerate() {
        indices[*cell as usize] = index as u32;
    }
}
