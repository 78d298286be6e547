//! The dark cells and the places, as a flag for each cell: `AreMarksOf` of specs/Lists.antt.
ghost use Rattle.std.specs.Prelude.{◌<◌, ◌↔◌, IsTrue, IfOk};
ghost use Rattle.cave_base.specs.Box as grid;
ghost use Rattle.cave_model.specs.Spawn.{IsDark};
ghost use Rattle.cave_model.specs.Torches.{IsPlace};
ghost use Rattle.lit_lists.specs.Lists.{AreMarksOf};
ghost use Rattle.lit_lists.specs.Relaxing.{AreLevelsOf};

use cave_base::Cell;
use cave_model::World;
use std::alloc::{AllocError, Global};

/// Whether a mob may spawn in the cell, and less light comes than keeps it away.
fn is_dark(world: &World, levels: &[u8], cell: Cell) -> bool
    requires in_box { cell < grid.cell_count world.now.size }
    requires levels { AreLevelsOf world.now levels.now }
    ensures { IsTrue result ↔ IsDark world.now cell }
{
    levels[cell as usize] < world.need() && world.is_spawnable(cell)
}

/// Whether a new torch may go into the cell.
fn is_place(world: &World, cell: Cell) -> bool
    requires in_box { cell < grid.cell_count world.now.size }
    ensures { IsTrue result ↔ IsPlace world.now cell }
{
    world.hang_of(cell).is_some()
}

/// A flag for each cell, set for the dark ones; from the levels of light.
pub fn dark_marks(alloc: Global, world: &World, levels: &[u8]) -> Result<Vec<bool>, AllocError>
    requires levels { AreLevelsOf world.now levels.now }
    ensures { IfOk result (λ v. AreMarksOf (grid.cell_count world.now.size) (IsDark world.now) v.items) }
{
    let mut marks = Vec::new(alloc);
    for cell in 0..world.cell_count() {
        marks.push(is_dark(world, levels, cell))?;
    }
    Ok(marks)
}

/// A flag for each cell, set for those into which a new torch may go.
pub fn place_marks(alloc: Global, world: &World) -> Result<Vec<bool>, AllocError>
    ensures { IfOk result (λ v. AreMarksOf (grid.cell_count world.now.size) (IsPlace world.now) v.items) }
{
    let mut marks = Vec::new(alloc);
    for cell in 0..world.cell_count() {
        marks.push(is_place(world, cell))?;
    }
    Ok(marks)
}
