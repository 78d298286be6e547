//! The dark cells, from the levels of light: `AreDarkCells` of cave_model's specs/Spawn.antt.
ghost use Rattle.std.specs.Prelude.{◌<◌, ◌↔◌, All, IfOk, IsTrue};
ghost use Rattle.cave_base.specs.Box as grid;
ghost use Rattle.cave_model.specs.Spawn.{AreDarkCells, IsDark};
ghost use Rattle.light_flood.specs.Levels.{AreLevelsOf};

use crate::levels::Levels;
use cave_base::Cell;
use cave_model::{OutOfMemory, World};
use std::alloc::Global;

/// Whether a mob may spawn in the cell, and less light comes than keeps it away.
fn is_dark(world: &World, levels: &Levels, cell: Cell) -> bool
    requires in_box { cell < grid.cell_count world.now.size }
    requires levels { AreLevelsOf world.now levels.now }
    ensures { IsTrue result ↔ IsDark world.now cell }
{
    levels.at(cell) < world.need() && world.is_spawnable(cell)
}

/// The dark cells of a world with these levels of light, ascending.
pub fn dark_cells(alloc: Global, world: &World, levels: &Levels) -> Result<Vec<Cell>, OutOfMemory>
    requires levels { AreLevelsOf world.now levels.now }
    ensures dark { IfOk result (λ v. AreDarkCells world.now v.items) }
    ensures in_box { IfOk result (λ v. All (λ cell. cell < grid.cell_count world.now.size) v.items) }
{
    let mut cells = Vec::new(alloc);
    for cell in 0..world.cell_count() {
        if is_dark(world, levels, cell) {
            cells.push(cell)?;
        }
    }
    Ok(cells)
}
