//! The legal places of a cave, ascending.
ghost use Rattle.std.specs.Prelude.{◌<◌, ◌^◌, ◌↔◌, IfOk, IsTrue};
ghost use Rattle.cave_base.specs.Box as grid;
ghost use Rattle.cave_model.specs.Torches.{IsPlace};
ghost use Rattle.cave_problem.specs.Filling.{AreListedPlaces};

use cave_base::Cell;
use cave_model::{OutOfMemory, World};
use std::alloc::Global;

/// Whether a new torch may go into the cell.
fn is_place(world: &World, cell: Cell) -> bool
    requires in_box { cell < grid.cell_count world.now.size }
    ensures { IsTrue result ↔ IsPlace world.now cell }
{
    world.hang_of(cell).is_some()
}

/// The cells into which a new torch may go, ascending.
pub fn legal_places(alloc: Global, world: &World) -> Result<Vec<Cell>, OutOfMemory>
    ensures places { IfOk result (λ v. AreListedPlaces world.now v.items) }
    ensures small { grid.cell_count world.now.size < 2 ^ 32 }
{
    let mut places = Vec::new(alloc);
    for cell in 0..world.cell_count() {
        if is_place(world, cell) {
            places.push(cell)?;
        }
    }
    Ok(places)
}
