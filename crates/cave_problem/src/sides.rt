//! The sides of all cells: for each the six cells to which light can go on from there.
ghost use Rattle.std.specs.Prelude.{◌<◌, ◌≤◌, ◌≡◌, ◌*◌, length, IfOk, IfSome};
ghost use Rattle.cave_base.specs.Box.{cell_count};
ghost use Rattle.cave_model.specs.Light.{entering_cost};
ghost use Rattle.cave_problem.specs.Reach.{AreSides, AreSidesOf, IsSide};

use cave_base::Cell;
use cave_model::World;
use std::alloc::{AllocError, Global};

/// What no light comes through: as much as the highest level (Minecraft Wiki, "Light").
const OPAQUE: u8 = 15;

/// What lies beyond a face of the cell where light can enter it, or else the cell itself.
fn side_of(world: &World, cell: Cell, beyond: Option<Cell>) -> Cell
    requires inside { IfSome beyond (λ to. to < cell_count world.now.size) }
    ensures { IsSide world.now cell beyond result }
{
    if let Some(to) = beyond {
        if world.class_of(to).opacity < OPAQUE {
            return to;
        }
    }
    cell
}

/// Lists the sides of a cell. In a cave most cells let no light in.
fn list_sides(world: &World, cell: Cell, sides: &mut [Cell])
    requires in_box { cell < cell_count world.now.size }
    requires whole { length sides.old ≡ 6 * cell_count world.now.size }
    ensures { AreSidesOf world.now cell 6 sides.old sides.new }
{
    if world.class_of(cell).opacity < OPAQUE {
        list_beyond(world, cell, sides);
    } else {
        list_itself(world, cell, sides);
    }
}

/// Lists the cell itself at each face, where no light enters it.
fn list_itself(_world: &World, cell: Cell, sides: &mut [Cell])
    requires in_box { cell < cell_count _world.now.size }
    requires whole { length sides.old ≡ 6 * cell_count _world.now.size }
    requires opaque { 15 ≤ entering_cost _world.now cell }
    ensures { AreSidesOf _world.now cell 6 sides.old sides.new }
{
    for face in 0..6 {
        sides[6 * cell as usize + face] = cell;
    }
}

/// Lists what lies beyond each face of a cell where light can enter it.
fn list_beyond(world: &World, cell: Cell, sides: &mut [Cell])
    requires in_box { cell < cell_count world.now.size }
    requires whole { length sides.old ≡ 6 * cell_count world.now.size }
    ensures { AreSidesOf world.now cell 6 sides.old sides.new }
{
    for (face, beyond) in world.neighbours(cell).iter().enumerate() {
        sides[6 * cell as usize + face] = side_of(world, cell, *beyond);
    }
}

/// The sides of all cells, in the order of the cells.
pub fn sides_of(alloc: Global, world: &World) -> Result<Vec<Cell>, AllocError>
    ensures { IfOk result (λ v. AreSides world.now (cell_count world.now.size) v.items) }
{
    let mut sides = vec![in alloc; 0u32; 6 * world.cell_count() as usize]?;
    list_all(world, sides.as_mut_slice());
    Ok(sides)
}

/// Lists the sides of all cells.
fn list_all(world: &World, sides: &mut [Cell])
    requires whole { length sides.old ≡ 6 * cell_count world.now.size }
    ensures { AreSides world.now (cell_count world.now.size) sides.new }
{
    for cell in 0..world.cell_count() {
        list_sides(world, cell, sides);
    }
}
