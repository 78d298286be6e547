//! The cells that light from one source reaches, and the light that leads from a cell back to its places:
//! specs/Reached.antt.
ghost use Rattle.std.specs.Prelude.{◌≡◌, ◌<◌, ◌≤◌, [], length, All, IfOk, IfSome, OnOk};
ghost use Rattle.cave_base.specs.Box.{cell_count};
ghost use Rattle.cave_model.specs.Cave.{IsSound};
ghost use Rattle.cave_model.specs.Passages.{ArePassages};
ghost use Rattle.lit_lists.specs.Lists.{AreLitCells};
ghost use Rattle.lit_lists.specs.Reached.{AreReached, IsLightBack, IsSource};
ghost use Rattle.lit_lists.specs.Seeded.{AreTaken, AreUnlit, ArePutOut, IsScratch};

use crate::relaxing::relax;
use cave_base::Cell;
use cave_model::{Passages, World};
use std::alloc::{AllocError, Global};

/// The level of light of a torch (Minecraft Wiki, "Torch").
const TORCH_LIGHT: u8 = 14;

/// What light loses as it enters a place, which is as air.
const PLACE_COST: u8 = 1;

/// Takes the light from all cells of the queue, and lists those that had some.
fn take_lit(levels: &mut [u8], queue: &[Cell], lit: &mut Vec<Cell>) -> Result<(), AllocError>
    requires inside { All (λ cell. cell < length levels.old) queue.now }
    requires empty { lit.old.items ≡ [] }
    ensures taken { OnOk result (AreTaken levels.old queue.now lit.new.items) }
    ensures out { OnOk result (ArePutOut levels.old queue.now levels.new) }
{
    for cell in queue {
        if levels[*cell as usize] > 0 {
            lit.push(*cell)?;
        }
        levels[*cell as usize] = 0;
    }
    Ok(())
}

/// Lists the cells that light of this level at the source reaches, each once, in place of what was listed. The levels
/// are a scratch of no light, and are so again; the queue lends its memory.
pub fn reach(
    world: &World,
    passages: Option<&Passages>,
    levels: &mut [u8],
    queue: &mut Vec<Cell>,
    reached: &mut Vec<Cell>,
    source: Cell,
    light: u8,
) -> Result<(), AllocError>
    requires passages { IfSome passages (λ p. ArePassages world.now p.now) }
    requires scratch { IsScratch world.now levels.old }
    requires source { IsSource world.now source light }
    ensures reached { OnOk result (AreReached world.now source light reached.new.items) }
    ensures scratch { OnOk result (IsScratch world.now levels.new) }
{
    queue.clear();
    reached.clear();
    queue.push(source)?;
    levels[source as usize] = light;
    relax(world, passages, levels, queue)?;
    take_lit(levels, queue.as_slice(), reached)?;
    Ok(())
}

/// The light at a cell that reaches just those places whose torch lights the cell. On its way back light loses what
/// entering this cell costs, and not what entering the place does.
pub fn light_back(world: &World, cell: Cell) -> u8
    requires inside { cell < cell_count world.now.size }
    requires sound { IsSound world.now }
    ensures back { IsLightBack world.now cell result }
    ensures low { result ≤ 15 }
{
    let cost = u8::max(1, world.class_of(cell).opacity);
    (TORCH_LIGHT + PLACE_COST + 1 - world.need()).saturating_sub(cost)
}

/// The cells that a torch at the place lights, each once. The levels are a scratch of no light, and are so again.
pub fn lit_cells(
    alloc: Global,
    world: &World,
    levels: &mut [u8],
    place: Cell,
) -> Result<Vec<Cell>, AllocError>
    requires cells { length levels.old ≡ cell_count world.now.size }
    requires unlit { AreUnlit levels.old }
    requires inside { place < cell_count world.now.size }
    ensures lit { IfOk result (λ v. AreLitCells world.now place v.items) }
    ensures unlit { IfOk result (λ _. AreUnlit levels.new) }
{
    let mut queue = Vec::new(alloc);
    let mut cells = Vec::new(alloc);
    let light = TORCH_LIGHT + 1 - world.need();
    reach(world, None, levels, &mut queue, &mut cells, place, light)?;
    Ok(cells)
}
