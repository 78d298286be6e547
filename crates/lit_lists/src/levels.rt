//! The level of light of every cell: `AreLevelsOf` of specs/Relaxing.antt.
ghost use Rattle.std.specs.Prelude.{◌≡◌, [], length, IfOk, OnOk};
ghost use Rattle.cave_base.specs.Box.{cell_count};
ghost use Rattle.cave_model.specs.Passages.{ArePassages};
ghost use Rattle.lit_lists.specs.Relaxing.{AreLevelsOf};
ghost use Rattle.lit_lists.specs.Seeded.{AreSeeded};

use crate::relaxing::relax;
use cave_base::Cell;
use cave_model::{Passages, World};
use std::alloc::{AllocError, Global};

/// Gives each cell its emission; those that have some join the queue.
fn seed(world: &World, levels: &mut [u8], queue: &mut Vec<Cell>) -> Result<(), AllocError>
    requires cells { length levels.old ≡ cell_count world.now.size }
    requires empty { queue.old.items ≡ [] }
    ensures { OnOk result (AreSeeded world.now levels.new queue.new.items) }
{
    for cell in 0..world.cell_count() {
        let emission = world.class_of(cell).emission;
        levels[cell as usize] = emission;
        if emission > 0 {
            queue.push(cell)?;
        }
    }
    Ok(())
}

/// Fills in the level of light of every cell.
fn fill(
    alloc: Global,
    world: &World,
    passages: &Passages,
    levels: &mut [u8],
) -> Result<(), AllocError>
    requires passages { ArePassages world.now passages.now }
    requires cells { length levels.old ≡ cell_count world.now.size }
    ensures { OnOk result (AreLevelsOf world.now levels.new) }
{
    let mut queue = Vec::new(alloc);
    seed(world, levels, &mut queue)?;
    relax(world, Some(passages), levels, &mut queue)?;
    Ok(())
}

/// The level of light of every cell.
pub fn light(alloc: Global, world: &World, passages: &Passages) -> Result<Vec<u8>, AllocError>
    requires passages { ArePassages world.now passages.now }
    ensures { IfOk result (λ v. AreLevelsOf world.now v.items) }
{
    let mut levels = vec![in alloc; 0; world.cell_count() as usize]?;
    fill(alloc, world, passages, levels.as_mut_slice())?;
    Ok(levels)
}
