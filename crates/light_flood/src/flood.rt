//! The flood from all sources of a cave: `AreLevelsOf` of specs/Levels.antt.
ghost use Rattle.std.specs.Prelude.{◌<◌, length, slice_index, IfOk, OnOk};
ghost use Rattle.cave_base.specs.Box.{cell_count};
ghost use Rattle.light_flood.specs.Levels.{AreLevelsOf, HasNoLight};
ghost use Rattle.light_flood.specs.Spreading.{AreEmissions, IsFloodIn, NoneWaits};

use crate::levels::Levels;
use crate::spreading::Flood;
use crate::waiting::Waiting;
use cave_model::{OutOfMemory, World};
use std::alloc::Global;

/// Gives each cell its emission.
fn seed_all(world: &World, flood: &mut Flood<Levels>) -> Result<(), OutOfMemory>
    requires unlit { HasNoLight (cell_count world.now.size) flood.old.store }
    requires none_waits { NoneWaits flood.old.waiting }
    ensures emissions { OnOk result (AreEmissions world.now flood.new.store) }
    ensures flood { OnOk result (let levels = flood.new.store in
        IsFloodIn world.now 16 16 (length levels) (slice_index levels) flood.new.waiting) }
{
    for cell in 0..world.cell_count() {
        flood.seed(world, cell, world.class_of(cell).emission)?;
    }
    Ok(())
}

/// The level of light of every cell.
pub fn light(alloc: Global, world: &World) -> Result<Levels, OutOfMemory>
    ensures { IfOk result (AreLevelsOf world.now) }
{
    let store = Levels::new(alloc, world.cell_count())?;
    let waiting = Waiting::new(alloc)?;
    let mut flood = Flood { store, waiting };
    seed_all(world, &mut flood)?;
    flood.spread(world)?;
    Ok(flood.store)
}
