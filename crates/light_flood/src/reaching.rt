//! The flood from one source: `AreReachOf` of specs/Levels.antt.
ghost use Rattle.std.specs.Prelude.{◌<◌, ◌≤◌, IfOk};
ghost use Rattle.cave_base.specs.Box.{cell_count};
ghost use Rattle.light_flood.specs.Levels.{AreReachOf};
ghost use Rattle.light_flood.specs.Reached.{reached};

use crate::level_map::LevelMap;
use crate::reached::Reach;
use crate::spreading::Flood;
use crate::waiting::Waiting;
use cave_base::Cell;
use cave_model::{OutOfMemory, World};
use std::alloc::Global;

/// The levels that an emission at this cell alone gives, whatever the cell's own. Time and memory go by the cells that
/// the light reaches, not by the box.
pub fn reach(alloc: Global, world: &World, cell: Cell, emission: u8) -> Result<Reach, OutOfMemory>
    requires in_box { cell < cell_count world.now.size }
    requires emission { emission ≤ 15 }
    ensures { IfOk result (λ r. AreReachOf world.now cell emission (reached r)) }
{
    let store = LevelMap::new(alloc, world.cell_count());
    let waiting = Waiting::new(alloc)?;
    let mut flood = Flood { store, waiting };
    flood.seed(world, cell, emission)?;
    flood.spread(world)?;
    Ok(Reach::from_map(flood.store.into_levels()))
}
