//! What each place lights, block by block of the dark cells, from floods of light: specs/Filling.antt.
ghost use Rattle.std.specs.Prelude.{◌≡◌, ◌<◌, ◌^◌, length, IfOk, OnOk};
ghost use Rattle.cave_base.specs.Box.{cell_count};
ghost use Rattle.cave_problem.specs.Filling.{AreListedPlaces, AreUnfilled, IsFilling, IsListed};
ghost use Rattle.set_cover.specs.Instance.{words_for};

use crate::block_flood::BlockFlood;
use crate::blocks::{Column, block_of, store};
use crate::indexing::indices_of;
use crate::reach::Linked;
use crate::sides::sides_of;
use cave_base::Cell;
use cave_model::{OutOfMemory, World};
use set_cover::{Buckets, empty};
use std::alloc::Global;

/// What each place lights, by index, and the row of the cells that some place lights.
#[derive(Drop)]
pub struct Lighting {
    pub lit: Buckets,
    pub covered: Vec<u64>,
}

/// What each of these places lights of these cells, and which of the cells some place lights.
pub fn lists_of(
    alloc: Global,
    world: &World,
    cells: &[Cell],
    places: &[Cell],
) -> Result<Lighting, OutOfMemory>
    requires cells { IsListed world.now cells.now }
    requires places { AreListedPlaces world.now places.now }
    requires small { cell_count world.now.size < 2 ^ 32 }
    ensures filled { IfOk result (λ r. IsFilling world.now cells.now places.now r.lit r.covered.items) }
    ensures wide { IfOk result (λ r. length r.covered.items ≡ words_for (length cells.now)) }
{
    let lit = Buckets::new(alloc, places.len())?;
    let covered = empty(alloc, cells.len().div_ceil(64))?;
    let mut lighting = Lighting { lit, covered };
    fill(alloc, world, cells, places, &mut lighting)?;
    Ok(lighting)
}

/// Fills the lists of the places, a block of cells after another, and the row of the cells that some place lights.
fn fill(
    alloc: Global,
    world: &World,
    cells: &[Cell],
    places: &[Cell],
    lighting: &mut Lighting,
) -> Result<(), OutOfMemory>
    requires cells { IsListed world.now cells.now }
    requires places { AreListedPlaces world.now places.now }
    requires blank { AreUnfilled cells.now places.now lighting.old.lit lighting.old.covered.items }
    ensures filled { OnOk result (IsFilling world.now cells.now places.now lighting.new.lit
        lighting.new.covered.items) }
    ensures wide { OnOk result (length lighting.new.covered.items ≡ length lighting.old.covered.items) }
{
    let box_size = world.cell_count();
    let indices = indices_of(alloc, box_size, places)?;
    let sides = sides_of(alloc, world)?;
    let mut flood = BlockFlood::new(alloc, box_size)?;
    let lit = &mut lighting.lit;
    let covered = lighting.covered.as_mut_slice();
    for block in 0..covered.len() {
        let sources = block_of(cells, block);
        let count = flood.spread(world, &sides, sources)?;
        let reach = flood.reach.as_slice();
        let near = flood.near.as_slice();
        let levels = flood.levels.as_slice();
        let linked = Linked {
            reach,
            near,
            sources: sources.len(),
            count,
        };
        let column = Column {
            places,
            indices: &indices,
            block,
        };
        covered[block] = store(world, &linked, levels, &column, lit)?;
        flood.clear();
    }
    Ok(())
}
