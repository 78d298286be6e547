//! Parts of the path, each with what it counts.
use crate::regions;
use cave_model::{OutOfMemory, Rule, World};
use cave_problem::{CoverFault, Problem};
use cave_reading::read_cave;
use light_flood::{dark_cells, light, reach};
use std::alloc::Global;
use std::test::Fail;

/// The cave of a structure by the shipped rows.
pub fn world_of(alloc: Global, bytes: &[u8], rule: Rule) -> Result<World, Fail> {
    Ok(read_cave(alloc, bytes, None, rule)?)
}

/// What a part counts; 0 for a word that names none.
pub fn counted(alloc: Global, world: &World, part: &str) -> Result<usize, CoverFault> {
    match part {
        "cave" => Ok(world.cell_count() as usize),
        "light" => Ok(dark(alloc, world)?),
        "reach" => Ok(reaches(alloc, world)? as usize),
        "coverage" => coverage(alloc, world),
        "split" => regions::count(alloc, world),
        _ => Ok(0),
    }
}

/// How many cells are dark, by one flood from all sources.
fn dark(alloc: Global, world: &World) -> Result<usize, OutOfMemory> {
    let levels = light(alloc, world)?;
    Ok(dark_cells(alloc, world, &levels)?.len())
}

/// From how many places a torch has its light where it stands, by a reach from each.
fn reaches(alloc: Global, world: &World) -> Result<u32, OutOfMemory> {
    let mut count = 0u32;
    for cell in 0..world.cell_count() {
        if world.hang_of(cell).is_some() && reach(alloc, world, cell, 14)?.at(cell) == 14 {
            count = count.wrapping_add(1);
        }
    }
    Ok(count)
}

/// How many places the problem of the cave has.
fn coverage(alloc: Global, world: &World) -> Result<usize, CoverFault> {
    Ok(Problem::new(alloc, world)?.places().len())
}
