//! Regions of the worked rings, of a corridor, and of a hall.
use super::worlds::world_by;
use cave_files::caves::{AIR, CORRIDOR_27, FELT_TABLE, RING, STONE, TWO_FELT_RINGS};
use cave_files::{Fill, Structure};
use cave_model::Rule;
use cave_problem::Problem;
use cave_regions::{split, whole};
use instance_regions::Region;
use std::alloc::{AllocError, Global};
use std::sync::Arc;
use std::test::Fail;

fn problem(alloc: Global, structure: &Structure<'_>) -> Result<Problem, Fail> {
    let world = world_by(alloc, structure, FELT_TABLE, Rule::new(2, 1))?;
    Ok(Problem::new(alloc, &world)?)
}

/// The one region of all cells.
fn region(alloc: Global, structure: &Structure<'_>) -> Result<Arc<Region>, Fail> {
    match whole(alloc, &problem(alloc, structure)?)? {
        Some(region) => Ok(Arc::new(alloc, region)?),
        None => Err(AllocError.into()),
    }
}

/// One torch lights it all.
pub(crate) fn corridor(alloc: Global) -> Result<Arc<Region>, Fail> {
    region(alloc, &CORRIDOR_27)
}

/// A hall of 46 by 46 cells, three high: ten places are fewest.
pub(crate) fn hall(alloc: Global) -> Result<Arc<Region>, Fail> {
    region(
        alloc,
        &Structure {
            size: [48, 5, 48],
            palette: &[STONE, AIR],
            fills: &[
                Fill([0, 0, 0], [47, 4, 47], Some(0)),
                Fill([1, 1, 1], [46, 3, 46], Some(1)),
            ],
            more: &[],
        },
    )
}

/// Torches may hang all about it: each cell is lit by 52 places, and two places are fewest.
pub(crate) fn stone_ring(alloc: Global) -> Result<Arc<Region>, Fail> {
    region(alloc, &RING)
}

/// Both rings as one region of 56 cells.
pub(crate) fn both_rings(alloc: Global) -> Result<Arc<Region>, Fail> {
    region(alloc, &TWO_FELT_RINGS)
}

/// Each of the two rings.
pub(crate) fn each_ring(alloc: Global) -> Result<Vec<Region>, Fail> {
    Ok(split(alloc, &problem(alloc, &TWO_FELT_RINGS)?)?)
}
