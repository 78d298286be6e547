//! Whether the lists of a certificate are the regions of its cave: specs/Ends.antt.
ghost use Rattle.std.specs.Prelude.{◌≡◌, ◌↔◌, ◌<◌, length, IfOk, IsTrue};
ghost use Rattle.cave_base.specs.Box.{cell_count};
ghost use Rattle.lit_lists.specs.Seeded.{AreUnlit};
ghost use Rattle.proof_check.specs.Ends as ends;

use crate::ends::is_misplaced;
use crate::homes::{Home, Homes};
use cave_base::Cell;
use cave_model::World;
use lit_lists::{Lists, lit_cells};
use std::alloc::{AllocError, Global};

/// Whether a cell is in no list and has to be in one, or is misplaced.
fn is_unparted(home: Home, needed: bool) -> bool
    ensures { result ≡ ends.is_unparted home needed }
{
    match home {
        Home::Nowhere => needed,
        Home::Only(_) | Home::Several => is_misplaced(home, needed),
    }
}

/// Whether in a box of `count` cells each dark one is in just one list, and no other is in any.
fn are_parted(lists: &Lists, regions: &Homes, count: Cell) -> bool
    ensures { IsTrue result ↔ ends.AreParted lists.now regions.now count }
{
    for cell in 0..count {
        if is_unparted(regions.of(cell), lists.is_dark(cell)) {
            return false;
        }
    }
    true
}

/// The first place that lights dark cells of two regions. Where the regions part the dark cells, no other cell is
/// listed, and nothing else can be wrong with them.
fn first_joining(world: &World, lists: &Lists, regions: &Homes) -> Option<Cell>
    requires parted { ends.AreParted lists.now regions.now (cell_count world.now.size) }
    ensures { ends.DecidesBad world.now lists.now regions.now (cell_count world.now.size) result }
{
    for place in 0..world.cell_count() {
        if regions.are_two(lists.lights(place)) {
            return Some(place);
        }
    }
    None
}

/// Whether the place lights cells of two regions, dark or not. The levels are a scratch of no light.
fn lights_two(
    alloc: Global,
    world: &World,
    levels: &mut [u8],
    lists: &Lists,
    regions: &Homes,
    place: Cell,
) -> Result<bool, AllocError>
    requires cells { length levels.old ≡ cell_count world.now.size }
    requires unlit { AreUnlit levels.old }
    requires inside { place < cell_count world.now.size }
    ensures lights { IfOk result (ends.DecidesLights world.now lists.now regions.now place) }
    ensures unlit { IfOk result (λ _. AreUnlit levels.new) }
{
    if !lists.is_place(place) {
        return Ok(false);
    }
    let cells = lit_cells(alloc, world, levels, place)?;
    Ok(regions.are_two(&cells))
}

/// The first cell that keeps the lists from being regions. The levels are a scratch of no light.
fn first_bad_cell(
    alloc: Global,
    world: &World,
    levels: &mut [u8],
    lists: &Lists,
    regions: &Homes,
) -> Result<Option<Cell>, AllocError>
    requires cells { length levels.old ≡ cell_count world.now.size }
    requires unlit { AreUnlit levels.old }
    ensures { IfOk result (ends.DecidesBad world.now lists.now regions.now (cell_count world.now.size)) }
{
    for cell in 0..world.cell_count() {
        if is_unparted(regions.of(cell), lists.is_dark(cell)) {
            return Ok(Some(cell));
        }
        if lights_two(alloc, world, levels, lists, regions, cell)? {
            return Ok(Some(cell));
        }
    }
    Ok(None)
}

/// The first cell that keeps the lists from being the regions of the world.
pub fn bad_cell(
    alloc: Global,
    world: &World,
    lists: &Lists,
    regions: &Homes,
) -> Result<Option<Cell>, AllocError>
    ensures { IfOk result (ends.DecidesBad world.now lists.now regions.now (cell_count world.now.size)) }
{
    if are_parted(lists, regions, world.cell_count()) {
        return Ok(first_joining(world, lists, regions));
    }
    // What a place lights is listed for dark cells alone, so where others are in regions light is followed from it.
    let mut levels = vec![in alloc; 0; world.cell_count() as usize]?;
    let bad = first_bad_cell(alloc, world, levels.as_mut_slice(), lists, regions)?;
    Ok(bad)
}
