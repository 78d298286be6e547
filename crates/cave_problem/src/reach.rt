//! The reach of a block: the cells that light from its cells can come to. They have numbers in the order in which they
//! were found, so that what a flood reads and writes lies close together.
ghost use Rattle.std.specs.Prelude.{◌≡◌, ◌<◌, ◌≤◌, ◌+◌, [], length, IfOk, OnOk};
ghost use Rattle.cave_base.specs.Box.{most_cells};
ghost use Rattle.cave_problem.specs.Reach.{AreSources, BeginsWith, HaveRoom, IsLinkedReach, IsLongerReach};
ghost use Rattle.cave_problem.specs.Reach.{IsNumberOf, IsReach};

use cave_base::Cell;
use std::alloc::AllocError;

/// The number of a cell that isn't there.
pub const NONE: u32 = u32::MAX;

/// A reach that begins with `sources` sources, and whose first `count` cells are linked: `near` has the six numbers of
/// the sides of each.
#[derive(Clone, Copy)]
pub struct Linked<'a> {
    pub reach: &'a [Cell],
    pub near: &'a [u32],
    pub sources: usize,
    pub count: usize,
}

/// Begins a reach with these cells.
pub fn begin(local: &mut [u32], reach: &mut Vec<Cell>, cells: &[Cell]) -> Result<(), AllocError>
    requires cells { AreSources (length local.old) cells.now }
    requires none { reach.old.items ≡ [] }
    requires reach { IsReach local.old reach.old.items }
    ensures reach { OnOk result (IsReach local.new reach.new.items) }
    ensures same { OnOk result (reach.new.items ≡ cells.now) }
{
    for (number, cell) in cells.iter().enumerate() {
        reach.push(*cell)?;
        local[*cell as usize] = number as u32;
    }
    Ok(())
}

/// The number of a cell, which the reach then has.
fn number_of(local: &mut [u32], reach: &mut Vec<Cell>, cell: Cell) -> Result<u32, AllocError>
    requires inside { cell < length local.old }
    requires small { length local.old ≤ most_cells }
    requires reach { IsReach local.old reach.old.items }
    ensures reach { OnOk result (IsLongerReach reach.old.items local.new reach.new.items) }
    ensures number { IfOk result (λ n. IsNumberOf reach.new.items cell n) }
{
    if local[cell as usize] != NONE {
        return Ok(local[cell as usize]);
    }
    let number = reach.len() as u32;
    reach.push(cell)?;
    local[cell as usize] = number;
    Ok(number)
}

/// Writes down the numbers of the sides of the cell with this number.
fn link(
    sides: &[Cell],
    local: &mut [u32],
    reach: &mut Vec<Cell>,
    near: &mut [u32],
    number: usize,
) -> Result<(), AllocError>
    requires sides { HaveRoom sides.now local.old near.old }
    requires number { number < length reach.old.items }
    requires reach { IsLinkedReach sides.now local.old reach.old.items near.old number }
    ensures reach { OnOk result (IsLinkedReach sides.now local.new reach.new.items near.new (number + 1)) }
    ensures kept { OnOk result (BeginsWith reach.old.items reach.new.items) }
{
    let cell = reach[number];
    for face in 0..6 {
        near[6 * number + face] = number_of(local, reach, sides[6 * cell as usize + face])?;
    }
    Ok(())
}

/// Links all cells that the reach has, from this number on. The sides of these cells enter it.
pub fn grow(
    sides: &[Cell],
    local: &mut [u32],
    reach: &mut Vec<Cell>,
    near: &mut [u32],
    from: usize,
) -> Result<(), AllocError>
    requires sides { HaveRoom sides.now local.old near.old }
    requires from { from ≤ length reach.old.items }
    requires reach { IsLinkedReach sides.now local.old reach.old.items near.old from }
    ensures reach { let count = length reach.old.items in
        OnOk result (IsLinkedReach sides.now local.new reach.new.items near.new count) }
    ensures kept { OnOk result (BeginsWith reach.old.items reach.new.items) }
{
    for number in from..reach.len() {
        link(sides, local, reach, near, number)?;
    }
    Ok(())
}

/// Takes the numbers of the reach's cells away.
pub fn forget(local: &mut [u32], reach: &[Cell])
    requires reach { IsReach local.old reach.now }
    ensures { IsReach local.new [] }
{
    for cell in reach {
        local[*cell as usize] = NONE;
    }
}
