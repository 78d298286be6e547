//! Light by rounds of relaxation: `IsSettled` of specs/Relaxing.antt.
ghost use Rattle.std.specs.Prelude.{◌≡◌, ◌<◌, ◌≤◌, ◌-◌, length, slice_index, IfOk, IfSome, OnOk};
ghost use Rattle.cave_base.specs.Box.{cell_count};
ghost use Rattle.cave_model.specs.Cells.{AreNeighbours};
ghost use Rattle.cave_model.specs.Passages.{ArePassages};
ghost use Rattle.lit_lists.specs.Relaxing.{AreWaysFrom, Grows, IsBegun, IsSeeded, IsPassed, IsSettled, PassesOn};
ghost use Rattle.lit_lists.specs.Relaxing.{Relaxes};

use cave_base::Cell;
use cave_model::{Passages, World};
use std::alloc::AllocError;

/// Levels are at most 15 and fall by one a step at least, so that after 14 rounds no cell is left that can raise
/// another.
const ROUNDS: u8 = 14;

/// Offers the light of a cell to one of its neighbours, which joins the queue if it is raised.
fn offer(
    world: &World,
    levels: &mut [u8],
    queue: &mut Vec<Cell>,
    from: Cell,
    to: Cell,
) -> Result<(), AllocError>
    requires cells { length levels.old ≡ cell_count world.now.size }
    requires shared { AreNeighbours world.now.size from to }
    requires inside { to < cell_count world.now.size }
    ensures grows { OnOk result (Grows world.now (slice_index levels.old from)
        (slice_index levels.old) queue.old.items (slice_index levels.new) queue.new.items) }
    ensures passed { OnOk result (IsPassed world.now (slice_index levels.new) from to) }
{
    let level = levels[from as usize];
    let here = levels[to as usize];
    // Entering costs one at least. Most neighbours have as much light already, so their cost isn't looked up.
    if level.saturating_sub(1) <= here {
        return Ok(());
    }
    let cost = u8::max(1, world.class_of(to).opacity);
    let brought = level.saturating_sub(cost);
    if brought > here {
        levels[to as usize] = brought;
        queue.push(to)?;
    }
    Ok(())
}

/// Passes the light of a cell on to all its neighbours.
fn pass_to_all(
    world: &World,
    levels: &mut [u8],
    queue: &mut Vec<Cell>,
    from: Cell,
) -> Result<(), AllocError>
    requires cells { length levels.old ≡ cell_count world.now.size }
    requires inside { from < cell_count world.now.size }
    ensures { OnOk result (PassesOn world.now from
        (slice_index levels.old) queue.old.items (slice_index levels.new) queue.new.items) }
{
    for to in world.neighbours(from) {
        if let Some(to) = to {
            offer(world, levels, queue, from, to)?;
        }
    }
    Ok(())
}

/// Passes the light of a cell on to those of its neighbours that it can enter, which are these.
fn pass_to_these(
    world: &World,
    levels: &mut [u8],
    queue: &mut Vec<Cell>,
    from: Cell,
    these: &[Cell],
) -> Result<(), AllocError>
    requires cells { length levels.old ≡ cell_count world.now.size }
    requires inside { from < cell_count world.now.size }
    requires low { slice_index levels.old from ≤ 15 }
    requires these { AreWaysFrom world.now from these.now }
    ensures { OnOk result (PassesOn world.now from
        (slice_index levels.old) queue.old.items (slice_index levels.new) queue.new.items) }
{
    for to in these {
        offer(world, levels, queue, from, *to)?;
    }
    Ok(())
}

/// Passes the light of a cell on to its neighbours; where passages are given, without a look at those of no use.
fn pass_on(
    world: &World,
    passages: Option<&Passages>,
    levels: &mut [u8],
    queue: &mut Vec<Cell>,
    from: Cell,
) -> Result<(), AllocError>
    requires passages { IfSome passages (λ p. ArePassages world.now p.now) }
    requires cells { length levels.old ≡ cell_count world.now.size }
    requires inside { from < cell_count world.now.size }
    requires low { slice_index levels.old from ≤ 15 }
    ensures { OnOk result (PassesOn world.now from
        (slice_index levels.old) queue.old.items (slice_index levels.new) queue.new.items) }
{
    // Entering costs one at least, so of so little light nothing is left.
    if levels[from as usize] <= 1 {
        return Ok(());
    }
    match passages {
        Some(passages) => pass_to_these(world, levels, queue, from, passages.from(from))?,
        None => pass_to_all(world, levels, queue, from)?,
    }
    Ok(())
}

/// A round: the cells of the queue from this index on pass their light on. Where those begin that it raised.
fn round(
    world: &World,
    passages: Option<&Passages>,
    levels: &mut [u8],
    queue: &mut Vec<Cell>,
    begin: usize,
) -> Result<usize, AllocError>
    requires passages { IfSome passages (λ p. ArePassages world.now p.now) }
    requires cells { length levels.old ≡ cell_count world.now.size }
    requires begun { IsBegun world.now (slice_index levels.old) queue.old.items begin }
    ensures begun { IfOk result (IsBegun world.now (slice_index levels.new) queue.new.items) }
    ensures relaxes { IfOk result (λ end. Relaxes world.now (slice_index levels.old) queue.old.items begin
        (slice_index levels.new) queue.new.items end) }
{
    let end = queue.len();
    for index in begin..end {
        let from = queue[index];
        pass_on(world, passages, levels, queue, from)?;
    }
    Ok(end)
}

/// Lets the light of the cells in the queue spread; sooner where the passages of the world are given.
pub fn relax(
    world: &World,
    passages: Option<&Passages>,
    levels: &mut [u8],
    queue: &mut Vec<Cell>,
) -> Result<(), AllocError>
    requires passages { IfSome passages (λ p. ArePassages world.now p.now) }
    requires cells { length levels.old ≡ cell_count world.now.size }
    requires seeded { IsSeeded world.now (slice_index levels.old) queue.old.items }
    ensures settled { OnOk result (IsSettled world.now
        (slice_index levels.old) (slice_index levels.new) queue.new.items) }
{
    let mut begin = 0;
    for _ in 0..ROUNDS {
        begin = round(world, passages, levels, queue, begin)?;
    }
    Ok(())
}
