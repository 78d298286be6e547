//! Which of a block's cells, up to 64, bring a level of light to a cell, as the bits of a word.
//!
//! A cell gets a level from what its sides have at a higher one, so the levels are filled from the highest down.
ghost use Rattle.std.specs.Prelude.{◌<◌, ◌≤◌, ◌*◌, ◌^◌, length, OnOk};
ghost use Rattle.cave_problem.specs.Blocks.{AreInRoom, AreWidened, HasRoom, IsUnion, IsWordBy, Settles};

use crate::reach::Linked;
use cave_model::World;
use std::alloc::AllocError;

/// The bits that the sides of the cell with this number have at a level.
fn gathered(near: &[u32], levels: &[u64], number: usize, level: usize) -> u64
    requires near { AreInRoom near.now levels.now number }
    requires level { level < 16 }
    requires small { number < 2 ^ 32 }
    ensures { IsUnion near.now levels.now number level 6 result }
{
    let mut word = 0;
    for face in 0..6 {
        word |= levels[16 * near[6 * number + face] as usize + level];
    }
    word
}

/// The word of the reach's cell with this number at a level, where the words at the levels above are there.
pub fn word_of(world: &World, linked: &Linked<'_>, levels: &[u64], number: usize, level: u8) -> u64
    requires room { HasRoom world.now linked.now.reach.now linked.now.near.now levels.now
        linked.now.sources linked.now.count }
    requires number { number < linked.now.count }
    requires level { (1 ≤ level) × (level < 16) }
    ensures { IsWordBy world.now linked.now.reach.now linked.now.near.now levels.now linked.now.sources number level
        result }
{
    let above = level as usize + u8::max(1, world.class_of(linked.reach[number]).opacity) as usize;
    if above >= 16 {
        return 0;
    }
    let word = gathered(linked.near, levels, number, above);
    if number < linked.sources {
        word | 1 << number
    } else {
        word
    }
}

/// Fills the words of the linked cells at a level, where the words at the levels above are there.
pub fn settle(world: &World, linked: &Linked<'_>, levels: &mut [u64], level: u8)
    requires room { HasRoom world.now linked.now.reach.now linked.now.near.now levels.old
        linked.now.sources linked.now.count }
    requires level { (1 ≤ level) × (level < 16) }
    ensures { Settles world.now linked.now.reach.now linked.now.near.now linked.now.sources linked.now.count level
        levels.old levels.new }
{
    for number in 0..linked.count {
        levels[16 * number + level as usize] = word_of(world, linked, levels, number, level);
    }
}

/// Makes room for the words of `count` cells. Those that come have no bit.
pub fn widen(levels: &mut Vec<u64>, count: usize) -> Result<(), AllocError>
    requires small { count < 2 ^ 32 }
    ensures { OnOk result (AreWidened count levels.old.items levels.new.items) }
{
    levels.resize(16 * count, 0)?;
    Ok(())
}
