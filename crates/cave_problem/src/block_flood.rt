//! A flood of light from up to 64 cells at once, side by side in the bits of words.
//!
//! Source: M. Then et al., "The more the merrier: efficient multi-source graph traversal", 2014, for floods side by
//! side in words. The order, level by level from the highest down, is this project's own.
ghost use Rattle.std.specs.Prelude.{◌≤◌, length, IfOk};
ghost use Rattle.cave_base.specs.Box.{cell_count, most_cells};
ghost use Rattle.cave_problem.specs.BlockFlood.{HasSpread, IsLeft, IsReady};
ghost use Rattle.cave_problem.specs.Reach.{AreSides, AreSources};

use crate::levels::{settle, widen};
use crate::reach::{Linked, NONE, begin, forget, grow};
use cave_base::Cell;
use cave_model::World;
use std::alloc::{AllocError, Global};

/// The memory of a flood, for a box: made once, and lent to each block. Each cell of the box has its number in the
/// reach, and each number of the reach a cell, six numbers of sides and 16 words. There are words for the reach alone.
#[derive(Drop)]
pub struct BlockFlood {
    pub local: Vec<u32>,
    pub reach: Vec<Cell>,
    pub near: Vec<u32>,
    pub levels: Vec<u64>,
}

impl BlockFlood {
    /// The memory for a box of `count` cells.
    pub fn new(alloc: Global, count: u32) -> Result<BlockFlood, AllocError>
        requires small { count ≤ most_cells }
        ensures { IfOk result (IsReady count) }
    {
        Ok(BlockFlood {
            local: vec![in alloc; NONE; count as usize]?,
            reach: Vec::new(alloc),
            near: vec![in alloc; 0u32; 6 * count as usize]?,
            levels: Vec::new(alloc),
        })
    }

    /// Floods from the sources. The words at the levels above the one that is needed are filled. How many of the
    /// reach's cells are linked: among them is each to which a source brings what is needed.
    pub fn spread(
        &mut self,
        world: &World,
        sides: &[Cell],
        sources: &[Cell],
    ) -> Result<usize, AllocError>
        requires sides { AreSides world.now (cell_count world.now.size) sides.now }
        requires sources { AreSources (cell_count world.now.size) sources.now }
        requires ready { IsReady (cell_count world.now.size) self.old }
        ensures { IfOk result (λ count. HasSpread world.now sources.now self.new count) }
    {
        let local = self.local.as_mut_slice();
        let near = self.near.as_mut_slice();
        let levels = &mut self.levels;
        let reach = &mut self.reach;
        begin(local, reach, sources)?;
        let mut from = 0;
        for level in (world.need() + 1..15).rev() {
            let count = reach.len();
            grow(sides, local, reach, near, from)?;
            widen(levels, reach.len())?;
            let linked = Linked {
                reach: reach.as_slice(),
                near,
                sources: sources.len(),
                count,
            };
            settle(world, &linked, levels.as_mut_slice(), level);
            from = count;
        }
        let count = reach.len();
        grow(sides, local, reach, near, from)?;
        widen(levels, reach.len())?;
        Ok(count)
    }

    /// Takes away what a flood left.
    pub fn clear(&mut self)
        requires { IsLeft (length self.old.local.items) self.old }
        ensures { IsReady (length self.old.local.items) self.new }
    {
        forget(self.local.as_mut_slice(), self.reach.as_slice());
        self.levels.clear();
        self.reach.clear();
    }
}
