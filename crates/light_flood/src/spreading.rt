//! Passing light on. The cells that wait are a bucket queue (Dial's algorithm: E. Dial, "Algorithm 360: shortest-path
//! forest with topological ordering", 1969): levels from 15 down, each with the cells that got it.
ghost use Rattle.std.specs.Prelude.{◌≡◌, ◌<◌, ◌≤◌, ◌+◌, OnOk};
ghost use Rattle.cave_base.specs.Box.{cell_count};
ghost use Rattle.cave_model.specs.Cells.{AreNeighbours};
ghost use Rattle.light_flood.specs.Spreading.{HasPassed, IsFloodIn, IsPassed, IsRaised, IsSettled, IsSource, IsStep};

use crate::store::Store;
use crate::waiting::Waiting;
use cave_base::Cell;
use cave_model::World;
use std::alloc::AllocError;

/// A flood of light: the levels so far, and the cells that have yet to pass theirs on.
#[derive(Debug, Drop)]
pub struct Flood<S: Store> {
    pub store: S,
    pub waiting: Waiting,
}

impl<S: Store> Flood<S> {
    /// Gives a cell without light its emission, before light spreads.
    pub fn seed(&mut self, world: &World, cell: Cell, emission: u8) -> Result<(), AllocError>
        requires unlit { IsSource world.now (S.levels self.old.store) cell emission }
        requires flood { let s = self.old.store in
            IsFloodIn world.now 16 16 (S.cells s) (S.levels s) self.old.waiting }
        ensures cells { S.cells self.new.store ≡ cell_count world.now.size }
        ensures raised { OnOk result (IsRaised (S.levels self.old.store) cell emission (S.levels self.new.store)) }
        ensures flood { OnOk result (let s = self.new.store in
            IsFloodIn world.now 16 16 (S.cells s) (S.levels s) self.new.waiting) }
    {
        if emission > 0 {
            self.store.raise(cell, emission)?;
            self.waiting.push(emission, cell)?;
        }
        Ok(())
    }

    /// Passes light on from one cell to a neighbour, which then waits with what it got.
    fn offer(&mut self, world: &World, from: Cell, to: Cell) -> Result<(), AllocError>
        requires shared { AreNeighbours world.now.size from to × (to < cell_count world.now.size) }
        requires flood { let s = self.old.store in let level = S.levels s from in
            IsFloodIn world.now (level + 1) level (S.cells s) (S.levels s) self.old.waiting }
        ensures cells { S.cells self.new.store ≡ cell_count world.now.size }
        ensures step { OnOk result (let s = self.old.store in let level = S.levels s from in
            IsStep world.now (level + 1) level (S.levels s) (S.levels self.new.store) self.new.waiting) }
        ensures passed { OnOk result (IsPassed world.now (S.levels self.new.store) from to) }
    {
        let level = self.store.level(from);
        let here = self.store.level(to);
        // Entering costs one at least. Most neighbours have as much light already, so their cost isn't looked up.
        if level.saturating_sub(1) <= here {
            return Ok(());
        }
        let cost = u8::max(1, world.class_of(to).opacity);
        let brought = level.saturating_sub(cost);
        if brought > here {
            self.store.raise(to, brought)?;
            self.waiting.push(brought, to)?;
        }
        Ok(())
    }

    /// Passes light on from one cell to all its neighbours, one face after another.
    fn pass_around(&mut self, world: &World, from: Cell) -> Result<(), AllocError>
        requires in_box { from < cell_count world.now.size }
        requires flood { let s = self.old.store in let level = S.levels s from in
            IsFloodIn world.now (level + 1) level (S.cells s) (S.levels s) self.old.waiting }
        ensures cells { S.cells self.new.store ≡ cell_count world.now.size }
        ensures step { OnOk result (let s = self.old.store in let level = S.levels s from in
            IsStep world.now (level + 1) level (S.levels s) (S.levels self.new.store) self.new.waiting) }
        ensures passed { OnOk result (HasPassed world.now (S.levels self.new.store) from) }
    {
        for to in world.neighbours(from) {
            if let Some(to) = to {
                self.offer(world, from, to)?;
            }
        }
        Ok(())
    }

    /// Passes light on from all cells of this level, those above having done so.
    fn pass_level(&mut self, world: &World, level: u8) -> Result<(), AllocError>
        requires level { (1 ≤ level) × (level < 16) }
        requires flood { let s = self.old.store in
            IsFloodIn world.now (level + 1) (level + 1) (S.cells s) (S.levels s) self.old.waiting }
        ensures cells { S.cells self.new.store ≡ cell_count world.now.size }
        ensures step { OnOk result (let s = self.old.store in
            IsStep world.now level level (S.levels s) (S.levels self.new.store) self.new.waiting) }
    {
        let cells = self.waiting.take(level);
        for from in &cells {
            if self.store.level(*from) == level {
                self.pass_around(world, *from)?;
            }
        }
        Ok(())
    }

    /// Lets light spread, where every cell with light waits at its level.
    pub fn spread(&mut self, world: &World) -> Result<(), AllocError>
        requires flood { let s = self.old.store in
            IsFloodIn world.now 16 16 (S.cells s) (S.levels s) self.old.waiting }
        ensures cells { S.cells self.new.store ≡ cell_count world.now.size }
        ensures settled { OnOk result (IsSettled world.now (S.levels self.old.store) (S.levels self.new.store)) }
    {
        // Level 1 has nothing to pass on.
        for level in (2..16).rev() {
            self.pass_level(world, level)?;
        }
        Ok(())
    }
}
