//! The cells that a flood has yet to go on from, by level: `IsWaiting` of specs/Spreading.antt.
ghost use Rattle.std.specs.Prelude.{◌≡◌, ◌<◌, [], ◌∷◌, ◌++◌, IfOk, OnOk};
ghost use Rattle.light_flood.specs.Spreading.{IsWaiting, NoneWaits, waiting_at};

use cave_base::Cell;
use std::alloc::{AllocError, Global};
use std::marker::Model;
use std::mem;

/// How many levels there are, 0 included.
pub const LEVELS: usize = 16;

/// The cells that have yet to pass their light on, by their level.
#[derive(Debug, Drop)]
pub struct Waiting {
    alloc: Global,
    cells: Vec<Vec<Cell>>,
}

impl Model for Waiting {
    ghost use Rattle.std.specs.Prelude.{◌≡◌, ℕ, List, length, map};

    ghost Value = { List (List ℕ) };

    ghost view = { λ w. map (λ v. v.items) w.cells.items };

    ghost invariant = { λ w. length w.cells.items ≡ 16 };
}

impl Waiting {
    /// No cell waits.
    pub fn new(alloc: Global) -> Result<Waiting, AllocError>
        ensures { IfOk result NoneWaits }
    {
        let mut cells = Vec::with_capacity(alloc, LEVELS)?;
        for _ in 0..LEVELS {
            cells.push(Vec::new(alloc))?;
        }
        Ok(Waiting { alloc, cells })
    }

    /// The cell waits at this level.
    pub fn push(&mut self, level: u8, cell: Cell) -> Result<(), AllocError>
        requires level { level < 16 }
        ensures { OnOk result (IsWaiting self.old level (waiting_at self.old level ++ cell ∷ []) self.new) }
    {
        let at_level = &mut self.cells[level as usize];
        at_level.push(cell)?;
        Ok(())
    }

    /// The cells that wait at this level, which wait no longer.
    pub fn take(&mut self, level: u8) -> Vec<Cell>
        requires level { level < 16 }
        ensures taken { result.items ≡ waiting_at self.old level }
        ensures rest { IsWaiting self.old level [] self.new }
    {
        mem::replace(&mut self.cells[level as usize], Vec::new(self.alloc))
    }
}
