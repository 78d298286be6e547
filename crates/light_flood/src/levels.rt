//! The store of a flood over the whole box, with a level for each cell: specs/Levels.antt.
ghost use Rattle.std.specs.Prelude.{◌≡◌, ◌<◌, length, slice_index, IfOk};
ghost use Rattle.light_flood.specs.Levels.{HasNoLight};

use crate::store::Store;
use cave_base::Cell;
use std::alloc::{AllocError, Global};
use std::marker::Model;

/// The level of block light of each cell of a box: 0 to 15 (Minecraft Wiki, "Light").
#[derive(Debug, Drop)]
pub struct Levels {
    levels: Vec<u8>,
}

impl Model for Levels {
    ghost use Rattle.std.specs.Prelude.{List, ℕ};

    ghost Value = { List ℕ };

    ghost view = { λ l. l.levels.items };
}

impl Levels {
    /// `count` cells without light.
    pub(crate) fn new(alloc: Global, count: u32) -> Result<Levels, AllocError>
        ensures { IfOk result (HasNoLight count) }
    {
        let levels = vec![in alloc; 0; count as usize]?;
        Ok(Levels { levels })
    }

    /// The level of a cell, and 0 for a number beyond the box.
    pub fn at(&self, cell: Cell) -> u8
        ensures { result ≡ slice_index self.now cell }
    {
        match self.levels.get(cell as usize) {
            Some(level) => *level,
            None => 0,
        }
    }
}

impl Store for Levels {
    ghost levels = { λ l cell. slice_index l cell };

    ghost cells = { λ l. length l };

    fn level(&self, cell: Cell) -> u8 {
        self.levels[cell as usize]
    }

    fn raise(&mut self, cell: Cell, level: u8) -> Result<(), AllocError> {
        self.levels[cell as usize] = level;
        Ok(())
    }
}
