//! The store of a flood that stays small, with a level for each cell that has light: it meets `Store` of store.rt.
ghost use Rattle.std.specs.BTreeMap.{get};
ghost use Rattle.std.specs.Ordering.{nat_cmp};
ghost use Rattle.std.specs.Prelude.{◌≡◌, [], unwrap_or};

use crate::store::Store;
use cave_base::Cell;
use std::alloc::{AllocError, Global};
use std::collections::BTreeMap;

/// The levels of the cells that have light, out of `count` cells: memory for those alone.
#[derive(Debug, Drop)]
pub struct LevelMap {
    count: u32,
    levels: BTreeMap<Cell, u8>,
}

impl LevelMap {
    /// `count` cells without light.
    pub fn new(alloc: Global, count: u32) -> LevelMap
        ensures count { result.count ≡ count }
        ensures none { result.levels.entries ≡ [] }
    {
        LevelMap {
            count,
            levels: BTreeMap::new(alloc),
        }
    }

    /// The levels alone.
    pub fn into_levels(self) -> BTreeMap<Cell, u8>
        ensures { result ≡ self.levels }
    {
        let LevelMap { count: _, levels } = self;
        levels
    }
}

impl Store for LevelMap {
    ghost levels = { λ s cell. unwrap_or (get nat_cmp s.levels cell) 0 };

    ghost cells = { λ s. s.count };

    fn level(&self, cell: Cell) -> u8 {
        self.levels.get(&cell).copied().unwrap_or(0)
    }

    fn raise(&mut self, cell: Cell, level: u8) -> Result<(), AllocError> {
        self.levels.insert(cell, level)?;
        Ok(())
    }
}
