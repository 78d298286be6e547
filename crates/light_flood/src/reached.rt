//! What a flood from one source leaves, the levels of the cells with light: `reached` of specs/Reached.antt.
ghost use Rattle.std.specs.BTreeMap.{get};
ghost use Rattle.std.specs.Ordering.{nat_cmp};
ghost use Rattle.std.specs.Prelude.{◌≡◌, ℕ, unwrap_or};
ghost use Rattle.light_flood.specs.Reached.{reached};

use cave_base::Cell;
use std::collections::BTreeMap;
use std::marker::Model;

/// The levels that an emission at one cell alone gives: kept for the cells that it reaches.
#[derive(Debug, Drop)]
pub struct Reach {
    levels: BTreeMap<Cell, u8>,
}

impl Model for Reach {
    ghost use Rattle.std.specs.Prelude.{ℕ};
    ghost use Rattle.std.specs.Ordering.{nat_cmp};
    ghost use Rattle.std.specs.FinMap as map;
    ghost use Rattle.std.specs.Coded.{coded_ℕ};

    ghost Value = { map.FinMap nat_cmp ℕ };

    ghost coded = { map.code coded_ℕ coded_ℕ };

    ghost view = { λ r. map.from_entries r.levels.entries };
}

impl Reach {
    pub(crate) fn from_map(levels: BTreeMap<Cell, u8>) -> Reach
        ensures { (cell : ℕ) → reached result cell ≡ unwrap_or (get nat_cmp levels cell) 0 }
    {
        Reach { levels }
    }

    /// The level in a cell, and 0 where the light doesn't come.
    pub fn at(&self, cell: Cell) -> u8
        ensures { result ≡ reached self.now cell }
    {
        self.levels.get(&cell).copied().unwrap_or(0)
    }
}
