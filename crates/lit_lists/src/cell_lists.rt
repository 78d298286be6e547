//! A list of numbers for each cell, and for each number the cells whose lists it is in: `AreTurned` of specs/Rows.antt.
ghost use Rattle.std.specs.Prelude.{◌≡◌, length, IfOk};
ghost use Rattle.cave_model.specs.Parts as grid;
ghost use Rattle.lit_lists.specs.Lists.{row_at};
ghost use Rattle.lit_lists.specs.Rows.{AreOfOneBox, AreTurned, AreWhole};

use crate::counting::counts_of;
use crate::filling::Filling;
use std::alloc::{AllocError, Global};
use std::marker::Model;

/// Lists of numbers, one for each cell of a box. They stand in one vector, one list after another.
#[derive(Debug, Drop)]
pub struct CellLists {
    /// Where each list begins, and last where all end.
    starts: Vec<usize>,
    numbers: Vec<u32>,
}

impl Model for CellLists {
    ghost use Rattle.std.specs.Prelude.{ℕ, List};
    ghost use Rattle.cave_model.specs.Parts.{parts};
    ghost use Rattle.lit_lists.specs.Rows.{AreWhole};

    ghost Value = { List (List ℕ) };

    ghost view = { λ r. parts r.starts.items r.numbers.items };

    ghost invariant = { λ r. AreWhole r.starts.items r.numbers.items };
}

impl CellLists {
    /// The lists that stand in this vector, from each start to the next.
    pub fn new(starts: Vec<usize>, numbers: Vec<u32>) -> CellLists
        requires whole { AreWhole starts.items numbers.items }
        ensures { result ≡ grid.parts starts.items numbers.items }
    {
        CellLists { starts, numbers }
    }

    /// The list of a cell; past the end it is empty.
    pub fn row(&self, cell: u32) -> &[u32]
        ensures { result.now ≡ row_at self.now cell }
    {
        let row = cell as usize;
        if row + 1 < self.starts.len() {
            &self.numbers[self.starts[row]..self.starts[row + 1]]
        } else {
            &[]
        }
    }

    /// For each of `count` numbers, the cells whose lists it is in. There are as many cells as numbers.
    pub fn turned(&self, alloc: Global, count: u32) -> Result<CellLists, AllocError>
        requires count { length self.now ≡ count }
        requires boxed { AreOfOneBox self.now }
        ensures whole { IfOk result (λ t. length t ≡ length self.now) }
        ensures turned { IfOk result (AreTurned self.now) }
    {
        let counts = counts_of(alloc, &self.numbers, count)?;
        let mut filling = Filling::new(alloc, &counts)?;
        filling.fill(&self.starts, &self.numbers, count);
        let Filling {
            starts,
            numbers,
            ..
        } = filling;
        Ok(CellLists::new(starts, numbers))
    }
}
