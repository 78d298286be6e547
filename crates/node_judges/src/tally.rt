//! A list of cells of a box with how often each stands in it: specs/Tally.antt.
ghost use Rattle.std.specs.Prelude.{OnOk};
ghost use Rattle.std.specs.Prelude.{◌≡◌, ◌<◌, ◌≤◌, [], ◌∷◌, ◌++◌, ◌-◌, ◌↔◌, length, take, Contains, IsTrue, IfOk};

use cave_base::Cell;
use std::alloc::{AllocError, Global};
use std::marker::Model;

/// A list of cells of a box that tells at once whether it has a cell.
#[derive(Debug, Drop)]
pub struct Tally {
    items: Vec<Cell>,
    /// How often each cell of the box stands in the list.
    counts: Vec<usize>,
}

impl Model for Tally {
    ghost use Rattle.node_judges.specs.Tally as tally;

    ghost Value = { tally.Tally };

    ghost view = { λ t. record { items = t.items.items; counts = t.counts.items } };

    ghost invariant = { λ t. tally.IsTally (record { items = t.items.items; counts = t.counts.items }) };
}

impl Tally {
    /// No cell, of a box of `count` cells.
    pub fn new(alloc: Global, count: u32) -> Result<Tally, AllocError>
        ensures none { IfOk result (λ t. t.items ≡ []) }
        ensures whole { IfOk result (λ t. length t.counts ≡ count) }
    {
        Ok(Tally {
            items: Vec::new(alloc),
            counts: vec![in alloc; 0; count as usize]?,
        })
    }

    /// Whether the list has the cell; none outside the box is in it.
    pub fn has(&self, cell: Cell) -> bool
        ensures has { IsTrue result ↔ Contains self.now.items cell }
        ensures inside { IsTrue result → cell < length self.now.counts }
    {
        match self.counts.get(cell as usize) {
            Some(count) => *count > 0,
            None => false,
        }
    }

    /// Puts a cell of the box at the end; one outside it is passed over.
    pub fn push(&mut self, cell: Cell) -> Result<(), AllocError>
        ensures items { OnOk result (cell < length self.old.counts → self.new.items ≡ self.old.items ++ cell ∷ []) }
        ensures outside { length self.old.counts ≤ cell → self.new ≡ self.old }
        ensures whole { length self.new.counts ≡ length self.old.counts }
    {
        if cell as usize >= self.counts.len() {
            return Ok(());
        }
        self.items.push(cell)?;
        self.counts[cell as usize] += 1;
        Ok(())
    }

    /// Takes the last cell away, where there is one.
    pub fn pop(&mut self)
        ensures items { self.new.items ≡ take (length self.old.items - 1) self.old.items }
        ensures whole { length self.new.counts ≡ length self.old.counts }
    {
        if let Some(cell) = self.items.pop() {
            self.counts[cell as usize] -= 1;
        }
    }

    /// Leaves the first `count` cells.
    pub fn cut(&mut self, count: usize)
        ensures items { self.new.items ≡ take count self.old.items }
        ensures whole { length self.new.counts ≡ length self.old.counts }
    {
        while self.items.len() > count {
            self.pop();
        }
    }

    /// The cells, in their order.
    pub fn items(&self) -> &[Cell]
        ensures { result.now ≡ self.now.items }
    {
        self.items.as_slice()
    }

    /// How many cells there are.
    pub fn len(&self) -> usize
        ensures { result ≡ length self.now.items }
    {
        self.items.len()
    }
}
