//! Lists that grow side by side in one vector: `IsFilling` of specs/Filling.antt.
ghost use Rattle.std.specs.Prelude.{◌≡◌, ◌<◌, ◌+◌, ◌^◌, set, slice_index, sum, Contains, IfOk};
ghost use Rattle.cave_model.specs.Parts as grid;
ghost use Rattle.cave_model.specs.Plan.{AreDistinct};
ghost use Rattle.lit_lists.specs.Filling.{AreFull, AreFurther, AreReady, HasRoom, HaveRoom, IsFilling};
ghost use Rattle.lit_lists.specs.Filling.{AreSumsOf, lists_in};
ghost use Rattle.lit_lists.specs.Rows.{ArePushed, AreRowsOf, AreTurned, IsPushed};

use crate::counting::sums_of;
use std::alloc::{AllocError, Global};

/// Lists that are being filled, each in its own part of one vector, which has room for the whole list.
#[derive(Debug, Drop)]
pub struct Filling {
    /// Where each part begins, and last where all end.
    pub starts: Vec<usize>,
    /// Where in each part the next number goes.
    pub next: Vec<usize>,
    pub numbers: Vec<u32>,
    ghost filling: { IsFilling starts.items next.items numbers.items },
}

impl Filling {
    /// Empty lists with room for as many numbers each as these counts say.
    pub fn new(alloc: Global, counts: &[usize]) -> Result<Filling, AllocError>
        requires fits { sum counts.now < 2 ^ 64 }
        ensures sums { IfOk result (λ f. AreSumsOf counts.now f.starts.items) }
        ensures empty { IfOk result (λ f. f.next.items ≡ f.starts.items) }
    {
        let starts = sums_of(alloc, counts)?;
        let next = Vec::from_slice(alloc, &starts)?;
        let numbers = vec![in alloc; 0; starts[counts.len()]]?;
        Ok(Filling {
            starts,
            next,
            numbers,
        })
    }

    /// Puts a number at the end of the list in a part that isn't full.
    fn push(&mut self, part: u32, number: u32)
        requires room { HasRoom self.old.starts.items self.old.next.items part }
        ensures starts { self.new.starts.items ≡ self.old.starts.items }
        ensures next { self.new.next.items
            ≡ set self.old.next.items part (slice_index self.old.next.items part + 1) }
        ensures pushed { IsPushed
            (lists_in self.old.starts.items self.old.next.items self.old.numbers.items) part number
            (lists_in self.new.starts.items self.new.next.items self.new.numbers.items) }
    {
        let at = self.next[part as usize];
        self.numbers[at] = number;
        self.next[part as usize] = at + 1;
    }

    /// Puts a number at the end of the list in each of these parts.
    fn push_all(&mut self, parts: &[u32], number: u32)
        requires room { HaveRoom self.old.starts.items self.old.next.items parts.now }
        requires once { AreDistinct parts.now }
        ensures starts { self.new.starts.items ≡ self.old.starts.items }
        ensures next { AreFurther self.old.next.items parts.now self.new.next.items }
        ensures pushed { ArePushed (Contains parts.now)
            (lists_in self.old.starts.items self.old.next.items self.old.numbers.items) number
            (lists_in self.new.starts.items self.new.next.items self.new.numbers.items) }
    {
        for part in parts {
            self.push(*part, number);
        }
    }

    /// Fills each part with the numbers of the lists that it is in. `parts` holds the `count` lists in turn.
    pub fn fill(&mut self, starts: &[usize], parts: &[u32], count: u32)
        requires rows { AreRowsOf count starts.now parts.now }
        requires ready { AreReady count self.old.starts.items self.old.next.items self.old.numbers.items parts.now }
        ensures starts { self.new.starts.items ≡ self.old.starts.items }
        ensures full { AreFull self.new.starts.items self.new.next.items }
        ensures turned { AreTurned (grid.parts starts.now parts.now)
            (lists_in self.new.starts.items self.new.next.items self.new.numbers.items) }
    {
        for number in 0..count {
            let row = number as usize;
            self.push_all(&parts[starts[row]..starts[row + 1]], number);
        }
    }
}
