//! In which region's list each cell stands: specs/Homes.antt.
ghost use Rattle.std.specs.Prelude.{◌≡◌, ◌↔◌, ◌<◌, ◌+◌, ◌^◌, [], length, slice_index_or, IfOk, IsTrue};
ghost use Rattle.proof_check.specs.Homes.{AreHomesOf, DecidesTwo, Joins, PutsAll, both_homes};
ghost use Rattle.proof_check.specs.declared.homes.Home.TheVariants as home_kinds;

use cave_base::Cell;
use std::alloc::{AllocError, Global};
use std::marker::Model;

/// In which of some lists a cell stands.
#[derive(Clone, Copy, Debug, PartialEq, Eq)]
pub enum Home {
    Nowhere,
    /// In the list with this number alone.
    Only(u64),
    /// In several lists.
    Several,
}

/// In which of some lists each cell of a box stands.
#[derive(Debug, Drop)]
pub struct Homes {
    homes: Vec<Home>,
    /// How many lists there are.
    count: u64,
}

impl Model for Homes {
    ghost use Rattle.proof_check.specs.Homes as told;

    ghost Value = { told.Homes };

    ghost view = { λ h. record { homes = h.homes.items; count = h.count } };
}

impl Homes {
    /// No list, in a box of `count` cells.
    pub fn new(alloc: Global, count: u32) -> Result<Homes, AllocError>
        ensures none { IfOk result (AreHomesOf []) }
        ensures whole { IfOk result (λ h. length h.homes ≡ count) }
    {
        Ok(Homes {
            homes: vec![in alloc; Home::Nowhere; count as usize]?,
            count: 0,
        })
    }

    /// Where the cell stands; one outside the box stands nowhere.
    pub fn of(&self, cell: Cell) -> Home
        ensures { result ≡ slice_index_or self.now.homes cell home_kinds.Nowhere }
    {
        let cell = cell as usize;
        if cell < self.homes.len() {
            self.homes[cell]
        } else {
            Home::Nowhere
        }
    }

    /// The next list.
    pub fn join(&mut self, cells: &[Cell])
        requires room { self.old.count + 1 < 2 ^ 64 }
        ensures { Joins cells.now self.old self.new }
    {
        put_all(self.homes.as_mut_slice(), self.count, cells);
        self.count += 1;
    }

    /// Whether the cells stand in two lists.
    pub fn are_two(&self, cells: &[Cell]) -> bool
        ensures { DecidesTwo cells.now self.now result }
    {
        let mut seen = Home::Nowhere;
        for cell in cells {
            seen = both(seen, self.of(*cell));
        }
        is_several(seen)
    }
}

fn is_several(home: Home) -> bool
    ensures { IsTrue result ↔ home ≡ home_kinds.Several }
{
    match home {
        Home::Several => true,
        _ => false,
    }
}

/// Where the cells of either home stand.
fn both(first: Home, second: Home) -> Home
    ensures { result ≡ both_homes first second }
{
    match first {
        Home::Nowhere => second,
        Home::Several => Home::Several,
        Home::Only(i) => match second {
            Home::Nowhere => first,
            Home::Several => Home::Several,
            Home::Only(j) => { if i == j { first } else { Home::Several } }
        },
    }
}

/// Puts the cells into the list with this number.
fn put_all(homes: &mut [Home], number: u64, cells: &[Cell])
    ensures { PutsAll number cells.now homes.old homes.new }
{
    for cell in cells {
        let at = *cell as usize;
        if at < homes.len() {
            homes[at] = both(homes[at], Home::Only(number));
        }
    }
}
