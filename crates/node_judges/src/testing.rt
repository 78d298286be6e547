//! Tests of single cells and places against a tally: specs/Tests.antt.
ghost use Rattle.std.specs.List.Sorted.{IsStrictlyIncreasing};
ghost use Rattle.std.specs.Prelude.{◌≡◌, ℕ, [], ◌++◌, ◌↔◌, ◌<◌, length, All, Contains, IsTrue, IfOk, OnOk};
ghost use Rattle.node_judges.specs.Settings.{left_in};
ghost use Rattle.node_judges.specs.Tests as tests;

use crate::setting::Setting;
use crate::tally::Tally;
use cave_base::Cell;
use lit_lists::Lists;
use std::alloc::{AllocError, Global};

/// Whether one of the places is in the tally.
fn meet(places: &[Cell], tally: &Tally) -> bool
    ensures { IsTrue result ↔ tests.Meet places.now tally.now.items }
{
    for place in places {
        if tally.has(*place) {
            return true;
        }
    }
    false
}

/// Whether one of the places that isn't barred is in the tally.
pub fn meet_open(places: &[Cell], barred: &Tally, tally: &Tally) -> bool
    ensures { IsTrue result ↔ tests.MeetOpen places.now barred.now.items tally.now.items }
{
    for place in places {
        if tally.has(*place) && !barred.has(*place) {
            return true;
        }
    }
    false
}

/// Puts the places into the tally.
pub fn mark(places: &[Cell], tally: &mut Tally) -> Result<(), AllocError>
    ensures marked { OnOk result (((place : ℕ) → Contains places.now place → place < length tally.old.counts)
        → tally.new.items ≡ tally.old.items ++ places.now) }
    ensures whole { length tally.new.counts ≡ length tally.old.counts }
{
    for place in places {
        tally.push(*place)?;
    }
    Ok(())
}

/// Puts the cells that the places light into the empty tally.
pub fn mark_lit(lists: &Lists, places: &Tally, tally: &mut Tally) -> Result<(), AllocError>
    requires none { tally.old.items ≡ [] }
    requires matched { tests.AreMatched lists.now (length tally.old.counts) }
    ensures lit { OnOk result (tests.AreLitBy lists.now places.now.items tally.new.items) }
    ensures whole { length tally.new.counts ≡ length tally.old.counts }
{
    let places = places.items();
    for place in places {
        mark(lists.lights(*place), tally)?;
    }
    Ok(())
}

/// Whether the cell is of what is left of the region.
pub fn is_left(setting: &Setting, cell: Cell) -> bool
    ensures left { IsTrue result ↔ Contains (left_in setting.now) cell }
    ensures inside { IsTrue result → cell < length setting.now.region.now.counts }
{
    if setting.omitted.has(cell) {
        return false;
    }
    setting.region.has(cell)
}

/// Whether all cells are of what is left of the region.
pub fn are_left(setting: &Setting, cells: &[Cell]) -> bool
    ensures left { IsTrue result ↔ All (Contains (left_in setting.now)) cells.now }
    ensures inside { IsTrue result → All (λ cell. cell < length setting.now.region.now.counts) cells.now }
{
    for cell in cells {
        if !is_left(setting, *cell) {
            return false;
        }
    }
    true
}

/// Whether the cell is of what is left of the region, and no chosen place lights it.
pub fn is_free(setting: &Setting, cell: Cell) -> bool
    ensures free { IsTrue result
        ↔ tests.IsFree setting.now.lists.now (left_in setting.now) setting.now.chosen.now.items cell }
    ensures inside { IsTrue result → cell < length setting.now.region.now.counts }
{
    if !is_left(setting, cell) {
        return false;
    }
    !meet(setting.lists.lit_by(cell), setting.chosen)
}

/// The places that aren't barred.
pub fn left_of(alloc: Global, places: &[Cell], barred: &Tally) -> Result<Vec<Cell>, AllocError>
    requires ascending { IsStrictlyIncreasing places.now }
    ensures { IfOk result (λ v. tests.AreLeft places.now barred.now.items v.items) }
{
    let mut left = Vec::new(alloc);
    for place in places {
        if !barred.has(*place) {
            left.push(*place)?;
        }
    }
    Ok(left)
}

/// Whether each of the cells that is of what is left of the region is lit by a chosen place or by this one.
fn are_served(setting: &Setting, by: Cell, cells: &[Cell]) -> bool
    ensures { IsTrue result ↔ tests.AreServed setting.now.lists.now (left_in setting.now)
        setting.now.chosen.now.items by cells.now }
{
    for cell in cells {
        if !is_served(setting, by, *cell) {
            return false;
        }
    }
    true
}

/// Whether the cell isn't of what is left of the region, or is lit by a chosen place or by this one.
fn is_served(setting: &Setting, by: Cell, cell: Cell) -> bool
    ensures { IsTrue result ↔ tests.IsServed setting.now.lists.now (left_in setting.now)
        setting.now.chosen.now.items by cell }
{
    if !is_left(setting, cell) {
        return true;
    }
    // the first test is the quicker one, and most cells pass it
    let places = setting.lists.lit_by(cell);
    places.contains(&by) || meet(places, setting.chosen)
}

/// Whether the place may be left out for the other.
pub fn is_dominated(setting: &Setting, place: Cell, by: Cell) -> bool
    ensures { IsTrue result ↔ tests.IsDominatedIn setting.now.lists.now (left_in setting.now)
        setting.now.chosen.now.items setting.now.barred.now.items place by }
{
    let lists = setting.lists;
    if !lists.is_place(place) || !lists.is_place(by) || place == by {
        return false;
    }
    let barred = setting.barred;
    if barred.has(place) || barred.has(by) || setting.chosen.has(place) {
        return false;
    }
    are_served(setting, by, lists.lights(place))
}

/// Whether the place may be picked: it is legal, and neither chosen nor barred.
pub fn may_be_picked(setting: &Setting, place: Cell) -> bool
    ensures { IsTrue result ↔ tests.MayBePickedIn setting.now.lists.now setting.now.chosen.now.items
        setting.now.barred.now.items place }
{
    if !setting.lists.is_place(place) || setting.chosen.has(place) {
        return false;
    }
    !setting.barred.has(place)
}
