//! Reasons that lie in whole lists of torches and cells: specs/Ends.antt.
ghost use Rattle.std.specs.Prelude.{◌≡◌, ◌↔◌, IsTrue};
ghost use Rattle.proof_check.specs.Ends as ends;

use crate::homes::{Home, Homes};
use cave_base::Cell;
use lit_lists::Lists;

/// Whether a cell is in some list.
fn is_somewhere(home: Home) -> bool
    ensures { result ≡ ends.is_somewhere home }
{
    match home {
        Home::Nowhere => false,
        Home::Only(_) | Home::Several => true,
    }
}

/// Whether a cell is in two lists, or in one and may not be.
pub fn is_misplaced(home: Home, allowed: bool) -> bool
    ensures { result ≡ ends.is_misplaced home allowed }
{
    match home {
        Home::Nowhere => false,
        Home::Only(_) => !allowed,
        Home::Several => true,
    }
}

/// Whether one of the places is listed.
fn has_torch(places: &[Cell], torches: &Homes) -> bool
    ensures { IsTrue result ↔ ends.HasTorch places.now torches.now }
{
    for place in places {
        if is_somewhere(torches.of(*place)) {
            return true;
        }
    }
    false
}

/// The first torch of a box of `count` cells that is at no place, or is listed twice.
pub fn first_misplaced(lists: &Lists, torches: &Homes, count: Cell) -> Option<Cell>
    ensures { ends.IsFirst (ends.IsMisplaced lists.now.places torches.now) count result }
{
    for cell in 0..count {
        if is_misplaced(torches.of(cell), lists.is_place(cell)) {
            return Some(cell);
        }
    }
    None
}

/// Whether the cell is dark, and no listed place lights it.
fn is_unlit(lists: &Lists, torches: &Homes, cell: Cell) -> bool
    ensures { IsTrue result ↔ ends.IsUnlitBy lists.now torches.now cell }
{
    if !lists.is_dark(cell) {
        return false;
    }
    !has_torch(lists.lit_by(cell), torches)
}

/// The first dark cell of a box of `count` cells that no listed place lights.
pub fn first_unlit(lists: &Lists, torches: &Homes, count: Cell) -> Option<Cell>
    ensures { ends.IsFirst (ends.IsUnlitBy lists.now torches.now) count result }
{
    for cell in 0..count {
        if is_unlit(lists, torches, cell) {
            return Some(cell);
        }
    }
    None
}
