//! Whether places keep the capacities of groups.
ghost use Rattle.std.specs.Prelude.{◌≡◌, ◌↔◌, ◌<◌, length, IsTrue, IfOk};
ghost use Rattle.weight_judge.specs.Claims.{AreClaims};
ghost use Rattle.weight_judge.specs.Held.{AreAllKept, AreListsBelow};
ghost use Rattle.weight_judge.specs.Rooms.{AreNoRooms};

use crate::claims::Claim;
use crate::place_lists::PlaceLists;
use crate::rooms::{Rooms, take_places};
use std::alloc::{AllocError, Global};

/// Whether no place lights more of a group than its capacity, and none lights cells of two groups. Each claim has the
/// list of the places below `count` that light its cell, each place once.
pub fn keep_capacities(
    alloc: Global,
    count: usize,
    claims: &[Claim],
    lists: &PlaceLists,
) -> Result<bool, AllocError>
    requires claims { AreClaims claims.now }
    requires lists { AreListsBelow count lists.now }
    requires whole { length lists.now ≡ length claims.now }
    ensures { IfOk result (λ yes. IsTrue yes ↔ AreAllKept claims.now lists.now) }
{
    let mut rooms = Rooms::new(alloc, count)?;
    let kept = take_all(&mut rooms, claims, lists);
    Ok(kept)
}

/// Takes all claims from rooms of which none lights a cell, if each room has enough left.
fn take_all(rooms: &mut Rooms, claims: &[Claim], lists: &PlaceLists) -> bool
    requires claims { AreClaims claims.now }
    requires lists { AreListsBelow (length rooms.old) lists.now }
    requires whole { length lists.now ≡ length claims.now }
    requires none { AreNoRooms (length rooms.old) rooms.old }
    ensures { IsTrue result ↔ AreAllKept claims.now lists.now }
{
    for index in 0..claims.len() {
        let places = lists.list(index);
        if !take_places(rooms, places, claims[index]) {
            return false;
        }
    }
    true
}
