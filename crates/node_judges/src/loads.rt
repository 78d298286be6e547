//! What the claims of groups load on the places that light their cells.
ghost use Rattle.std.specs.Prelude.{◌<◌, All, length, MatchBool};
ghost use Rattle.cave_model.specs.Plan.{AreDistinct};
ghost use Rattle.node_judges.specs.Loads as loads;
ghost use Rattle.node_judges.specs.Tests.{AreAscendingBelow, AreInside};
ghost use Rattle.weight_judge.specs.Claims.{AreClaims};
ghost use Rattle.weight_judge.specs.Rooms.{AreNoRooms};

use crate::tally::Tally;
use cave_base::Cell;
use lit_lists::Lists;
use weight_judge::{Claim, Rooms};

/// Takes the claim's weight from the rooms of the places, until one that isn't barred has less; a barred one that has
/// less is passed over.
fn take_open(rooms: &mut Rooms, places: &[Cell], barred: &Tally, claim: Claim) -> bool
    requires inside { All (λ place. place < length rooms.old) places.now }
    requires once { AreDistinct places.now }
    ensures taken { MatchBool result
        (loads.AreTakenOpen places.now barred.now.items claim rooms.old rooms.new)
        (loads.LackOpenRoom places.now barred.now.items claim rooms.old) }
    ensures change { loads.ChangeAt places.now rooms.old rooms.new }
{
    for place in places {
        if !rooms.take(*place, claim) && !barred.has(*place) {
            return false;
        }
    }
    true
}

/// Takes all claims from the rooms of places of which none lights a cell, until one that isn't barred has less.
fn take_all(rooms: &mut Rooms, lists: &Lists, barred: &Tally, claims: &[Claim]) -> bool
    requires claims { AreClaims claims.now }
    requires places { AreAscendingBelow lists.now (length rooms.old) }
    requires none { AreNoRooms (length rooms.old) rooms.old }
    ensures kept { loads.DecidesKept lists.now barred.now.items claims.now result }
    ensures within { loads.AreWithin lists.now claims.now (length rooms.old) rooms.new }
{
    for claim in claims {
        if !take_open(rooms, lists.lit_by(claim.cell), barred, *claim) {
            return false;
        }
    }
    true
}

/// The places light no cell any more.
fn clear_places(rooms: &mut Rooms, places: &[Cell])
    requires inside { All (λ place. place < length rooms.old) places.now }
    ensures { loads.AreCleared places.now rooms.old rooms.new }
{
    for place in places {
        rooms.clear(*place);
    }
}

/// None of the places that light the claims' cells lights a cell any more.
fn clear_all(rooms: &mut Rooms, lists: &Lists, claims: &[Claim])
    requires inside { AreInside lists.now (length rooms.old) }
    requires within { loads.AreWithin lists.now claims.now (length rooms.old) rooms.old }
    ensures { AreNoRooms (length rooms.old) rooms.new }
{
    for claim in claims {
        clear_places(rooms, lists.lit_by(claim.cell));
    }
}

/// Whether no place that isn't barred lights more of a group than its capacity or cells of two groups. No place has a
/// room, and none has one after it.
pub fn keep_open(rooms: &mut Rooms, lists: &Lists, barred: &Tally, claims: &[Claim]) -> bool
    requires claims { AreClaims claims.now }
    requires places { AreAscendingBelow lists.now (length rooms.old) }
    requires none { AreNoRooms (length rooms.old) rooms.old }
    ensures kept { loads.DecidesKept lists.now barred.now.items claims.now result }
    ensures none { AreNoRooms (length rooms.old) rooms.new }
{
    let kept = take_all(rooms, lists, barred, claims);
    clear_all(rooms, lists, claims);
    kept
}
