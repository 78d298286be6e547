//! What each place may still light of the group whose cells it lights.
ghost use Rattle.std.specs.Prelude.{◌≡◌, ◌<◌, All, length, Some, None, IfOk, MatchBool, MatchOption};
ghost use Rattle.cave_model.specs.Plan.{AreDistinct};
ghost use Rattle.weight_judge.specs.Rooms.{AreNoRooms, AreTaken, IsCleared, IsTaken, LackRoom, LacksRoom, Takes};
ghost use Rattle.weight_judge.specs.Rooms.{room_at};

use crate::claims::Claim;
use std::alloc::{AllocError, Global};
use std::marker::Model;

/// The one group of which a place lights cells, and how much more of its weight the place may light.
#[derive(Clone, Copy)]
pub struct Room {
    /// By its index.
    pub group: usize,
    pub left: u32,
}

/// The room of a place that lights its first cell, that of the claim.
fn first_room(claim: Claim) -> Option<Room>
    ensures { MatchOption result (claim.capacity < claim.weight)
        (λ new. Takes claim None new) }
{
    if claim.capacity < claim.weight {
        return None;
    }
    Some(Room {
        group: claim.group,
        left: claim.capacity - claim.weight,
    })
}

/// The room of a place that lights one cell more, that of the claim.
fn next_room(room: Room, claim: Claim) -> Option<Room>
    ensures { MatchOption result (LacksRoom claim (Some room)) (Takes claim (Some room)) }
{
    if room.group != claim.group {
        return None;
    }
    if room.left < claim.weight {
        return None;
    }
    Some(Room {
        group: room.group,
        left: room.left - claim.weight,
    })
}

/// What is left where a place lights the cell of the claim too; None where that is too much, or the place lights a cell
/// of another group.
fn room_after(room: Option<Room>, claim: Claim) -> Option<Room>
    ensures { MatchOption result (LacksRoom claim room) (Takes claim room) }
{
    match room {
        None => first_room(claim),
        Some(room) => next_room(room, claim),
    }
}

/// For each place of a box what it may still light of the group whose cells it lights.
#[derive(Drop)]
pub struct Rooms {
    /// By the number of the place; None where it lights no cell.
    rooms: Vec<Option<Room>>,
}

impl Model for Rooms {
    ghost use Rattle.std.specs.Prelude.{List, Option};
    ghost use Rattle.weight_judge.specs.declared.rooms.Room.{Room};

    ghost Value = { List (Option Room) };

    ghost view = { λ r. r.rooms.items };
}

impl Rooms {
    /// `count` places that light no cell.
    pub fn new(alloc: Global, count: usize) -> Result<Rooms, AllocError>
        ensures { IfOk result (AreNoRooms count) }
    {
        let rooms = vec![in alloc; None; count]?;
        Ok(Rooms { rooms })
    }

    /// Takes the claim's weight from the room of a place, if enough is left in it.
    pub fn take(&mut self, place: u32, claim: Claim) -> bool
        requires inside { place < length self.old }
        ensures { MatchBool result (IsTaken place claim self.old self.new)
            (LacksRoom claim (room_at self.old place) × self.new ≡ self.old) }
    {
        match room_after(self.rooms[place as usize], claim) {
            None => false,
            Some(room) => {
                self.rooms[place as usize] = Some(room);
                true
            }
        }
    }

    /// The place lights no cell any more.
    pub fn clear(&mut self, place: u32)
        requires inside { place < length self.old }
        ensures { IsCleared place self.old self.new }
    {
        self.rooms[place as usize] = None;
    }
}

/// Takes the claim's weight from the rooms of the places that light its cell, if enough is left in all.
pub fn take_places(rooms: &mut Rooms, places: &[u32], claim: Claim) -> bool
    requires inside { All (λ place. place < length rooms.old) places.now }
    requires once { AreDistinct places.now }
    ensures { MatchBool result (AreTaken places.now claim rooms.old rooms.new)
        (LackRoom claim places.now rooms.old) }
{
    for place in places {
        if !rooms.take(*place, claim) {
            return false;
        }
    }
    true
}
