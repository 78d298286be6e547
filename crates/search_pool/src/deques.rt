//! The workers' deques before any worker starts: `AreStocked` and `AreThievesOf` of specs/Deques.antt. The first one
//! has a piece on it.
ghost use Rattle.std.specs.Prelude.{◌≡◌, ◌≤◌, [], ◌∷◌, IfOk, length};
ghost use Rattle.search_pool.specs.Deques.{AreStocked, AreThievesOf};

use piece_deque::{Owner, Thief, open, push};
use proof_tree::Piece;
use std::alloc::{AllocError, Global};

/// How many pieces a worker's deque has room for: it shows few at once, and keeps the others to itself.
const ROOM: usize = 64;

/// A deque for each worker: the first has this piece on it, the others are empty.
pub(crate) fn stocked(alloc: Global, workers: u32, piece: Piece) -> Result<Vec<Owner>, AllocError>
    requires { 1 ≤ workers }
    ensures stocked { IfOk result (λ owners. AreStocked (piece ∷ []) owners.items) }
    ensures each { IfOk result (λ owners. length owners.items ≡ workers) }
{
    let mut first = open(alloc, ROOM)?;
    match push(&mut first, piece) {
        Ok(()) => {}
        Err(_) => unreachable!(),
    }
    let mut owners = Vec::with_capacity(alloc, workers as usize)?;
    owners.push(first)?;
    for number in 1..workers {
        let owner = open(alloc, ROOM)?;
        owners.push(owner)?;
    }
    Ok(owners)
}

/// A thief for each deque.
pub(crate) fn thieves_of(alloc: Global, owners: &[Owner]) -> Result<Vec<Thief>, AllocError>
    ensures { IfOk result (λ thieves. AreThievesOf owners.now thieves.items) }
{
    let Some((owner, rest)) = owners.split_first() else {
        return Ok(Vec::new(alloc));
    };
    let thief = owner.stealer()?;
    let mut thieves = thieves_of(alloc, rest)?;
    thieves.insert(0, thief)?;
    Ok(thieves)
}
