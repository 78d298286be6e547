//! A deque of pieces: opening it, pushing, taking and stealing. What a push or a take changes stands in
//! specs/Deals.antt, what always holds in specs/Rule.antt.
ghost use Rattle.std.specs.Prelude.{◌≡◌, ◌≢◌, ◌⊎◌, ◌+◌, ◌<◌, ◌≤◌, [], ◌∷◌, true, false, IfOk, IfErr, OnOk};
ghost use Rattle.crossbeam_deque.specs.Handles.{stealer_deque, stealer_flavor};
ghost use Rattle.crossbeam_deque.specs.Handles.{view, taken, IsPassOf, SamePass, SameWorker};
ghost use Rattle.crossbeam_deque.specs.Handles.{worker_flavor, worker_view, worker_index, worker_capacity};
ghost use Rattle.piece_deque.specs.Deals.{pushed_too};
ghost use Rattle.piece_deque.specs.Owners.{IsNew};
ghost use Rattle.piece_deque.specs.Rule.{Answers, HeldCount, WasEmpty};
ghost use Rattle.piece_deque.specs.declared.answer.Take.TheVariants.{Again};

use crate::answer::Take;
use crate::dealt::Dealt;
use crate::rule::{Counts, EachOnce, Pushes, Takes};
use crossbeam_deque::{Steal, Stealer, Worker};
use proof_tree::Piece;
use std::alloc::{AllocError, Global};

/// One thread has it: it pushes, takes, and lends passes.
pub type Owner = Worker<Piece, Global, Dealt, EachOnce>;

/// Any thread with a pass may take by it.
pub type Thief = Stealer<Piece, Global, Dealt, EachOnce>;

/// The pass of another thread than the owner's.
pub type Pass = crossbeam_deque::Pass<Piece, Dealt>;

/// A deque, first in and first out, with room for this number of pieces.
pub fn open(alloc: Global, room: usize) -> Result<Owner, AllocError>
    ensures { IfOk result (IsNew room) }
{
    Owner::fifo_as(alloc, room)
}

/// The piece at the back. It comes back only where there was no room.
pub fn push(owner: &mut Owner, piece: Piece) -> Result<(), Piece>
    requires { (worker_view owner.old).first ≡ true }
    ensures same { SameWorker owner.old owner.new }
    ensures ok { OnOk result (
        (worker_view owner.new ≡ pushed_too (worker_view owner.old) (piece ∷ []))
        × (worker_index owner.new ≡ worker_index owner.old + 1)) }
    ensures err { IfErr result (λ refused.
        (refused ≡ piece) × (worker_view owner.new ≡ worker_view owner.old)
        × (worker_capacity owner.old ≤ worker_index owner.old)) }
{
    owner.push_as::<Pushes>(piece)
}

/// How many pieces there were at one moment of the call.
pub fn count(owner: &mut Owner) -> usize
    ensures same { SameWorker owner.old owner.new }
    ensures pass { worker_view owner.new ≡ worker_view owner.old }
    ensures count { HeldCount (worker_view owner.old) result }
{
    owner.len_as::<Counts>()
}

/// The piece at the front, for the owner.
pub fn take(owner: &mut Owner) -> Take
    requires { (worker_flavor owner.old ≡ 0) × ((worker_view owner.old).spent ≡ false) }
    ensures same { SameWorker owner.old owner.new }
    ensures done { Answers WasEmpty (worker_view owner.old) result (worker_view owner.new) }
    ensures sure { result ≢ Again }
{
    match owner.pop_as::<Takes>() {
        Some(piece) => Take::Got(piece),
        None => Take::Empty,
    }
}

/// The piece at the front, for another thread. Where it answers `Again`, a piece left the front meanwhile, or the deque
/// was empty.
pub fn steal(thief: &Thief, pass: &mut Pass) -> Take
    requires { (stealer_flavor thief.now ≡ 0) × IsPassOf (stealer_deque thief.now) pass.old
        × ((view pass.old).spent ≡ false) }
    ensures same { SamePass pass.old pass.new }
    ensures done { Answers WasEmpty (view pass.old) result (view pass.new) }
    ensures again { result ≡ Again → (taken pass.old < taken pass.new) ⊎ WasEmpty (view pass.old) }
{
    match thief.steal_as::<Takes>(pass) {
        Steal::Success(piece) => Take::Got(piece),
        Steal::Empty => Take::Empty,
        Steal::Retry => Take::Again,
    }
}
