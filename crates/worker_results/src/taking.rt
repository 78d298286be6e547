//! A worker takes a piece from its own deque, or steals one from another's, and holds it until it is closed or opened:
//! `TakesOwn` and `StealsFrom` of specs/Steps.antt.
ghost use Rattle.std.specs.Prelude.{◌≡◌, ◌<◌, length};
ghost use Rattle.worker_results.specs.Naming.{AreThieves};
ghost use Rattle.worker_results.specs.Passes.{IsRow};
ghost use Rattle.worker_results.specs.Steps.{StealsFrom, TakesOwn};
ghost use Rattle.worker_results.specs.Tries.{TriedOne};

use crate::holdings::Holdings;
use crate::naming::Naming;
use crate::pass_at::PassAt;
use crate::step::Tried;
use piece_deque::{Take, Thief};

impl<B: Naming> Holdings<B> {
    /// Takes a piece of its own deque, if there is one, and holds it.
    pub fn take(&mut self) -> Tried
        ensures worker { self.new.worker ≡ self.old.worker }
        ensures closed { self.new.closed ≡ self.old.closed }
        ensures takes { TakesOwn self.old result self.new }
    {
        if self.held.reserve(1).is_err() {
            return Tried::OutOfMemory;
        }
        match self.own.take() {
            Take::Got(piece) => {
                self.held.push_reserved(piece);
                Tried::Got
            }
            Take::Empty => Tried::Empty,
            Take::Again => unreachable!(),
        }
    }

    /// Takes a piece of the deque of this number, if there is one, and holds it.
    pub fn steal(&mut self, thieves: &[Thief], deque: usize) -> Tried
        requires thieves { AreThieves B.deque 0 thieves.now }
        requires number { deque < length thieves.now }
        ensures worker { self.new.worker ≡ self.old.worker }
        ensures closed { self.new.closed ≡ self.old.closed }
        ensures steals { StealsFrom deque self.old result self.new }
    {
        if self.held.reserve(1).is_err() {
            return Tried::OutOfMemory;
        }
        match try_one(&mut self.passes, thieves, deque) {
            Take::Got(piece) => {
                self.held.push_reserved(piece);
                Tried::Got
            }
            Take::Empty => Tried::Empty,
            Take::Again => Tried::Again,
        }
    }
}

/// The piece at the front of the deque of this number, by the pass at it.
fn try_one<B: Naming>(passes: &mut Vec<PassAt<B>>, thieves: &[Thief], deque: usize) -> Take
    requires thieves { AreThieves B.deque 0 thieves.now }
    requires number { deque < length thieves.now }
    requires row { IsRow B.workers passes.old }
    ensures row { IsRow B.workers passes.new }
    ensures tried { TriedOne deque passes.old.items result passes.new.items }
{
    if deque >= passes.len() {
        return Take::Again;
    }
    passes[deque].steal(&thieves[deque])
}
