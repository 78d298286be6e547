//! A worker's own end of its deque: `Owned` of specs/Passes.antt. The worker takes and pushes by it, lends passes and
//! takes them back. Once no thread runs any more, what is left there is taken: `Drained`.
ghost use Rattle.std.specs.Prelude.{◌≡◌, ◌≢◌, [], ◌∷◌, IfErr, IsTrue, OnOk};
ghost use Rattle.crossbeam_deque.specs.Handles.{worker_deque, worker_flavor, worker_view};
ghost use Rattle.piece_deque.specs.Deals.{one_more_out, pushed_too, thief_pass};
ghost use Rattle.piece_deque.specs.Rule.{Answers, HeldCount, WasEmpty};
ghost use Rattle.piece_deque.specs.declared.answer.Take.TheVariants.{Again};
ghost use Rattle.worker_results.specs.Passes.{Drained, IsOwners, took_back};

use crate::naming::Naming;
use crate::pass_at::PassAt;
use piece_deque::{Owner, Take, last_take};
use proof_tree::Piece;
use std::marker::{Model, PhantomData};

/// A worker's own end of its deque, with the worker's number.
#[derive(Drop)]
pub struct Own<B: Naming> {
    worker: u32,
    owner: Owner,
    of: PhantomData<B>,
}

impl<B: Naming> Model for Own<B> {
    ghost use Rattle.std.specs.Prelude.{◌≡◌};
    ghost use Rattle.crossbeam_deque.specs.Handles.{worker_deque, worker_flavor, worker_view};
    ghost use Rattle.worker_results.specs.Passes.{Owned, owned_coded, IsOwners};

    ghost Value = { Owned };

    ghost coded = { owned_coded };

    ghost view = { λ o. record { worker = o.worker; knows = worker_view o.owner } };

    ghost invariant = { λ o. (worker_deque o.owner ≡ B.deque o.worker) × (worker_flavor o.owner ≡ 0)
        × IsOwners (worker_view o.owner) };
}

impl<B: Naming> Own<B> {
    /// The owner of the deque of this worker.
    pub fn new(worker: u32, owner: Owner) -> Own<B>
        requires deque { (worker_deque owner ≡ B.deque worker) × (worker_flavor owner ≡ 0) }
        requires owners { IsOwners (worker_view owner) }
        ensures { result ≡ record { worker = worker; knows = worker_view owner } }
    {
        Own {
            worker,
            owner,
            of: PhantomData,
        }
    }

    /// The worker's number.
    pub fn worker(&self) -> u32
        ensures { result ≡ self.now.worker }
    {
        self.worker
    }

    /// The piece at the front.
    pub fn take(&mut self) -> Take
        ensures same { self.new.worker ≡ self.old.worker }
        ensures done { Answers WasEmpty self.old.knows result self.new.knows }
        ensures sure { result ≢ Again }
    {
        piece_deque::take(&mut self.owner)
    }

    /// The piece at the back. It comes back where there is no room.
    pub fn push(&mut self, piece: Piece) -> Result<(), Piece>
        ensures same { self.new.worker ≡ self.old.worker }
        ensures ok { OnOk result (self.new.knows ≡ pushed_too self.old.knows (piece ∷ [])) }
        ensures err { IfErr result (λ refused.
            (refused ≡ piece) × (self.new.knows ≡ self.old.knows)) }
    {
        piece_deque::push(&mut self.owner, piece)
    }

    /// How many pieces lay there at one moment of the call.
    pub fn count(&mut self) -> usize
        ensures same { self.new ≡ self.old }
        ensures count { HeldCount self.old.knows result }
    {
        piece_deque::count(&mut self.owner)
    }

    /// Lends a pass at this deque to another worker.
    pub fn lend_pass(&mut self) -> PassAt<B>
        ensures same { self.new.worker ≡ self.old.worker }
        ensures own { self.new.knows ≡ one_more_out self.old.knows }
        ensures pass { result ≡ record { deque = self.old.worker; knows = thief_pass } }
    {
        PassAt::new(self.worker, piece_deque::lend_pass(&mut self.owner))
    }

    /// Takes back another worker's pass at this deque.
    pub fn take_back(&mut self, pass: PassAt<B>)
        requires { pass.deque ≡ self.old.worker }
        ensures same { self.new.worker ≡ self.old.worker }
        ensures done { self.new.knows ≡ took_back self.old.knows pass.knows.taken }
    {
        piece_deque::take_back(&mut self.owner, pass.into_pass());
    }

    /// Takes what is left, where each other pass was taken back. False where memory was refused.
    pub fn drain(self, left: &mut Vec<Piece>) -> bool
        requires { self.knows.out ≡ 0 }
        ensures { IsTrue result → Drained self.knows left.old.items left.new.items }
    {
        let Own { mut owner, .. } = self;
        for _ in 0..u64::MAX {
            if left.reserve(1).is_err() {
                return false;
            }
            match last_take(&mut owner) {
                Take::Got(piece) => left.push_reserved(piece),
                Take::Empty => return true,
                Take::Again => {}
            }
        }
        false
    }
}
