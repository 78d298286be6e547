//! A pass at the deque of one worker, in the hands of another: `KnownPass` of specs/Passes.antt. What a theft leaves of
//! it is `Answers` of piece_deque.
ghost use Rattle.std.specs.Prelude.{◌≡◌};
ghost use Rattle.crossbeam_deque.specs.Handles.{view, IsPassOf, stealer_deque, stealer_flavor};
ghost use Rattle.piece_deque.specs.Rule.{Answers, WasEmpty};
ghost use Rattle.worker_results.specs.Passes.{IsOthers};

use crate::naming::Naming;
use piece_deque::{Pass, Take, Thief};
use std::marker::{Model, PhantomData};

/// A pass at a deque, with the deque's number. The number makes it more than no bytes, so that it can lie in a slice.
#[derive(Drop)]
pub struct PassAt<B: Naming> {
    deque: u32,
    pass: Pass,
    of: PhantomData<B>,
}

impl<B: Naming> Model for PassAt<B> {
    ghost use Rattle.crossbeam_deque.specs.Handles.{IsPassOf};
    ghost use Rattle.worker_results.specs.Naming.{known_by};
    ghost use Rattle.worker_results.specs.Passes.{KnownPass, known_pass_coded, IsOthers};

    ghost Value = { KnownPass };

    ghost coded = { known_pass_coded };

    ghost view = { λ r. record { deque = r.deque; knows = known_by r.pass } };

    ghost invariant = { λ r. IsPassOf (B.deque r.deque) r.pass × IsOthers (known_by r.pass) };
}

impl<B: Naming> PassAt<B> {
    /// The pass at the deque of this number.
    pub fn new(deque: u32, pass: Pass) -> PassAt<B>
        requires { IsPassOf (B.deque deque) pass × IsOthers (view pass) }
        ensures { result ≡ record { deque = deque; knows = view pass } }
    {
        PassAt {
            deque,
            pass,
            of: PhantomData,
        }
    }

    /// The pass alone.
    pub fn into_pass(self) -> Pass
        ensures same { view result ≡ self.knows }
        ensures deque { IsPassOf (B.deque self.deque) result }
        ensures others { IsOthers (view result) }
    {
        let PassAt { pass, .. } = self;
        pass
    }

    /// The piece at the front of that deque.
    pub fn steal(&mut self, thief: &Thief) -> Take
        requires { (stealer_flavor thief.now ≡ 0)
            × (stealer_deque thief.now ≡ B.deque self.old.deque) }
        ensures same { self.new.deque ≡ self.old.deque }
        ensures done { Answers WasEmpty self.old.knows result self.new.knows }
    {
        piece_deque::steal(thief, &mut self.pass)
    }
}
