//! The owner lends passes at its deque to other threads, and takes them back. What that changes in its own pass stands
//! in specs/Deals.antt.
ghost use Rattle.std.specs.Prelude.{◌≡◌, true, false};
ghost use Rattle.crossbeam_deque.specs.Handles.{view, IsPassOf, SameWorker, worker_deque, worker_view, worker_index};
ghost use Rattle.piece_deque.specs.Deals.{thief_pass, one_more_out, together_with};

use crate::deque::{Owner, Pass};
use crate::rule::Lends;

/// A pass for another thread, which took nothing.
pub fn lend_pass(owner: &mut Owner) -> Pass
    requires { ((worker_view owner.old).first ≡ true) × ((worker_view owner.old).spent ≡ false) }
    ensures same { SameWorker owner.old owner.new
        × (worker_index owner.new ≡ worker_index owner.old) }
    ensures deque { IsPassOf (worker_deque owner.old) result }
    ensures done { (worker_view owner.new ≡ one_more_out (worker_view owner.old))
        × (view result ≡ thief_pass) }
{
    owner.another::<Lends>()
}

/// Takes back the pass of another thread, with what it took.
pub fn take_back(owner: &mut Owner, pass: Pass)
    requires deque { IsPassOf (worker_deque owner.old) pass }
    requires owner { ((worker_view owner.old).first ≡ true)
        × ((worker_view owner.old).spent ≡ false) }
    requires pass { (view pass).spent ≡ false }
    ensures same { SameWorker owner.old owner.new
        × (worker_index owner.new ≡ worker_index owner.old) }
    ensures done { worker_view owner.new ≡ together_with (worker_view owner.old) (view pass) }
{
    owner.absorb::<Lends>(pass)
}
