//! Emptying a deque once its owner has taken back all passes: then empty means `AllTaken` of
//! specs/Rule.antt.
ghost use Rattle.std.specs.Prelude.{◌≡◌, ◌≢◌};
ghost use Rattle.crossbeam_deque.specs.Handles.{SameWorker, worker_flavor, worker_view};
ghost use Rattle.piece_deque.specs.Rule.{AllTaken, Answers, IsAlone};
ghost use Rattle.piece_deque.specs.declared.answer.Take.TheVariants.{Again};

use crate::answer::Take;
use crate::deque::{Owner, take};

/// The piece at the front. Where the deque was empty, each piece that was pushed was taken, as no other pass is out.
pub fn last_take(owner: &mut Owner) -> Take
    requires { (worker_flavor owner.old ≡ 0) × IsAlone (worker_view owner.old) }
    ensures same { SameWorker owner.old owner.new }
    ensures done { Answers AllTaken (worker_view owner.old) result (worker_view owner.new) }
    ensures sure { result ≢ Again }
{
    take(owner)
}
