//! The results of all workers, joined: `JoinUp` of specs/Joining.antt. That is all that the law of schedules asks of
//! them.
ghost use Rattle.std.specs.Prelude.{◌≡◌, IfOk};
ghost use Rattle.worker_results.specs.Joining.{AreOfAll, IsFirstSeat, JoinUp, works_of};

use crate::deques::{drain_all, take_rows};
use crate::done::Done;
use crate::naming::Naming;
use crate::parting::{AllParts, part_all};
use beacon::{Beacon, Seat};
use cave_model::OutOfMemory;
use proof_tree::Piece;
use schedule_law::Work;
use std::alloc::Global;

/// What all workers did, and the pieces that were left in their deques.
#[derive(Drop)]
pub struct Joined {
    /// In the order of the workers' numbers.
    pub works: Vec<Work>,
    pub left: Vec<Piece>,
}

/// Joins the seats and passes of all results, closes the beacon and empties the deques. No worker runs any more. The
/// beacon was opened with this size.
pub fn close_up<B: Naming>(
    alloc: Global,
    beacon: Beacon,
    first: Seat,
    _goal: u64, // for the proof
    results: Vec<Done<B>>,
) -> Result<Joined, OutOfMemory>
    requires beacon { beacon ≡ B.beacon }
    requires seat { IsFirstSeat B.beacon _goal B.workers first }
    requires all { AreOfAll B.workers results.items }
    ensures joined { IfOk result (λ joined. JoinUp B.region B.start B.workers _goal
        joined.works.items joined.left.items) }
    ensures works { IfOk result (λ joined. joined.works.items ≡ works_of results.items) }
{
    let AllParts {
        first,
        mut owners,
        rows,
        works,
    } = part_all(alloc, &beacon, first, results)?;
    take_rows(&mut owners, rows);
    beacon.close(first);
    let left = drain_all(alloc, owners)?;
    Ok(Joined { works, left })
}
