//! A whole run of workers over deques that are stocked, up to the results joined: `HandOver` of specs/Runs.antt. The
//! deques are `AreDealt` of specs/Slots.antt.
ghost use Rattle.std.specs.Arc.{arc_value};
ghost use Rattle.std.specs.Prelude.{◌≡◌, ◌<◌, ◌^◌, [], ◌∷◌, IfOk, IfSome, length};
ghost use Rattle.beacon.specs.Marks.{at_first};
ghost use Rattle.proof_tree.specs.Piece.{root_of};
ghost use Rattle.search_pool.specs.Runs.{HandOver};
ghost use Rattle.search_pool.specs.Slots.{AreDealt};
ghost use Rattle.search_traits.specs.Turns.{IsWithin};

use crate::ledger::Ledger;
use crate::memories::Memories;
use crate::run::run_scope;
use crate::slots::{fill, lend_all, owned};
use crate::unrun::Unrun;
use crate::worker::{Common, Sizes};
use beacon::{Beacon, Seat};
use piece_deque::{Owner, Thief};
use plan_options::Workers;
use search_traits::{Closer, Observer, SharedSearch};
use std::sync::Wait;
use std::thread::Threads;
use worker_results::{Joined, Naming, close_up};

/// What workers plan, and by whom: the search of a region, and the size at which its pieces are to be closed, unless
/// smaller covers are found.
#[derive(Drop)]
pub(crate) struct Run<'e, C, R, O> {
    pub(crate) rt: &'e R,
    pub(crate) search: SharedSearch<'e, C>,
    /// The size of the cover that it begins with.
    pub(crate) first: u64,
    pub(crate) goal: u64,
    pub(crate) workers: Workers,
    pub(crate) observer: &'e O,
    /// How many nodes may be worked on, if they are limited.
    pub(crate) turns: Option<u64>,
}

/// What workers hand over once they are joined, and how many turns they took.
#[derive(Drop)]
pub(crate) struct Ran {
    pub(crate) joined: Joined,
    pub(crate) turns: u64,
}

/// Starts a worker for each deque, joins them, and closes the beacon and the deques.
pub(crate) fn run_named<B, C, R, O>(
    run: Run<'_, C, R, O>,
    beacon: Beacon,
    first: Seat,
    owners: Vec<Owner>,
    thieves: &[Thief],
) -> Result<Ran, Unrun>
where
    B: Naming + Send + Sync,
    C: Closer + Send + Sync,
    C::Hand: Send + Sync,
    C::Memory: Send + Sync,
    R: Threads + Wait + Sync,
    O: Observer,
    requires few { (run.workers.number ≡ B.workers) × (length owners.items ≡ B.workers) }
    requires seat { (beacon ≡ B.beacon) × (first.beacon ≡ B.beacon)
        × (first.knows ≡ at_first run.goal) }
    requires region { arc_value run.search.region.now ≡ B.region }
    requires dealt { AreDealt B.deque B.start B.workers (root_of B.region ∷ [])
        owners.items thieves.now }
    ensures { IfOk result (HandOver B.region run.entry.goal run.entry.workers.number run.entry.turns) }
{
    let alloc = run.search.alloc;
    let owned = owned::<B>(alloc, owners)?;
    let passes = lend_all(alloc, owned, run.workers.number)?;
    let mut first = first;
    let slots = fill(alloc, &beacon, &mut first, passes)?;
    let ledger = Ledger::new(run.turns);
    let memories = Memories::new(alloc);
    let common = Common {
        alloc,
        beacon: &beacon,
        region: run.search.region,
        thieves,
        ledger: &ledger,
        memories: &memories,
        sizes: Sizes {
            first: run.first,
            goal: run.goal,
        },
        is_limited: run.turns.is_some(),
    };
    let results = run_scope::<B, C, R, O>(
        run.rt,
        common,
        run.search.closer,
        slots.as_slice(),
        run.observer,
    )?;
    let turns = within(run.turns, ledger.taken(run.rt));
    let joined = close_up(alloc, beacon, first, run.goal, results)?;
    Ok(Ran { joined, turns })
}

/// The turns that were taken, and no more than there are.
fn within(turns: Option<u64>, taken: u64) -> u64
    ensures within { IsWithin turns result }
    ensures fits { IfSome turns (λ limit. limit < 2 ^ 64) }
{
    match turns {
        Some(limit) => limit.min(taken),
        None => taken,
    }
}
