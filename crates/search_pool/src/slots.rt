//! The workers' slots are filled: for each a seat at the beacon, its own deque, and a pass at each deque. What is ready
//! stands in specs/Slots.antt.
ghost use Rattle.std.specs.Prelude.{◌≡◌, ◌+◌, ◌≤◌, true, All, IfOk, length, map};
ghost use Rattle.plan_options.specs.Crew.{most_workers};
ghost use Rattle.search_pool.specs.Seats.{SplitsOff};
ghost use Rattle.search_pool.specs.Slots.{AreOwners, IsNewRow, IsReady, lent, lent_pass};
ghost use Rattle.worker_results.specs.Joining.{numbers_of};
ghost use Rattle.worker_results.specs.Naming.{numbers_from};

use crate::worker::Slot;
use beacon::{Beacon, Seat};
use piece_deque::Owner;
use std::alloc::{AllocError, Global};
use std::sync::Mutex;
use worker_results::{Done, Holdings, Naming, Own, PassAt};

/// The ends of the deques, with their workers' numbers.
pub(crate) fn owned<B: Naming>(alloc: Global, owners: Vec<Owner>) -> Result<Vec<Own<B>>, AllocError>
    requires owners { AreOwners B.deque B.start 0 owners.items }
    requires few { length owners.items ≤ most_workers }
    ensures numbers { IfOk result (λ owned.
        numbers_of owned.items ≡ numbers_from 0 (length owners.items)) }
    ensures ready { IfOk result (λ owned. All (IsReady B.start 0) owned.items) }
{
    let mut owned = Vec::with_capacity(alloc, owners.len())?;
    let mut worker = 0;
    for owner in owners {
        owned.push(Own::new(worker, owner))?;
        worker += 1;
    }
    Ok(owned)
}

/// Lends a pass at each deque: the ends of the deques, and the passes.
fn lend_row<B: Naming>(
    alloc: Global,
    owned: Vec<Own<B>>,
) -> Result<(Vec<Own<B>>, Vec<PassAt<B>>), AllocError>
    ensures owned { IfOk result (λ row. row.0.items ≡ map lent owned.items) }
    ensures passes { IfOk result (λ row. row.1.items ≡ map lent_pass owned.items) }
{
    let mut left = Vec::with_capacity(alloc, owned.len())?;
    let mut passes = Vec::with_capacity(alloc, owned.len())?;
    for mut own in owned {
        passes.push(own.lend_pass())?;
        left.push(own)?;
    }
    Ok((left, passes))
}

/// The ends of the deques, and for each worker a pass at each deque.
#[derive(Drop)]
pub(crate) struct Passes<B: Naming> {
    pub(crate) owned: Vec<Own<B>>,
    pub(crate) rows: Vec<Vec<PassAt<B>>>,
}

/// Lends a pass at each deque to each worker.
pub(crate) fn lend_all<B: Naming>(
    alloc: Global,
    owned: Vec<Own<B>>,
    workers: u32,
) -> Result<Passes<B>, AllocError>
    requires numbers { numbers_of owned.items ≡ numbers_from 0 B.workers }
    requires ready { All (IsReady B.start 0) owned.items }
    ensures numbers { IfOk result (λ p. numbers_of p.owned.items ≡ numbers_from 0 B.workers) }
    ensures ready { IfOk result (λ p. All (IsReady B.start workers) p.owned.items) }
    ensures rows { IfOk result (λ p. All (IsNewRow B.workers) p.rows.items × (length p.rows.items ≡ workers)) }
{
    let mut owned = owned;
    let mut rows = Vec::with_capacity(alloc, workers as usize)?;
    for number in 0..workers {
        let row = lend_row(alloc, owned)?;
        rows.push(row.1)?;
        owned = row.0;
    }
    Ok(Passes { owned, rows })
}

/// A slot for each worker, with a seat that is split off the first one.
pub(crate) fn fill<B: Naming>(
    alloc: Global,
    beacon: &Beacon,
    first: &mut Seat,
    passes: Passes<B>,
) -> Result<Vec<Slot<B>>, AllocError>
    requires seat { (beacon.now ≡ B.beacon) × (first.old.beacon ≡ B.beacon)
        × (first.old.knows.first ≡ true) }
    requires ready { All (IsReady B.start B.workers) passes.owned.items }
    requires rows { All (IsNewRow B.workers) passes.rows.items }
    ensures first { IfOk result (λ slots. SplitsOff first.old (length slots.items) first.new) }
    ensures each { IfOk result (λ slots. length slots.items ≡ length passes.owned.items) }
{
    let Passes { owned, mut rows } = passes;
    let mut slots = Vec::with_capacity(alloc, owned.len())?;
    for own in owned {
        let Some(row) = rows.pop() else {
            return Err(AllocError);
        };
        let seat = beacon.split(first);
        let idle = Done::new(seat, None, Holdings::new(alloc, own, row));
        slots.push(Mutex::new(Some(idle)))?;
    }
    Ok(slots)
}
