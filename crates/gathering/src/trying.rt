//! What workers closed, played on the event core: `TriesAllCloses` of specs/Playing.antt. A piece that isn't as its
//! worker left it is passed over.
ghost use Rattle.std.specs.Prelude.{◌<◌, ◌^◌, length, IfOk};
ghost use Rattle.event_core.specs.Kept.{state_of};
ghost use Rattle.gathering.specs.Playing.{TriesAllCloses, TriesClose, TriesCloses};

use event_core::{Core, Event};
use proof_tree::Closed;
use schedule_law::Work;
use std::alloc::{AllocError, Global};

/// Each worker closes its pieces: how many of each were closed.
pub(crate) fn close_all(
    alloc: Global,
    core: &mut Core,
    works: Vec<Work>,
) -> Result<Vec<u64>, AllocError>
    requires few { length works.items < 2 ^ 32 }
    ensures { IfOk result (λ counts.
        TriesAllCloses (state_of core.old) 0 works.items counts.items (state_of core.new)) }
{
    let mut counts = Vec::with_capacity(alloc, works.len())?;
    let mut worker = 0u32;
    for work in works {
        let Work { closed, .. } = work;
        counts.push(close_each(core, worker, closed)?)?;
        worker += 1;
    }
    Ok(counts)
}

/// A worker closes pieces: how many were closed.
fn close_each(core: &mut Core, worker: u32, pieces: Vec<Closed>) -> Result<u64, AllocError>
    ensures { IfOk result (λ count.
        TriesCloses (state_of core.old) worker pieces.items count (state_of core.new)) }
{
    let mut count = 0u64;
    for closed in pieces {
        if close_one(core, worker, closed)? {
            count += 1;
        }
    }
    Ok(count)
}

/// A worker takes a piece and closes it, and leaves it where it could not be closed: whether it was closed.
fn close_one(core: &mut Core, worker: u32, closed: Closed) -> Result<bool, AllocError>
    ensures { IfOk result (λ done.
        TriesClose (state_of core.old) worker closed done (state_of core.new)) }
{
    let name = closed.piece().name().try_clone()?;
    let again = name.try_clone()?;
    core.step(Event::Take(worker, name))?;
    let done = core.step(Event::Close(worker, closed))?;
    core.step(Event::Leave(worker, again))?;
    Ok(done)
}
