//! A run of workers over a region: `HandOver` of specs/Runs.antt. The beacon is opened, the deques are stocked, and
//! both are named by the words of specs/Deques.antt.
ghost use Rattle.std.specs.Arc.{arc_value};
ghost use Rattle.std.specs.Prelude.{IfOk};
ghost use Rattle.search_pool.specs.Runs.{HandOver};

use crate::deques::{stocked, thieves_of};
use crate::pool::{Ran, Run, run_named};
use crate::unrun::Unrun;
use beacon::Beacon;
use proof_tree::Piece;
use search_traits::{Closer, Observer};
use std::marker::Brand;
use std::sync::Wait;
use std::thread::Threads;

/// Opens the beacon, pushes the root on worker 0's deque, and runs the workers.
pub(crate) fn run_opened<C, R, O>(run: Run<'_, C, R, O>) -> Result<Ran, Unrun>
where
    C: Closer + Send + Sync,
    C::Hand: Send + Sync,
    C::Memory: Send + Sync,
    R: Threads + Wait + Sync,
    O: Observer,
    ensures { IfOk result (HandOver (arc_value run.entry.search.region.now) run.entry.goal
        run.entry.workers.number run.entry.turns) }
{
    let alloc = run.search.alloc;
    let root = Piece::root(alloc, run.search.region)?;
    let owners = stocked(alloc, run.workers.number, root)?;
    let thieves = thieves_of(alloc, &owners)?;
    let (beacon, first) = Beacon::open(alloc, run.goal)?;
    // The names are those of this beacon and these deques.
    run_named::<Brand, C, R, O>(run, beacon, first, owners, &thieves)
}
