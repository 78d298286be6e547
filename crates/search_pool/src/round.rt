//! A round of a search by many workers: `IsMerged` of specs/Reports.antt, or `StopsPool` where turns don't do.
ghost use Rattle.std.specs.Arc.{arc_value};
ghost use Rattle.std.specs.Prelude.{◌≡◌, IfErr, IfOk};
ghost use Rattle.proof_tree.specs.Shape.{tree_of};
ghost use Rattle.search_pool.specs.Reports.{AddsUp, IsMerged, StopsPool};
ghost use Rattle.search_traits.specs.Planned.{IsProvedTo};
ghost use Rattle.search_traits.specs.Turns.{IsWithin};

use crate::merging::merged;
use crate::pool::Run;
use crate::report::Report;
use crate::starting::run_opened;
use instance_regions::Cover;
use plan_options::Workers;
use search_traits::{Closer, Observer, RegionFault, SharedSearch};
use std::sync::Wait;
use std::thread::Threads;

/// A cover, and a tree which proves that none is smaller than it or than the aim, whichever is less, by many workers
/// who begin with this cover. One turn is one node worked on, and all take from the same count; where it is used up the
/// search stops. Whoever can't be started leaves its part to the others, and what all leave the caller's thread closes.
pub fn run_round<C, R, O>(
    rt: &R,
    search: SharedSearch<'_, C>,
    workers: Workers,
    observer: &O,
    first: Cover,
    aim: u64,
    turns: Option<u64>,
) -> Result<Report, RegionFault>
where
    C: Closer + Send + Sync,
    C::Hand: Send + Sync,
    C::Memory: Send + Sync,
    R: Threads + Wait + Sync,
    O: Observer,
    requires { first.region ≡ arc_value search.region.now }
    ensures proved { IfOk result (λ report.
        IsProvedTo (arc_value search.entry.region.now) aim report.cover (tree_of report.proof)) }
    ensures counts { IfOk result (λ report. AddsUp report × IsWithin turns report.turns) }
    ensures report { IfOk result (IsMerged (arc_value search.entry.region.now) first.places aim workers.number) }
    ensures stopped { IfErr result (StopsPool (arc_value search.entry.region.now) turns) }
{
    let ran = run_opened(Run {
        rt,
        search,
        first: first.size(),
        goal: aim.min(first.size()),
        workers,
        observer,
        turns,
    })?;
    merged(search, first, aim, workers, ran, turns)
}
