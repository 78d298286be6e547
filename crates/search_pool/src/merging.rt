//! What the results of workers merge to, with what the caller's thread closes: `IsMerged` of specs/Reports.antt. Its
//! numbers add up as `AddsUp` says.
ghost use Rattle.std.specs.Arc.{arc_value};
ghost use Rattle.std.specs.Prelude.{◌≡◌, ◌≤◌, ◌<◌, ◌+◌, ◌^◌, IfErr, IfOk, length, min};
ghost use Rattle.proof_tree.specs.Shape.{tree_of};
ghost use Rattle.search_pool.specs.Reports.{AddsUp, IsMerged, StopsPool, TellsOf};
ghost use Rattle.search_pool.specs.Rows.{counted};
ghost use Rattle.search_pool.specs.Runs.{HandOver};
ghost use Rattle.search_traits.specs.Planned.{IsProvedTo};
ghost use Rattle.search_traits.specs.Turns.{IsWithin};

use crate::piece_counts::{PieceCounts, count_pieces};
use crate::pool::Ran;
use crate::report::Report;
use gathering::{Gathered, gather};
use instance_regions::Cover;
use plan_options::Workers;
use search_traits::{Closer, RegionFault, SharedSearch, SoFar, rest_of};
use worker_results::Joined;

/// Gathers what workers did, and closes what they left with the turns that are left.
pub(crate) fn merged<C: Closer>(
    search: SharedSearch<'_, C>,
    first: Cover,
    aim: u64,
    workers: Workers,
    ran: Ran,
    turns: Option<u64>,
) -> Result<Report, RegionFault>
    requires first { first.region ≡ arc_value search.region.now }
    requires ran { HandOver (arc_value search.region.now) (min aim (length first.places)) workers.number turns ran }
    ensures proved { IfOk result (λ report.
        IsProvedTo (arc_value search.entry.region.now) aim report.cover (tree_of report.proof)) }
    ensures counts { IfOk result (λ report. AddsUp report × IsWithin turns report.turns) }
    ensures report { IfOk result (IsMerged (arc_value search.entry.region.now) first.places aim workers.number) }
    ensures stopped { IfErr result (StopsPool (arc_value search.entry.region.now) turns) }
{
    let Ran {
        joined,
        turns: granted,
    } = ran;
    let Joined { works, left } = joined;
    let counts = count_pieces(&works);
    let left = left.len() as u128;
    match gather(search, first, aim, works, rest_of(turns, granted)) {
        Ok(gathered) => Ok(report(gathered, counts, left, granted)),
        Err(RegionFault::Stopped(found)) => Err(RegionFault::Stopped(SoFar {
            cover: found.cover,
            floor: found.floor,
            granted: sum(granted, found.granted),
        })),
        Err(fault) => Err(fault),
    }
}

/// Both numbers of turns added up, or the greatest number.
fn sum(granted: u64, more: u64) -> u64
    ensures { result ≡ counted (granted + more) }
{
    granted.saturating_add(more)
}

/// What was gathered, with what workers handed over.
fn report(gathered: Gathered, counts: PieceCounts, left: u128, granted: u64) -> Report
    requires few { (counts.closed ≤ 2 ^ 70) × (counts.opened ≤ 2 ^ 70) × (counts.held ≤ 2 ^ 70)
        × (counts.kept ≤ 2 ^ 70) × (left < 2 ^ 64) }
    requires gleaned { length gathered.gleaned.items ≡ counts.held + counts.kept + left }
    ensures { TellsOf gathered counts left granted result }
{
    Report {
        gleaned: gathered.gleaned.len() as u128 - counts.kept,
        cover: gathered.cover,
        proof: gathered.proof,
        turns: sum(granted, gathered.turns),
        handed_back: counts.held + counts.kept,
        left,
        pushed: counts.closed + counts.opened + counts.held + left,
        opened: counts.opened,
        closed_by: gathered.closed_by,
    }
}
