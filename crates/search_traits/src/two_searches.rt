//! Two searches of a region, one after the other: the turns that the first leaves to the second, and what both tell
//! together.
ghost use Rattle.std.specs.Arc.{arc_value};
ghost use Rattle.std.specs.Prelude.{◌≡◌, ◌≤◌, ◌+◌, ◌⊎◌, ◌↔◌, IfSome, IsTrue, Some, length};
ghost use Rattle.search_traits.specs.Planned.{IsFloor};
ghost use Rattle.search_traits.specs.Planning.{IsRegionPlan};
ghost use Rattle.search_traits.specs.Sizes.{lesser};
ghost use Rattle.search_traits.specs.Turns.{AreSpent, IsShareSpent, IsWithin, rest};

use crate::planner::BestPlan;
use crate::region_fault::{RegionFault, RegionPlan};
use crate::so_far::SoFar;
use instance_regions::{Cover, Region};
use std::sync::Arc;

/// The first turns, at most `most`, of a limit or of any number.
pub fn first_of(turns: Option<u64>, most: u64) -> u64
    ensures within { IsWithin turns result }
    ensures first { lesser turns most ≡ Some result }
{
    match turns {
        None => most,
        Some(limit) => limit.min(most),
    }
}

/// The turns that are left of a limit, or any number of them.
pub fn rest_of(turns: Option<u64>, granted: u64) -> Option<u64>
    requires { IsWithin turns granted }
    ensures { result ≡ rest turns granted }
{
    match turns {
        None => None,
        Some(limit) => Some(limit - granted),
    }
}

/// Whether all turns were granted.
pub fn are_spent(turns: Option<u64>, granted: u64) -> bool
    ensures { IsTrue result ↔ AreSpent turns granted }
{
    match turns {
        Some(limit) => limit == granted,
        None => false,
    }
}

/// The sum of two numbers, where that is within the limit.
fn sum_within(limit: u64, granted: u64, later: u64) -> u64
    ensures { granted + later ≤ limit → result ≡ granted + later }
{
    limit.min(granted.saturating_add(later))
}

/// The turns of two searches, of which the later one spent a share of what the earlier one had left.
fn sum_of(turns: Option<u64>, granted: u64, later: u64, _workers: u32) -> u64
    requires some { 1 ≤ _workers }
    requires within { IsWithin turns granted }
    requires later { IsShareSpent _workers (rest turns granted) later }
    ensures { IsShareSpent _workers turns result }
{
    match turns {
        Some(limit) => sum_within(limit, granted, later),
        None => granted,
    }
}

/// A plan with the turns that are left, as one with all turns: `granted` turns were granted before.
pub fn with_earlier(
    _region: &Arc<Region>, // for the proof
    workers: u32,
    turns: Option<u64>,
    granted: u64,
    plan: RegionPlan,
) -> RegionPlan
    requires some { 1 ≤ workers }
    requires within { IsWithin turns granted }
    requires plan { IsRegionPlan workers (rest turns granted) (arc_value _region.now) plan }
    ensures { IsRegionPlan workers turns (arc_value _region.now) result }
{
    match plan {
        Ok(plan) => Ok(BestPlan {
            cover: plan.cover,
            proof: plan.proof,
            turns: plan.turns.saturating_add(granted),
        }),
        Err(RegionFault::Stopped(later)) => Err(RegionFault::Stopped(SoFar {
            cover: later.cover,
            floor: later.floor,
            granted: sum_of(turns, granted, later.granted, workers),
        })),
        Err(fault) => Err(fault),
    }
}

/// A plan, or where its turns were spent the smaller of two covers and the greater of two floors.
pub fn with_known(
    _region: &Arc<Region>, // for the proof
    _workers: u32, // for the proof
    _turns: Option<u64>, // for the proof
    plan: RegionPlan,
    cover: Cover,
    floor: u64,
) -> RegionPlan
    requires plan { IsRegionPlan _workers _turns (arc_value _region.now) plan }
    requires cover { cover.region ≡ arc_value _region.now }
    requires floor { IsFloor (arc_value _region.now) floor }
    ensures { IsRegionPlan _workers _turns (arc_value _region.now) result }
{
    match plan {
        Err(RegionFault::Stopped(found)) => Err(RegionFault::Stopped(SoFar {
            cover: smaller_of(cover, Some(found.cover)),
            floor: floor.max(found.floor),
            granted: found.granted,
        })),
        plan => plan,
    }
}

/// What is told of the region where all turns were granted.
pub fn stopped(
    _region: &Arc<Region>, // for the proof
    _workers: u32, // for the proof
    _turns: Option<u64>, // for the proof
    found: SoFar,
) -> RegionPlan
    requires some { 1 ≤ _workers }
    requires spent { AreSpent _turns found.granted }
    requires cover { found.cover.region ≡ arc_value _region.now }
    requires floor { IsFloor (arc_value _region.now) found.floor }
    ensures { IsRegionPlan _workers _turns (arc_value _region.now) result }
{
    Err(RegionFault::Stopped(found))
}

/// The smaller of two covers, or the one that there is.
pub fn smaller_of(first: Cover, other: Option<Cover>) -> Cover
    ensures one { (result ≡ first) ⊎ (other ≡ Some result) }
    ensures least { (length result.places ≤ length first.places)
        × IfSome other (λ cover. length result.places ≤ length cover.places) }
{
    match other {
        Some(cover) if cover.size() < first.size() => cover,
        _ => first,
    }
}
