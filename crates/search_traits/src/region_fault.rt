//! Why a region has no plan.
ghost use Rattle.std.specs.Prelude.{◌≡◌};
ghost use Rattle.search_traits.specs.declared.region_fault.RegionFault.TheVariants as region;

use crate::planner::BestPlan;
use crate::so_far::SoFar;
use cave_model::OutOfMemory;
use std::alloc::AllocFailed;

/// The plan of a region, or why it has none.
pub type RegionPlan = Result<BestPlan, RegionFault>;

/// Why a region has no plan.
#[derive(Drop)]
pub enum RegionFault {
    /// The turns were spent: what was found until then.
    Stopped(SoFar),
    /// No worker could be started.
    NoThread,
    OutOfMemory,
}

impl From<OutOfMemory> for RegionFault {
    ghost from_gives = { λ _ e. e ≡ region.OutOfMemory };

    fn from(_e: OutOfMemory) -> RegionFault {
        RegionFault::OutOfMemory
    }
}

impl<T: Drop> From<AllocFailed<T>> for RegionFault {
    ghost from_gives = { λ _ e. e ≡ region.OutOfMemory };

    fn from(_e: AllocFailed<T>) -> RegionFault {
        RegionFault::OutOfMemory
    }
}
