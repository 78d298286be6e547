//! The regions of a cave, planned one after another.
ghost use Rattle.std.specs.Arc.{arc_value};
ghost use Rattle.std.specs.Prelude.{◌≡◌, ◌≢◌, ◌≤◌, ◌<◌, ◌+◌, [], false, Contains, IfOk, IfErr, OnOk};
ghost use Rattle.cave_model.specs.Listing.{ListsAll};
ghost use Rattle.cave_plan.specs.Course.{GoesOn, IsCourse, course, known};
ghost use Rattle.cave_plan.specs.declared.fault.PlanFault.{PlanFault};
ghost use Rattle.proof_tree.specs.Shape.{tree_of};
ghost use Rattle.search_traits.specs.Planned.{IsBest, IsStopped};
ghost use Rattle.search_traits.specs.Planning.{PlansRegions};
ghost use Rattle.search_traits.specs.Turns.{IsShareSpent, IsWithin};

use crate::fault::PlanFault;
use cave_base::Cell;
use certificate_text::Planned;
use instance_regions::{Cover, Region};
use search_traits::{Allowance, BestPlan, Observer, Planner, RegionFault, RegionPlan, SoFar};
use std::alloc::{AllocError, Global};
use std::sync::Arc;

/// The plans of regions, as far as they go.
#[derive(Drop)]
pub struct Course {
    /// The regions that were planned to the end.
    pub parts: Vec<Planned>,
    /// The torches of all regions, one region after another.
    pub torches: Vec<Cell>,
    /// A number that no torches of all these regions are fewer than.
    pub floor: u64,
    /// Whether the turns of some region were spent.
    pub stopped: bool,
    /// The most turns that were granted to a region.
    pub turns: u64,
}

/// The sum of two numbers that together are at most a third.
fn sum_within(a: u64, b: u64, most: usize) -> u64
    ensures { a + b ≤ most → result ≡ a + b }
{
    let most = most as u64;
    if a <= most && b <= most - a {
        return a + b;
    }
    most
}

impl Course {
    /// No region yet.
    fn new(alloc: Global) -> Course
        ensures { known result ≡ course [] 0 false 0 [] }
    {
        Course {
            parts: Vec::new(alloc),
            torches: Vec::new(alloc),
            floor: 0,
            stopped: false,
            turns: 0,
        }
    }

    /// Takes a region that was planned to the end.
    fn add_best(
        &mut self,
        allowance: Allowance,
        region: Arc<Region>,
        plan: BestPlan,
    ) -> Result<(), AllocError>
        requires best { IsBest (arc_value region) plan.cover (tree_of plan.proof) }
        requires within { IsWithin allowance.turns plan.turns }
        ensures { OnOk result (GoesOn allowance (arc_value region) (known self.old) (known self.new)) }
    {
        self.torches.extend_from_slice(plan.cover.places())?;
        self.floor = sum_within(self.floor, plan.cover.size(), self.torches.len());
        self.turns = u64::max(self.turns, plan.turns);
        self.parts.push((region, plan.cover, plan.proof))?;
        Ok(())
    }

    /// Takes a region whose turns were spent.
    fn add_stopped(
        &mut self,
        allowance: Allowance,
        cover: &Cover,
        floor: u64,
        turns: u64,
    ) -> Result<(), AllocError>
        requires stopped { IsStopped cover.now.region allowance.turns cover.now floor }
        requires used { IsShareSpent allowance.workers allowance.turns turns }
        ensures { OnOk result (GoesOn allowance cover.now.region (known self.old) (known self.new)) }
    {
        self.torches.extend_from_slice(cover.places())?;
        self.floor = sum_within(self.floor, floor, self.torches.len());
        self.stopped = true;
        self.turns = u64::max(self.turns, turns);
        Ok(())
    }

    /// Takes what is planned of one region more.
    fn add_next<F: Fn(&Arc<Region>) -> RegionPlan, O>(
        &mut self,
        planner: &Planner<'_, F, O>,
        region: Arc<Region>,
    ) -> Result<(), PlanFault>
        requires callable { F.IsAlwaysCallable planner.now.plan }
        requires plans { PlansRegions (λ region. arc_value region.now) planner.now.allowance
            (F.post planner.now.plan) }
        ensures done { OnOk result (GoesOn planner.now.allowance (arc_value region) (known self.old) (known self.new)) }
        ensures fault { IfErr result (λ e. e ≢ PlanFault.OutOfMemory → e ≡ PlanFault.NoThread) }
        ensures threads { IfErr result (λ e. e ≡ PlanFault.NoThread → 1 < planner.now.allowance.workers) }
    {
        match (planner.plan)(&region) {
            Ok(plan) => Ok(self.add_best(planner.allowance, region, plan)?),
            Err(RegionFault::Stopped(found)) => {
                let SoFar {
                    cover,
                    floor,
                    granted,
                } = found;
                Ok(self.add_stopped(planner.allowance, &cover, floor, granted)?)
            }
            Err(RegionFault::NoThread) => Err(PlanFault::NoThread),
            Err(RegionFault::OutOfMemory) => Err(PlanFault::OutOfMemory),
        }
    }
}

/// The plans of all regions, each with all the turns. Before each the planner's observer is told.
pub(crate) fn plan_regions<F: Fn(&Arc<Region>) -> RegionPlan, O: Observer>(
    alloc: Global,
    regions: Vec<Region>,
    planner: &Planner<'_, F, O>,
) -> Result<Course, PlanFault>
    requires callable { F.IsAlwaysCallable planner.now.plan }
    requires plans { PlansRegions (λ region. arc_value region.now) planner.now.allowance
        (F.post planner.now.plan) }
    ensures found { IfOk result (λ c. IsCourse regions.items planner.now.allowance (known c)) }
    ensures fault { IfErr result (λ e. e ≢ PlanFault.OutOfMemory → e ≡ PlanFault.NoThread) }
    ensures threads { IfErr result (λ e. e ≡ PlanFault.NoThread → 1 < planner.now.allowance.workers) }
{
    let mut course = Course::new(alloc);
    let count = regions.len();
    let mut number: usize = 0;
    for region in regions {
        number = number.saturating_add(1);
        planner.observer.region(number, count);
        let region = Arc::new(alloc, region)?;
        course.add_next(planner, region)?;
    }
    Ok(course)
}

/// Numbers in order, each once.
pub fn in_order(cells: Vec<Cell>) -> Vec<Cell>
    ensures { ListsAll (Contains cells.items) result.items }
{
    let mut cells = cells;
    cells.sort_unstable();
    cells.dedup();
    cells
}
