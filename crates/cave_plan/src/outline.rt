//! The plan of a cave.
ghost use Rattle.std.specs.Arc.{arc_value};
ghost use Rattle.std.specs.Prelude.{◌≡◌, ◌≢◌, ◌<◌, IfOk, IfErr};
ghost use Rattle.cave_model.specs.Cave.{IsWorld};
ghost use Rattle.cave_plan.specs.Course.{floor_if, known};
ghost use Rattle.cave_plan.specs.Faults.{IsRefusedPlan, NamesUnlightable};
ghost use Rattle.cave_plan.specs.Outline.{AreRegionsIn, CountsDark, IsCourseIn, IsOutlineOf};
ghost use Rattle.cave_plan.specs.declared.fault.PlanFault.{PlanFault};
ghost use Rattle.search_traits.specs.Planning.{PlansRegions};

use crate::course::{Course, in_order, plan_regions};
use crate::drawing::plan_text;
use crate::fault::{PlanFault, plan_fault};
use cave_model::{Rule, World};
use cave_problem::Problem;
use cave_regions::split;
use certificate_text::Planned;
use instance_regions::Region;
use search_traits::{Allowance, Observer, Planner, RegionPlan};
use std::alloc::{AllocError, Global};
use std::sync::Arc;

/// The plan of a cave.
#[derive(Drop)]
pub struct Outline {
    /// What is printed of it.
    pub text: String,
    /// The regions of the cave, each with its torches and a tree that proves them the fewest, unless turns were spent.
    pub parts: Vec<Planned>,
    /// Whether the turns of some region were spent.
    pub stopped: bool,
    /// The most turns that were granted to a region.
    pub turns: u64,
}

/// The rule, with what every world keeps.
fn rule_kept(world: &World) -> Rule
    ensures { IsWorld world.now }
{
    let _ = world.size(); // for the proof
    world.rule()
}

/// The number that no torches are fewer than, where turns were spent.
fn least_if(stopped: bool, floor: u64) -> Option<u64>
    ensures { result ≡ floor_if stopped floor }
{
    if stopped { Some(floor) } else { None }
}

/// What is printed of planned regions, with what proves them.
fn outline_from(
    alloc: Global,
    world: &World,
    plans: Course,
    dark: usize,
    _allowance: Allowance, // for the proof
) -> Result<Outline, AllocError>
    requires plans { IsCourseIn world.now _allowance (known plans) }
    requires dark { CountsDark world.now dark }
    ensures { IfOk result (IsOutlineOf world.now _allowance) }
{
    let _ = rule_kept(world); // for the proof
    let Course {
        parts,
        torches,
        floor,
        stopped,
        turns,
    } = plans;
    let torches = in_order(torches);
    let text = plan_text(alloc, world, &torches, dark, least_if(stopped, floor))?;
    Ok(Outline {
        text,
        parts,
        stopped,
        turns,
    })
}

/// The regions of the cave, and the number of its dark cells. The rows of the whole cave are let go.
fn regions_of(alloc: Global, world: &World) -> Result<(Vec<Region>, usize), PlanFault>
    ensures regions { IfOk result (λ r. AreRegionsIn world.now r.0.items) }
    ensures dark { IfOk result (λ r. CountsDark world.now r.1) }
    ensures fault { IfErr result (λ e. e ≢ PlanFault.OutOfMemory → NamesUnlightable world.now e) }
    ensures threads { IfErr result (λ e. e ≢ PlanFault.NoThread) }
    ensures refused { (e : PlanFault) → NamesUnlightable world.now e → IsRefusedPlan result e }
{
    let problem = match Problem::new(alloc, world) {
        Ok(problem) => problem,
        Err(fault) => return Err(plan_fault(world, fault)),
    };
    let dark = problem.dark().len();
    let regions = split(alloc, &problem)?;
    Ok((regions, dark))
}

/// The fewest torches that leave no cell of the cave dark: what is printed of them, and for each region a tree which
/// proves that fewer don't do. The regions are planned one after another, each with all the turns; where those of one
/// were spent, the torches are the best that were found. The rows of the whole cave are let go before
/// the search.
pub fn plan_cave<F: Fn(&Arc<Region>) -> RegionPlan, O: Observer>(
    alloc: Global,
    world: &World,
    planner: &Planner<'_, F, O>,
) -> Result<Outline, PlanFault>
    requires callable { F.IsAlwaysCallable planner.now.plan }
    requires plans { PlansRegions (λ region. arc_value region.now) planner.now.allowance
        (F.post planner.now.plan) }
    // Best torches, or, where turns were limited, safe ones and a number that none are fewer than. No region took more
    // turns than the limit.
    ensures found { IfOk result (IsOutlineOf world.now planner.now.allowance) }
    // A fault but want of threads names the least dark cell that no place lights, by its coordinates.
    ensures fault { IfErr result (λ e. e ≢ PlanFault.OutOfMemory → e ≢ PlanFault.NoThread
        → NamesUnlightable world.now e) }
    // Threads are asked for only where more workers than one are.
    ensures threads { IfErr result (λ e. e ≡ PlanFault.NoThread → 1 < planner.now.allowance.workers) }
    // Such a fault is answered, before any worker is asked for.
    ensures refused { (e : PlanFault) → NamesUnlightable world.now e → IsRefusedPlan result e }
{
    let (regions, dark) = regions_of(alloc, world)?;
    let plans = plan_regions(alloc, regions, planner)?;
    let outline = outline_from(alloc, world, plans, dark, planner.allowance)?;
    Ok(outline)
}
