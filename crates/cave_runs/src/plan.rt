//! The plan of a structure, from the bytes read to the bytes written: `IsRunOfPlan` of specs/RunOfPlan.antt.
ghost use Rattle.std.specs.Arc.{arc_value};
ghost use Rattle.std.specs.Prelude.{◌≡◌, ◌≢◌, ◌<◌, IfOk, IfErr, OnOk, option_copied, string_bytes};
ghost use Rattle.cave_base.specs.Answer.{IsRefusal};
ghost use Rattle.cave_model.specs.RuleOf.{rule_of};
ghost use Rattle.cave_plan.specs.Outline.{IsOutlineOf, IsPlanned};
ghost use Rattle.cave_runs.specs.PlanRuns.{EndsIn, IsNoPlan, LeavesIn, LeavesProved, TellsPlans, WritesBest};
ghost use Rattle.cave_runs.specs.RunOfPlan.{IsRunOfPlan};
ghost use Rattle.cave_runs.specs.Streams.{inputs, outputs, stream};
ghost use Rattle.cave_runs.specs.declared.fault.RunFault.{RunFault};
ghost use Rattle.certificate_text.specs.PlanOf.{plans_of};
ghost use Rattle.search_traits.specs.Planning.{PlansRegions};

use crate::fault::{Input, RunFault};
use crate::limits::STRUCTURE_LIMIT;
use crate::reading::read_all;
use crate::watcher::{Watcher, tell_sides};
use crate::writing::put_all;
use cave_model::{Rule, World};
use cave_plan::{Allowance, Outline, Planner, RegionPlan, plan_cave};
use cave_reading::read_cave;
use certificate_text::write_certificate;
use instance_regions::Region;
use std::alloc::Global;
use std::io::{Read, Write};
use std::sync::Arc;

/// How a plan ended.
#[derive(Clone, Copy, Debug, PartialEq, Eq)]
pub enum Outcome {
    /// The torches are the fewest, and the most turns that were granted to a region.
    Done { turns: u64 },
    /// The turns of a region were spent before, and the most turns that were granted to a region.
    Stopped { turns: u64 },
}

/// The cave that the bytes tell, with its plan.
fn plan_bytes<F: Fn(&Arc<Region>) -> RegionPlan, O: Watcher>(
    alloc: Global,
    bytes: &[u8],
    table: Option<&[u8]>,
    rule: Rule,
    planner: &Planner<'_, F, O>,
) -> Result<(World, Outline), RunFault>
    requires callable { F.IsAlwaysCallable planner.now.plan }
    requires plans { PlansRegions (λ region. arc_value region.now) planner.now.allowance
        (F.post planner.now.plan) }
    ensures found { IfOk result (λ p. TellsPlans bytes.now (option_copied table.entry) (rule_of rule)
        planner.now.allowance p.0 p.1) }
    ensures fault { IfErr result (λ e. e ≢ RunFault.OutOfMemory → e ≢ RunFault.NoThread
        → IsNoPlan bytes.now (option_copied table.entry) (rule_of rule) e) }
    ensures threads { IfErr result (λ e. e ≡ RunFault.NoThread → 1 < planner.now.allowance.workers) }
    ensures refused { (e : RunFault) → IsNoPlan bytes.now (option_copied table.entry) (rule_of rule) e
        → IsRefusal RunFault.OutOfMemory result e }
{
    let world = read_cave(alloc, bytes, table, rule)?;
    tell_sides(&world, planner.observer);
    let outline = plan_cave(alloc, &world, planner)?;
    planner.observer.searched(outline.turns);
    Ok((world, outline))
}

/// Writes the certificate of planned regions, and then the text of the plan.
fn put_proved<W, V>(
    alloc: Global,
    world: &World,
    outline: &Outline,
    writer: &mut W,
    proof: &mut V,
) -> Result<(), RunFault>
where
    W: Write,
    V: Write,
    requires { IsPlanned world.now (string_bytes outline.now.text) (plans_of outline.now.parts.items) }
    ensures done { OnOk result (WritesBest world.now
        (outputs (stream (W.contents writer.old) (W.contents writer.new))
        (stream (V.contents proof.old) (V.contents proof.new)))) }
    ensures left { IfErr result (λ e. LeavesProved e world.now
        (outputs (stream (W.contents writer.old) (W.contents writer.new))
        (stream (V.contents proof.old) (V.contents proof.new)))) }
{
    write_certificate(alloc, proof, world, &outline.parts)?;
    put_all(writer, outline.text.as_bytes())
}

/// Writes the text of a plan, and before it the certificate, where the search came to its end.
fn put_plan<W, V>(
    alloc: Global,
    world: &World,
    outline: &Outline,
    _allowance: Allowance, // for the proof
    writer: &mut W,
    proof: &mut V,
) -> Result<Outcome, RunFault>
where
    W: Write,
    V: Write,
    requires { IsOutlineOf world.now _allowance outline.now }
    ensures done { IfOk result (λ outcome. EndsIn outcome world.now _allowance
        (outputs (stream (W.contents writer.old) (W.contents writer.new))
        (stream (V.contents proof.old) (V.contents proof.new)))) }
    ensures left { IfErr result (λ e. LeavesIn e world.now _allowance
        (outputs (stream (W.contents writer.old) (W.contents writer.new))
        (stream (V.contents proof.old) (V.contents proof.new)))) }
{
    if outline.stopped {
        put_all(writer, outline.text.as_bytes())?;
        return Ok(Outcome::Stopped {
            turns: outline.turns,
        });
    }
    put_proved(alloc, world, outline, writer, proof)?;
    Ok(Outcome::Done {
        turns: outline.turns,
    })
}

/// Reads a structure to the end of the reader, plans the fewest torches that leave none of its cells dark, and writes
/// the proof's certificate to `proof` and the plan's text to `writer`. All is read before it is judged, all regions are
/// planned before a byte is written, and the whole text of the plan is made before its first byte is. The rows are
/// those of the user's table, where there is one, before the shipped ones. Where the turns of a region were spent, the
/// text says how few torches there might be, and no certificate is written. Before the search the planner's observer is
/// told where free cells lie at a side of the box, and after it the most turns that were granted to a region. Who plans
/// the regions changes no promise: where that waits for nobody, this is proved to return.
pub fn run_planner<F, O, R, W, V>(
    alloc: Global,
    reader: &mut R,
    table: Option<&[u8]>,
    rule: Rule,
    planner: &Planner<'_, F, O>,
    writer: &mut W,
    proof: &mut V,
) -> Result<Outcome, RunFault>
where
    F: Fn(&Arc<Region>) -> RegionPlan,
    O: Watcher,
    R: Read,
    W: Write,
    V: Write,
    requires callable { F.IsAlwaysCallable planner.now.plan }
    requires plans { PlansRegions (λ region. arc_value region.now) planner.now.allowance
        (F.post planner.now.plan) }
    ensures { IsRunOfPlan
        (inputs (stream (R.remaining reader.old) (R.remaining reader.new)) (option_copied table.entry) (rule_of rule))
        planner.now.allowance result (outputs (stream (W.contents writer.old) (W.contents writer.new))
        (stream (V.contents proof.old) (V.contents proof.new))) }
{
    let bytes = read_all(alloc, reader, STRUCTURE_LIMIT, Input::StructureInput)?;
    let (world, outline) = plan_bytes(alloc, &bytes, table, rule, planner)?;
    put_plan(alloc, &world, &outline, planner.allowance, writer, proof)
}
