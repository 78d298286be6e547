//! The caller's thread closes the pieces that are left waiting on the event core: `Gleans` of specs/Gathered.antt. It
//! offers its best cover and looks before each close.
ghost use Rattle.std.specs.Prelude.{◌≡◌, length, IsTrue, IfErr, IfOk};
ghost use Rattle.event_core.specs.Kept.{state_of};
ghost use Rattle.gathering.specs.Gathered.{EachTook};
ghost use Rattle.gathering.specs.Gleaning.{Finishes, GleansAll, GleansWhere, MayFinish, MayGlean, MayGleanOne};
ghost use Rattle.search_traits.specs.declared.halt.Halt.TheVariants.{TurnsSpent};
ghost use Rattle.search_traits.specs.Desks.{Continues, IsSpent, Works};
ghost use Rattle.search_traits.specs.Turns.{AreSpent};

use crate::goal_desk::{Aim, GoalDesk};
use event_core::{Core, Event};
use instance_regions::Cover;
use proof_tree::{Closed, Name, floor_of};
use search_traits::{AimedDesk, AloneDesk, CloseFault, Closer, Halt, SharedSearch};
use std::alloc::AllocError;

/// The caller's thread closes each piece that waits, with a desk whose aim is that of `A`: their names, and the desk.
pub(crate) fn glean_named<A: Aim, C: Closer>(
    search: SharedSearch<'_, C>,
    core: &mut Core,
    caller: u32,
    desk: AimedDesk,
) -> (Result<Vec<Name>, Halt>, AloneDesk)
    requires named { desk.aim ≡ A.aim }
    requires may { MayGlean (state_of core.old) caller A.aim desk.desk.cover.region }
    ensures gleans { IfOk result.0 (λ names.
        GleansAll (state_of core.old) caller names.items (state_of core.new)) }
    ensures spent { IfErr result.0 (λ halt. halt ≡ TurnsSpent → AreSpent result.1.limit result.1.granted) }
    ensures worked { IfOk result.0 (λ names.
        EachTook desk.desk.limit (length names.items) desk.desk.granted result.1.granted) }
    ensures same { (result.1.cover.region ≡ desk.desk.cover.region) × (result.1.limit ≡ desk.desk.limit) }
{
    let mut desk = GoalDesk::<A>::new(desk);
    let gleaned = glean(search, core, caller, &mut desk);
    (gleaned, desk.into_desk())
}

/// The caller's thread closes each piece that waits: their names.
#[tactic(auto, using(crate::proofs::DeskRules::desk_states))]
fn glean<A: Aim, C: Closer>(
    search: SharedSearch<'_, C>,
    core: &mut Core,
    caller: u32,
    desk: &mut GoalDesk<A>,
) -> Result<Vec<Name>, Halt>
    requires { MayGlean (state_of core.old) caller A.aim desk.old.region }
    ensures gleans { IfOk result (λ names.
        GleansAll (state_of core.old) caller names.items (state_of core.new)) }
    ensures spent { IfErr result (λ halt. halt ≡ TurnsSpent → IsSpent desk.new) }
    ensures worked { IfOk result (λ names.
        EachTook desk.old.limit (length names.items) desk.old.granted desk.new.granted) }
    ensures onward { Continues desk.old desk.new }
{
    let mut gleaned = Vec::new(search.alloc);
    for name in core.waiting_names()? {
        if glean_one(search, core, caller, &name, desk)? {
            gleaned.push(name)?;
        }
    }
    Ok(gleaned)
}

/// The caller's thread closes the piece of this name, where it waits: whether it did.
#[tactic(auto, using(search_traits::proofs::DeskLemmas::continues_same))]
fn glean_one<A: Aim, C: Closer>(
    search: SharedSearch<'_, C>,
    core: &mut Core,
    caller: u32,
    name: &Name,
    desk: &mut GoalDesk<A>,
) -> Result<bool, Halt>
    requires { MayGleanOne (state_of core.old) caller A.aim desk.old.region }
    ensures gleans { IfOk result (
        GleansWhere (state_of core.old) caller name.now (state_of core.new)) }
    ensures spent { IfErr result (λ halt. halt ≡ TurnsSpent → IsSpent desk.new) }
    ensures worked { IfOk result (λ is_closed. IsTrue is_closed
        → Works desk.old desk.new) }
    ensures onward { Continues desk.old desk.new }
{
    let Some(piece) = core.waiting_piece(name)? else {
        return Ok(false);
    };
    core.step(Event::Take(caller, name.try_clone()?))?;
    match search.closer.close_piece(search.alloc, piece, desk) {
        Ok(closed) => {
            let cover = desk.cover().try_clone()?;
            finish(core, caller, closed, cover)?;
            Ok(true)
        }
        Err(CloseFault::TurnsSpent(_)) => Err(Halt::TurnsSpent),
        Err(CloseFault::OutOfMemory(_)) => Err(Halt::OutOfMemory),
    }
}

/// The caller's thread offers the best cover that it knows, looks, and closes the piece.
fn finish(core: &mut Core, caller: u32, closed: Closed, cover: Cover) -> Result<(), AllocError>
    requires { MayFinish (state_of core.old) caller closed cover }
    ensures { IfOk result (λ _.
        Finishes (state_of core.old) caller closed cover (state_of core.new)) }
{
    // What is read shows that the cover is one, and that the tree closes the piece.
    let _ = cover.size(); // for the proof
    let _ = floor_of(&closed); // for the proof
    core.step(Event::Offer(caller, cover))?;
    core.step(Event::Look(caller))?;
    core.step(Event::Close(caller, closed))?;
    Ok(())
}
