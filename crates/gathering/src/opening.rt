//! What workers did before any of them closed a piece, played on the event core: `tries_before_closes` of
//! specs/Playing.antt. An event that isn't enabled is passed over.
ghost use Rattle.std.specs.Prelude.{◌≡◌, ◌<◌, ◌+◌, ◌^◌, length, IfOk};
ghost use Rattle.event_core.specs.Kept.{state_of};
ghost use Rattle.event_core.specs.Plays.{Plays};
ghost use Rattle.gathering.specs.Playing.{tries, tries_as_long, tries_before_closes, tries_below, tries_one};
ghost use Rattle.schedule_law.specs.Joined.{all_opened};
ghost use Rattle.schedule_law.specs.Listing.{longest_name, looks, offer_of, offers, opening_of};

use cave_base::Sequence;
use event_core::{Core, Event};
use instance_regions::Cover;
use proof_tree::{Branching, Opened};
use schedule_law::Work;
use std::alloc::{AllocError, Global};

/// The workers open pieces, shorter names first, offer and look.
pub(crate) fn try_before_closes(
    alloc: Global,
    core: &mut Core,
    works: &[Work],
) -> Result<(), AllocError>
    requires few { length works.now < 2 ^ 32 }
    ensures { IfOk result (λ _.
        Plays (state_of core.old) (tries_before_closes works.now) (state_of core.new)) }
{
    open_in_turn(alloc, core, works)?;
    offer_all(core, works)?;
    look_all(core, works)?;
    Ok(())
}

/// The event that opens the piece.
fn opening(alloc: Global, split: &Opened) -> Result<Event, AllocError>
    ensures { IfOk result (λ event. event ≡ opening_of split.now) }
{
    let name = split.piece().name().try_clone()?;
    let bars = Vec::from_slice(alloc, split.bars())?;
    let bars = Sequence::from_vec(bars);
    match split.on() {
        Branching::Cell(cell) => Ok(Event::Open(name, bars, cell)),
        Branching::Place(place) => Ok(Event::Pick(name, bars, place)),
    }
}

/// The length of the longest name of a piece that the workers opened.
fn longest(works: &[Work]) -> usize
    ensures { result ≡ longest_name (all_opened works.now) }
{
    let Some((work, rest)) = works.split_first() else {
        return 0;
    };
    longest_of(&work.opened).max(longest(rest))
}

/// The length of the longest name of these pieces.
fn longest_of(splits: &[Opened]) -> usize
    ensures { result ≡ longest_name splits.now }
{
    let mut most = 0;
    for split in splits {
        most = split.piece().name().as_slice().len().max(most);
    }
    most
}

/// The workers open their pieces, shorter names first.
fn open_in_turn(alloc: Global, core: &mut Core, works: &[Work]) -> Result<(), AllocError>
    requires few { length works.now < 2 ^ 32 }
    ensures { IfOk result (λ _. Plays (state_of core.old)
        (tries_below (longest_name (all_opened works.now) + 1) works.now) (state_of core.new)) }
{
    let longest = longest(works);
    for size in 0..longest {
        open_all(alloc, core, size, works)?;
    }
    open_all(alloc, core, longest, works)?;
    Ok(())
}

/// Each worker opens its pieces whose names have this length.
fn open_all(alloc: Global, core: &mut Core, size: usize, works: &[Work]) -> Result<(), AllocError>
    requires few { length works.now < 2 ^ 32 }
    ensures { IfOk result (λ _.
        Plays (state_of core.old) (tries size 0 works.now) (state_of core.new)) }
{
    let mut worker = 0u32;
    for work in works {
        open_each(alloc, core, size, worker, &work.opened)?;
        worker += 1;
    }
    Ok(())
}

/// A worker opens those of the pieces whose names have this length.
fn open_each(
    alloc: Global,
    core: &mut Core,
    size: usize,
    worker: u32,
    splits: &[Opened],
) -> Result<(), AllocError>
    ensures { IfOk result (λ _.
        Plays (state_of core.old) (tries_as_long size worker splits.now) (state_of core.new)) }
{
    for split in splits {
        open_one(alloc, core, size, worker, split)?;
    }
    Ok(())
}

/// A worker takes the piece, opens it, and leaves it where it could not be opened, if its name has this length.
fn open_one(
    alloc: Global,
    core: &mut Core,
    size: usize,
    worker: u32,
    split: &Opened,
) -> Result<(), AllocError>
    ensures { IfOk result (λ _.
        Plays (state_of core.old) (tries_one size worker split.now) (state_of core.new)) }
{
    let name = split.piece().name();
    if name.as_slice().len() != size {
        return Ok(());
    }
    core.step(Event::Take(worker, name.try_clone()?))?;
    core.step(opening(alloc, split)?)?;
    core.step(Event::Leave(worker, name.try_clone()?))?;
    Ok(())
}

/// Each worker offers its cover.
fn offer_all(core: &mut Core, works: &[Work]) -> Result<(), AllocError>
    requires few { length works.now < 2 ^ 32 }
    ensures { IfOk result (λ _.
        Plays (state_of core.old) (offers 0 works.now) (state_of core.new)) }
{
    let mut worker = 0u32;
    for work in works {
        offer_one(core, worker, &work.cover)?;
        worker += 1;
    }
    Ok(())
}

/// A worker offers its cover, if it has one.
fn offer_one(core: &mut Core, worker: u32, cover: &Option<Cover>) -> Result<(), AllocError>
    ensures { IfOk result (λ _.
        Plays (state_of core.old) (offer_of worker cover.now) (state_of core.new)) }
{
    match cover {
        None => Ok(()),
        Some(cover) => {
            core.step(Event::Offer(worker, cover.try_clone()?))?;
            Ok(())
        }
    }
}

/// Each worker looks.
fn look_all(core: &mut Core, works: &[Work]) -> Result<(), AllocError>
    requires few { length works.now < 2 ^ 32 }
    ensures { IfOk result (λ _. Plays (state_of core.old) (looks 0 works.now) (state_of core.new)) }
{
    let mut worker = 0u32;
    for work in works {
        core.step(Event::Look(worker))?;
        worker += 1;
    }
    Ok(())
}
