//! One worker: it takes the newest of its own pieces, or steals one, and works on it, until no piece is open, or it
//! can't go on. What it hands over is its own.
ghost use Rattle.std.specs.Arc.{arc_value};
ghost use Rattle.std.specs.Prelude.{◌≡◌, ◌<◌, IfSome, length};
ghost use Rattle.search_traits.specs.Desks.{Continues};
ghost use Rattle.worker_results.specs.Naming.{AreThieves};
ghost use Rattle.worker_results.specs.Steps.{KeepFloors};

use crate::ledger::Ledger;
use crate::memories::Memories;
use beacon::Beacon;
use instance_regions::Region;
use piece_deque::Thief;
use search_traits::{Closer, Desk, Observer, SharedSearch};
use std::alloc::{AllocError, Global};
use std::sync::{Arc, Mutex, Wait};
use worker_results::{Done, Holdings, Naming, PoolDesk, Step, Tried};

/// How often a worker tries to steal from a deque where other threads are first, before it looks elsewhere.
const TRIES: u32 = 1000;

/// How many pieces a worker shows to thieves at once, if it keeps more (this project's own).
const SHOWN: usize = 2;

/// Where a worker finds what it begins with.
pub(crate) type Slot<B> = Mutex<Option<Done<B>>>;

/// A worker's number.
#[derive(Clone, Copy)]
pub(crate) struct Post {
    pub(crate) worker: u32,
}

/// The sizes that an observer is told of.
#[derive(Clone, Copy)]
pub(crate) struct Sizes {
    /// The size of the smallest cover as the round began.
    pub(crate) first: u64,
    /// The size of which it is proved, if the round comes to its end, that no cover is below it.
    pub(crate) goal: u64,
}

/// What all workers have in common.
pub(crate) struct Common<'e, M> {
    pub(crate) alloc: Global,
    pub(crate) beacon: &'e Beacon,
    pub(crate) region: &'e Arc<Region>,
    pub(crate) thieves: &'e [Thief],
    pub(crate) ledger: &'e Ledger,
    pub(crate) memories: &'e Memories<M>,
    pub(crate) sizes: Sizes,
    pub(crate) is_limited: bool,
}

impl<'e, M> Clone for Common<'e, M> {
    fn clone(&self) -> Result<Common<'e, M>, AllocError> {
        Ok(*self)
    }
}

impl<'e, M> Copy for Common<'e, M> {}

/// Takes the newest kid that the worker keeps, else a piece of its own deque, else one of the others in order. `Again`
/// is answered where other threads were first each time, so there may be one.
fn next<B: Naming>(holdings: &mut Holdings<B>, thieves: &[Thief]) -> Tried
    requires { AreThieves B.deque 0 thieves.now }
    ensures worker { holdings.new.worker ≡ holdings.old.worker }
    ensures closed { holdings.new.closed ≡ holdings.old.closed }
{
    if holdings.take_kept() {
        return Tried::Got;
    }
    if let Tried::Got = holdings.take() {
        return Tried::Got;
    }
    let mut found = Tried::Empty;
    for deque in 0..thieves.len() {
        match steal_from(holdings, thieves, deque) {
            Tried::Got => return Tried::Got,
            Tried::Again => found = Tried::Again,
            Tried::Empty | Tried::OutOfMemory => {}
        }
    }
    found
}

/// Steals a piece, and tries again where other threads are first.
fn steal_from<B: Naming>(holdings: &mut Holdings<B>, thieves: &[Thief], deque: usize) -> Tried
    requires thieves { AreThieves B.deque 0 thieves.now }
    requires number { deque < length thieves.now }
    ensures worker { holdings.new.worker ≡ holdings.old.worker }
    ensures closed { holdings.new.closed ≡ holdings.old.closed }
{
    for _ in 0..TRIES {
        match holdings.steal(thieves, deque) {
            Tried::Again => {}
            tried => return tried,
        }
    }
    Tried::Again
}

/// Shows the oldest kids that the worker keeps to thieves, but for the newest.
fn show_some<B: Naming, M, R: Wait>(rt: &R, holdings: &mut Holdings<B>, common: Common<'_, M>)
    ensures worker { holdings.new.worker ≡ holdings.old.worker }
    ensures closed { holdings.new.closed ≡ holdings.old.closed }
{
    for _ in holdings.shown_count()..SHOWN {
        if holdings.kept_count() < 2 || !holdings.show_oldest() {
            return;
        }
        common.ledger.show(rt);
    }
}

/// Tells of the piece that the worker works on next.
fn tell<B: Naming, O: Observer>(observer: &O, sizes: Sizes, post: Post, holdings: &Holdings<B>) {
    if 1 <= sizes.goal && sizes.goal <= sizes.first {
        observer.turn(sizes.first, sizes.goal);
    }
    if let Some(name) = holdings.last_name() {
        observer.enter(post.worker, name);
    }
}

/// Works on the piece that was taken last: whether the worker can go on.
#[tactic(auto, using(search_traits::proofs::DeskLemmas::continues_then))]
fn work_piece<B, C, D, R>(
    rt: &R,
    search: SharedSearch<'_, C>,
    common: Common<'_, C::Memory>,
    hand: &mut C::Hand,
    holdings: &mut Holdings<B>,
    desk: &mut D,
) -> bool
where
    B: Naming,
    C: Closer,
    D: Desk,
    R: Wait,
    requires { (arc_value search.region.now ≡ B.region) × ((D.state desk.old).region ≡ B.region) }
    ensures worker { holdings.new.worker ≡ holdings.old.worker }
    ensures floors { KeepFloors B.region (D.state desk.old).shown holdings.old.closed
        (D.state desk.new).shown holdings.new.closed }
    ensures onward { Continues (D.state desk.old) (D.state desk.new) }
{
    let name = match holdings.last_name() {
        Some(name) => Vec::from_slice(common.alloc, name.as_slice()),
        None => return false,
    };
    let Ok(name) = name else {
        return false;
    };
    let Ok(above) = common.memories.above(rt, &name) else {
        return false;
    };
    let above = above.as_ref().map(|memory| memory.as_ref());
    match holdings.work_last(search, hand, above, desk) {
        Step::Closed => {
            common.ledger.end_piece(rt, 0);
            true
        }
        Step::Opened { kids, memory } => {
            // Without it the kids begin with what was found at the root.
            let _ = common.memories.keep(rt, name, memory, kids);
            common.ledger.end_piece(rt, kids);
            true
        }
        _ => false,
    }
}

/// Takes what the slot holds, if it is this worker's.
pub(crate) fn take_from<B: Naming, R: Wait>(rt: &R, slot: &Slot<B>, post: Post) -> Option<Done<B>>
    ensures { IfSome result (λ done. done.holdings.worker ≡ post.worker) }
{
    let done = slot.lock(rt).take()?;
    if done.worker() != post.worker {
        return None;
    }
    Some(done)
}

/// Begins with what the slot holds, and works until no piece is open, or it can't go on. None where the slot has
/// nothing for it.
pub(crate) fn work_one<B, C, R, O>(
    rt: &R,
    common: Common<'_, C::Memory>,
    closer: &C,
    slot: &Slot<B>,
    observer: &O,
    post: Post,
) -> Option<Done<B>>
where
    B: Naming,
    C: Closer,
    R: Wait,
    O: Observer,
    requires { (common.beacon.now ≡ B.beacon) × (arc_value common.region.now ≡ B.region)
        × AreThieves B.deque 0 common.thieves.now }
    ensures { IfSome result (λ done. done.holdings.worker ≡ post.worker) }
{
    let (seat, cover, mut holdings) = take_from(rt, slot, post)?.into_parts();
    let search = SharedSearch {
        alloc: common.alloc,
        region: common.region,
        closer,
    };
    let mut desk: PoolDesk<'_, B> = PoolDesk::new(
        common.beacon,
        common.region,
        seat,
        cover,
        common.is_limited,
    );
    if let Ok(mut hand) = closer.hand(common.alloc) {
        for _ in 0..u64::MAX {
            let shows = common.ledger.shows(rt);
            match next(&mut holdings, common.thieves) {
                Tried::Got => {}
                Tried::Again => continue,
                Tried::Empty | Tried::OutOfMemory => {
                    if common.ledger.wait(rt, shows) {
                        continue;
                    }
                    break;
                }
            }
            if !common.ledger.take_turn(rt) {
                break;
            }
            desk.allow();
            tell(observer, common.sizes, post, &holdings);
            if !work_piece(rt, search, common, &mut hand, &mut holdings, &mut desk) {
                break;
            }
            show_some(rt, &mut holdings, common);
        }
    }
    common.ledger.leave(rt, holdings.count());
    let (seat, cover) = desk.into_parts();
    Some(Done::new(seat, cover, holdings))
}
