//! Workers are started and joined one after another: `AreFrom` of specs/Rows.antt. Where one can't be started, its
//! result is that of a worker that did nothing.
ghost use Rattle.std.specs.Arc.{arc_value};
ghost use Rattle.std.specs.Prelude.{◌≡◌, ◌≤◌, ◌<◌, ◌+◌, IfOk, IfSome, IsTrue, length};
ghost use Rattle.plan_options.specs.Crew.{most_workers};
ghost use Rattle.search_pool.specs.Rows.{AreFrom};
ghost use Rattle.worker_results.specs.Naming.{AreThieves};

use crate::unrun::Unrun;
use crate::worker::{Common, Post, Slot, take_from, work_one};
use search_traits::{Closer, Observer};
use std::sync::Wait;
use std::thread;
use std::thread::{Promise, Scope, Threads};
use worker_results::{Done, Naming};

/// Workers that are to start: their slots, and the number of the first.
#[derive(Drop)]
pub(crate) struct Team<'e, B: Naming> {
    pub(crate) slots: &'e [Slot<B>],
    pub(crate) first: u32,
}

/// A result is of the worker at this post.
impl<B: Naming> Promise<Option<Done<B>>> for Post {
    ghost use Rattle.std.specs.Prelude.{◌≡◌, IfSome};

    ghost kept_by = { λ p r. IfSome r (λ done. done.holdings.worker ≡ p.worker) };
}

/// Starts a worker for each slot, one after another, and joins them, the last first. What waited for a worker that
/// can't be started is its result.
pub(crate) fn run_from<'s, 'e, B, C, R, O>(
    scope: &'s Scope<'s, &'e ()>,
    rt: &'e R,
    common: Common<'e, C::Memory>,
    closer: &'e C,
    observer: &'e O,
    team: Team<'e, B>,
) -> Result<Vec<Done<B>>, Unrun>
where
    B: Naming + Send + Sync + 'e,
    C: Closer + Send + Sync + 'e,
    C::Hand: Send + Sync + 'e,
    C::Memory: Send + Sync + 'e,
    R: Threads + Wait + Sync + 'e,
    O: Observer + 'e,
    requires ground { (common.beacon.now ≡ B.beacon) × (arc_value common.region.now ≡ B.region)
        × AreThieves B.deque 0 common.thieves.now }
    requires few { team.first + length team.slots.now ≤ most_workers }
    ensures each { IfOk result (λ all. AreFrom team.entry.first all.items
        × (length all.items ≡ length team.entry.slots.now)) }
{
    let Some((slot, rest)) = team.slots.split_first() else {
        return Ok(Vec::new(common.alloc));
    };
    let post = Post { worker: team.first };
    let work = move || -> Option<Done<B>>
        requires { (common.beacon.now ≡ B.beacon) × (arc_value common.region.now ≡ B.region)
            × AreThieves B.deque 0 common.thieves.now }
        ensures { IfSome result (λ done. done.holdings.worker ≡ post.worker) }
    { work_one::<B, C, R, O>(rt, common, closer, slot, observer, post) };
    let child = scope.spawn_with(post, work);
    let mut others = run_from::<B, C, R, O>(
        scope,
        rt,
        common,
        closer,
        observer,
        Team {
            slots: rest,
            first: team.first + 1,
        },
    )?;
    let done = match child {
        Ok(child) => child.join(rt),
        Err(_) => take_from(rt, slot, post),
    };
    let Some(done) = done else {
        return Err(Unrun::NoThread);
    };
    others.insert(0, done)?;
    Ok(others)
}

/// Starts a worker for each slot, and joins them.
pub(crate) fn run_scope<B, C, R, O>(
    rt: &R,
    common: Common<'_, C::Memory>,
    closer: &C,
    slots: &[Slot<B>],
    observer: &O,
) -> Result<Vec<Done<B>>, Unrun>
where
    B: Naming + Send + Sync,
    C: Closer + Send + Sync,
    C::Hand: Send + Sync,
    C::Memory: Send + Sync,
    R: Threads + Wait + Sync,
    O: Observer,
    requires ground { (common.beacon.now ≡ B.beacon) × (arc_value common.region.now ≡ B.region)
        × AreThieves B.deque 0 common.thieves.now }
    requires count { (0 < length slots.now) × (length slots.now ≤ most_workers) }
    ensures { IfOk result (λ all. AreFrom 0 all.items × (length all.items ≡ length slots.now)) }
{
    let results = thread::scope(
        thread::scope_env(),
        rt,
        |scope| -> Result<Vec<Done<B>>, Unrun>
            requires ground { (common.beacon.now ≡ B.beacon)
                × (arc_value common.region.now ≡ B.region)
                × AreThieves B.deque 0 common.thieves.now }
            requires few { length slots.now ≤ most_workers }
        {
            let team = Team { slots, first: 0 };
            run_from::<B, C, R, O>(scope, rt, common, closer, observer, team)
        },
    )?;
    // What comes back from the scope has to be seen once more: the prover knows nothing of it.
    if results.len() != slots.len() || !are_from(&results, 0) {
        return Err(Unrun::NoThread);
    }
    Ok(results)
}

/// Whether the results are of the workers from this number on.
fn are_from<B: Naming>(results: &[Done<B>], first: u32) -> bool
    requires { first + length results.now ≤ most_workers }
    ensures { IsTrue result → AreFrom first results.now }
{
    let Some((done, rest)) = results.split_first() else {
        return true;
    };
    done.worker() == first && are_from(rest, first + 1)
}
