//! Results are taken apart, and their seats joined to the first one: `AreParted` of specs/Parting.antt. The parts stand
//! in the order of the results, as `AreOfEach` says.
ghost use Rattle.std.specs.Prelude.{◌≡◌, true, IfOk};
ghost use Rattle.beacon.specs.Marks.{together};
ghost use Rattle.worker_results.specs.Parting.{AreOfEach, AreParted, IsOneMore};

use crate::done::Done;
use crate::naming::Naming;
use crate::own::Own;
use crate::pass_at::PassAt;
use beacon::{Beacon, Seat};
use cave_model::OutOfMemory;
use schedule_law::Work;
use std::alloc::Global;

/// The first seat, which took in the others, and the parts of the results in their order.
#[derive(Drop)]
pub(crate) struct AllParts<B: Naming> {
    pub(crate) first: Seat,
    pub(crate) owners: Vec<Own<B>>,
    pub(crate) rows: Vec<Vec<PassAt<B>>>,
    pub(crate) works: Vec<Work>,
}

/// Takes all results apart, and joins their seats to the first one.
pub(crate) fn part_all<B: Naming>(
    alloc: Global,
    beacon: &Beacon,
    first: Seat,
    results: Vec<Done<B>>,
) -> Result<AllParts<B>, OutOfMemory>
    requires beacon { (beacon.now ≡ B.beacon) × (first.beacon ≡ B.beacon) }
    requires first { first.knows.first ≡ true }
    ensures seat { IfOk result (λ parts. parts.first.beacon ≡ B.beacon) }
    ensures apart { IfOk result (λ parts. AreParted B.region B.start B.workers
        first.knows parts.first.knows
        parts.owners.items parts.rows.items parts.works.items) }
    ensures each { IfOk result (λ parts. AreOfEach results.items
        parts.owners.items parts.rows.items parts.works.items) }
{
    let mut parts = AllParts {
        first,
        owners: Vec::new(alloc),
        rows: Vec::new(alloc),
        works: Vec::new(alloc),
    };
    for done in results {
        parts = part_one(beacon, parts, done)?;
    }
    Ok(parts)
}

/// Takes one result more apart, and joins its seat.
fn part_one<B: Naming>(
    beacon: &Beacon,
    mut parts: AllParts<B>,
    done: Done<B>,
) -> Result<AllParts<B>, OutOfMemory>
    requires beacon { (beacon.now ≡ B.beacon) × (parts.first.beacon ≡ B.beacon) }
    requires first { parts.first.knows.first ≡ true }
    ensures seat { IfOk result (λ more. (more.first.beacon ≡ B.beacon)
        × (more.first.knows ≡ together parts.first.knows done.knows)) }
    ensures more { IfOk result (λ more. IsOneMore B.region B.start B.workers done
        parts.owners.items parts.rows.items parts.works.items
        more.owners.items more.rows.items more.works.items) }
{
    let (seat, cover, holdings) = done.into_parts();
    let (own, passes, work) = holdings.into_parts(cover);
    beacon.join(&mut parts.first, seat);
    parts.owners.push(own)?;
    parts.rows.push(passes)?;
    parts.works.push(work)?;
    Ok(parts)
}
