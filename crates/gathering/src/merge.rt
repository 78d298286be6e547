//! The results of workers with an aim are gathered into a cover and a tree: `IsGathered` of specs/Gathered.antt. Where
//! the turns don't do, it says what is known by then.
ghost use Rattle.std.specs.Arc.{arc_value};
ghost use Rattle.std.specs.Prelude.{◌≡◌, ◌<◌, ◌+◌, ◌^◌, length, IfErr, IfOk, IfSome};
ghost use Rattle.event_core.specs.Kept.{state_of};
ghost use Rattle.gathering.specs.Gathered.{ArePlayed, AreTurnsFor, IsGathered, StopsGathering};
ghost use Rattle.proof_tree.specs.Shape.{tree_of};
ghost use Rattle.search_traits.specs.Planned.{IsProvedTo};
ghost use Rattle.search_traits.specs.Turns.{AreSpent};

use crate::gleaning::glean_named;
use crate::opening::try_before_closes;
use crate::trying::close_all;
use event_core::Core;
use instance_regions::{Cover, Region};
use pack_bound::scattered;
use proof_tree::{Name, Piece, Proof};
use schedule_law::Work;
use search_traits::{AimedDesk, AloneDesk, Closer, Halt, RegionFault, SharedSearch, SoFar};
use std::alloc::{AllocError, Global};
use std::marker::Brand;
use std::sync::Arc;

/// The smallest cover that was offered, with the tree assembled from what workers opened and closed.
#[derive(Drop)]
pub struct Gathered {
    pub cover: Cover,
    pub proof: Proof,
    /// For each worker how many of its closed pieces were taken over.
    pub closed_by: Vec<u64>,
    /// The names of the pieces that this call closed.
    pub gleaned: Vec<Name>,
    /// How many turns this call granted. The count stops at the greatest number that it holds.
    pub turns: u64,
}

/// Plays the works on an event core with this aim, passes over what isn't enabled, closes each piece that then has no
/// tree, within the turns if these are limited, and assembles. The tree proves that no cover is smaller than the one
/// that is answered, or none below the aim where that is smaller still. More works than 32 bits count are refused as
/// memory is.
pub fn gather<C: Closer>(
    search: SharedSearch<'_, C>,
    first: Cover,
    aim: u64,
    works: Vec<Work>,
    turns: Option<u64>,
) -> Result<Gathered, RegionFault>
    requires begun { first.region ≡ arc_value search.region.now }
    ensures gathered { IfOk result (λ g.
        IsGathered (arc_value search.entry.region.now) first.places aim works.items (record {
          cover = g.cover;
          tree = tree_of g.proof;
          closed_by = g.closed_by.items;
          gleaned = g.gleaned.items;
        })) }
    ensures proved { IfOk result (λ g.
        IsProvedTo (arc_value search.entry.region.now) aim g.cover (tree_of g.proof)) }
    ensures granted { IfOk result (λ g. AreTurnsFor turns (length g.gleaned.items) g.turns) }
    ensures stopped { IfErr result (StopsGathering (arc_value search.entry.region.now) turns) }
{
    let SharedSearch { alloc, region, .. } = search;
    let Some(caller) = count_of(&works) else {
        return Err(RegionFault::OutOfMemory);
    };
    let (mut core, closed_by) = play(alloc, region, first, aim, caller, works)?;
    let desk = AimedDesk::new(AloneDesk::new(core.best().try_clone()?, turns), aim);
    // The aim is that of this call.
    let (gleaned, desk) = glean_named::<Brand, C>(search, &mut core, caller, desk);
    match gleaned {
        Ok(gleaned) => match core.assemble() {
            Ok((cover, proof)) => Ok(Gathered {
                cover,
                proof,
                closed_by,
                gleaned,
                turns: desk.granted(),
            }),
            Err(_) => unreachable!(),
        },
        Err(Halt::TurnsSpent) => Err(stopped(alloc, region, desk)?),
        Err(Halt::OutOfMemory) => Err(RegionFault::OutOfMemory),
    }
}

/// How many works there are, where 32 bits count them and one more.
fn count_of(works: &[Work]) -> Option<u32>
    ensures { IfSome result (λ count. (count ≡ length works.now) × (count + 1 < 2 ^ 32)) }
{
    if works.len() >= u32::MAX as usize {
        return None;
    }
    Some(works.len() as u32)
}

/// A core with this aim on which the works were played, and how many pieces of each were closed.
fn play(
    alloc: Global,
    region: &Arc<Region>,
    first: Cover,
    aim: u64,
    caller: u32,
    works: Vec<Work>,
) -> Result<(Core, Vec<u64>), AllocError>
    requires of_it { first.region ≡ arc_value region.now }
    requires count { (caller ≡ length works.items) × (caller + 1 < 2 ^ 32) }
    ensures { IfOk result (λ r. ArePlayed (arc_value region.now) first.places aim works.items r.1.items
        (state_of r.0)) }
{
    let mut core = Core::new(alloc, Arc::try_clone(region)?, first, aim, caller + 1)?;
    try_before_closes(alloc, &mut core, &works)?;
    let closed_by = close_all(alloc, &mut core, works)?;
    Ok((core, closed_by))
}

/// What is known once the turns are spent.
fn stopped(alloc: Global, region: &Arc<Region>, desk: AloneDesk) -> Result<RegionFault, AllocError>
    requires of_it { desk.cover.region ≡ arc_value region.now }
    requires spent { AreSpent desk.limit desk.granted }
    ensures { IfOk result (StopsGathering (arc_value region.now) desk.limit) }
{
    let cells = region.cells().len();
    prove!(cells > 0);
    let piece = Piece::root(alloc, region)?;
    let floor = scattered(alloc, &piece)?.len() as u64;
    let granted = desk.granted();
    Ok(RegionFault::Stopped(SoFar {
        cover: desk.into_cover(),
        floor,
        granted,
    }))
}
