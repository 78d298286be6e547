//! Many workers, who make the rounds of a search in threads of their own. What they answer of a region is
//! `IsRegionPlan` of search_traits' specs/Planning.antt, and of a round `IsRound` of search_core's specs/Rounds.antt.
ghost use Rattle.std.specs.Arc.{arc_value};
ghost use Rattle.search_core.specs.Rounds.{IsRound};
ghost use Rattle.search_traits.specs.Planning.{IsRegionPlan};

use crate::resources::Resources;
use instance_regions::{Cover, Region};
use node_search::BranchAndBound;
use plan_options::Workers;
use search_core::{ByMany, plan_by};
use search_pool::run_round;
use search_traits::{BestPlan, Observer, RegionFault, RegionPlan, SharedSearch, Strategy};
use std::sync::{Arc, Wait};
use std::thread::Threads;

/// More workers than one, and what they plan with. The observer may hold them back.
#[derive(Drop)]
pub(crate) struct Crew<'e, X, O> {
    pub(crate) resources: &'e Resources<'e, X, O>,
    pub(crate) workers: Workers,
}

impl<'e, X: Threads + Wait + Sync, O: Observer> Crew<'e, X, O> {
    /// The fewest places that light every cell of the region, and a tree that proves it. One turn is one node worked
    /// on.
    pub(crate) fn plan_region<S>(&self, region: &Arc<Region>, turns: Option<u64>) -> RegionPlan
    where
        S: Strategy + Send + Sync,
        S::Memory: Send + Sync,
        ensures { IsRegionPlan self.now.workers.number turns (arc_value region.now) result }
    {
        let Resources {
            alloc,
            observer,
            ..
        } = *self.resources;
        let rounds = ByMany {
            close_all: |first: Cover, search: &BranchAndBound<
                S,
                S::Memory,
            >, aim: u64, turns: Option<u64>| -> RegionPlan
                ensures { IsRound first.region aim turns result }
            { self.close_all::<S>(first, search, aim, turns) },
        };
        plan_by::<S, O, _>(alloc, region, turns, observer, &rounds)
    }

    /// All workers close what is below the root of the cover's region, which is worked on as the search tells.
    fn close_all<S>(
        &self,
        first: Cover,
        search: &BranchAndBound<S, S::Memory>,
        aim: u64,
        turns: Option<u64>,
    ) -> RegionPlan
    where
        S: Strategy + Send + Sync,
        S::Memory: Send + Sync,
        ensures { IsRound first.region aim turns result }
    {
        let Resources {
            threads,
            alloc,
            observer,
        } = *self.resources;
        let region = Arc::try_clone(first.region())?;
        let shared = SharedSearch {
            alloc,
            region: &region,
            closer: search,
        };
        match run_round(threads, shared, self.workers, observer, first, aim, turns) {
            Ok(report) => Ok(BestPlan {
                cover: report.cover,
                proof: report.proof,
                turns: report.turns,
            }),
            Err(fault) => Err(fault),
        }
    }
}
