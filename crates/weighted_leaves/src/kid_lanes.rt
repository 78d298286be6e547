//! The kids of a branch in lanes, but for those that the weights close as they are: each is run until all is known of
//! it, or for `KID_RUNS` runs. Then the next kid takes its lane, so that lanes stand idle only at the end.

use crate::kid_bounds::KidBounds;
use crate::lane_runs::{LaneState, state};
use crate::tree_sizes::before;
use instance_reduction::InInstance;
use linear_relaxation::{LANES, Lanes, ONE};
use std::alloc::{AllocError, Global};

/// How many runs the relaxation of a kid makes at most.
const KID_RUNS: u32 = 8;

/// A lane's kid by its index among the kids, and how many runs it made.
#[derive(Clone, Copy)]
struct LaneKid {
    kid: usize,
    runs: u32,
}

/// A lane whose kid is done, and the kid's place.
#[derive(Clone, Copy, Drop)]
pub(crate) struct DoneLane {
    pub lane: usize,
    pub place: InInstance,
}

/// Kids, some of them in lanes.
#[derive(Drop)]
pub(crate) struct KidLanes<'a> {
    kids: &'a KidBounds<'a>,
    /// All kids by their places, in their order.
    places: &'a [u32],
    /// What the part has to show more than in each lane.
    short_of: i64,
    lanes: Lanes,
    lane_kids: [Option<LaneKid>; LANES],
    /// The kid that takes a lane next.
    next: usize,
}

impl<'a> KidLanes<'a> {
    /// The first kids in lanes of theirs.
    pub(crate) fn new(
        kids: &'a KidBounds<'a>,
        places: &'a [u32],
        short_of: i64,
        lanes: Lanes,
    ) -> KidLanes<'a> {
        let mut found = KidLanes {
            kids,
            places,
            short_of,
            lanes,
            lane_kids: [None; LANES],
            next: 0,
        };
        found.lanes.begin();
        for lane in 0..LANES {
            found.fill(lane);
        }
        found.lanes.make_ready();
        found
    }

    /// The lanes.
    pub(crate) fn lanes(&self) -> &Lanes {
        &self.lanes
    }

    /// Whether no kid is in a lane.
    pub(crate) fn is_empty(&self) -> bool {
        for lane_kid in &self.lane_kids {
            if lane_kid.is_some() {
                return false;
            }
        }
        true
    }

    /// The lanes whose kids are done.
    pub(crate) fn done(&self, alloc: Global) -> Result<Vec<DoneLane>, AllocError> {
        let mut done = Vec::new(alloc);
        for lane in 0..LANES {
            if let Some(lane_kid) = self.lane_kids[lane] {
                let is_open = matches!(state(&self.lanes, lane, self.short_of), LaneState::Open);
                if !is_open || lane_kid.runs >= KID_RUNS {
                    let place = self.places.get(lane_kid.kid).copied().unwrap_or(u32::MAX);
                    let place = InInstance::of(place);
                    done.push(DoneLane { lane, place })?;
                }
            }
        }
        Ok(done)
    }

    /// The next kids take these lanes, or none does.
    pub(crate) fn go_on(&mut self, done: &[DoneLane]) {
        for lane in done {
            self.lanes.begin_lane(lane.lane);
            self.fill(lane.lane);
        }
        self.lanes.make_ready();
    }

    /// Makes a run of all lanes.
    pub(crate) fn run(&mut self, alloc: Global) -> Result<(), AllocError> {
        self.lanes.run(alloc)?;
        for lane_kid in self.lane_kids.iter_mut() {
            if let Some(lane_kid) = lane_kid {
                lane_kid.runs = lane_kid.runs.saturating_add(1);
            }
        }
        Ok(())
    }

    /// The first kid from this one on that the weights don't close as they are.
    fn open_from(&self, kid: usize) -> usize {
        let enough = self.short_of.wrapping_add(ONE);
        for index in kid..self.places.len() {
            let place = self.places.get(index).copied().unwrap_or(u32::MAX);
            if self.kids.plain(InInstance::of(place)) <= enough {
                return index;
            }
        }
        self.places.len()
    }

    /// Tells a lane that has begun of the next kid, if there is one; else it stays empty.
    fn fill(&mut self, lane: usize) {
        let next = self.next;
        let kid = self.open_from(next);
        let mut lane_kid = None;
        if let Some(place) = self.places.get(kid) {
            let earlier = before(self.places, kid);
            self.kids
                .tell(&mut self.lanes, lane, InInstance::of(*place), earlier);
            self.next = kid.saturating_add(1);
            lane_kid = Some(LaneKid { kid, runs: 0 });
        } else {
            self.lanes.clear_lane(lane);
        }
        if lane < LANES {
            self.lane_kids[lane] = lane_kid;
        }
    }
}
