//! What lanes find of the kids of a node as it is branched on: leaves of those that they close, and where the
//! relaxations of the others begin.

use crate::kid_leaf::KidLeaf;
use crate::kid_start::KidStart;
use crate::lane_runs::{LaneState, state};
use instance_reduction::{InInstance, RowsLeft};
use linear_relaxation::{Lanes, ONE, places_for};
use number_lists::is_set;
use std::alloc::{AllocError, Global};

/// A kid: the place that it takes, or bars, and the part that was looked at for it, by its number.
#[derive(Clone, Copy)]
pub(crate) struct Kid {
    pub place: InInstance,
    pub is_taken: bool,
    pub part: usize,
}

impl Kid {
    /// Whether it is the kid that takes this place, or one where its place isn't open.
    pub(crate) fn is_of(self, place: InInstance, open: &[u64]) -> bool {
        if self.is_taken {
            return self.place.number() == place.number();
        }
        !is_set(open, self.place.index())
    }
}

/// What the node leaves, and the cells and places of the lanes by the instance's numbers.
#[derive(Clone, Copy)]
pub(crate) struct LaneNames<'a> {
    pub left: RowsLeft<'a>,
    pub cells: &'a [u32],
    pub places: &'a [u32],
}

/// What was found of kids.
#[derive(Drop)]
pub(crate) struct FoundKids {
    pub starts: Vec<KidStart>,
    pub leaves: Vec<KidLeaf>,
}

impl FoundKids {
    /// Nothing yet.
    pub(crate) fn none(alloc: Global) -> FoundKids {
        FoundKids {
            starts: Vec::new(alloc),
            leaves: Vec::new(alloc),
        }
    }

    /// Adds what a lane found of a kid, whose part has to show more than this.
    pub(crate) fn add(
        &mut self,
        alloc: Global,
        kid: Kid,
        names: LaneNames<'_>,
        lanes: &Lanes,
        lane: usize,
        short_of: i64,
    ) -> Result<(), AllocError> {
        if matches!(state(lanes, lane, short_of), LaneState::Closed) {
            let shown = places_for(short_of.wrapping_add(ONE));
            if let Some(leaf) = KidLeaf::of(alloc, kid, names, lanes, lane, shown)? {
                self.leaves.push(leaf)?;
                return Ok(());
            }
        }
        self.starts
            .push(KidStart::of(alloc, kid, names, lanes, lane)?)?;
        Ok(())
    }
}
