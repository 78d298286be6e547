//! The leaf of a kid that lanes closed as its node was branched on. It is made there, where the lanes' lists are at
//! hand: at the kid's own node they would have to be made anew.

use crate::found_kids::{Kid, LaneNames};
use crate::grouping::{push_shares, shares_of};
use linear_relaxation::Lanes;
use proof_rules::{Group, Share};
use std::alloc::{AllocError, Global};

/// A kid, and the group of the part that was looked at for it.
#[derive(Drop)]
pub(crate) struct KidLeaf {
    pub kid: Kid,
    /// How many places the group shows to be needed.
    pub shown: u64,
    capacity: u32,
    shares: Vec<Share>,
}

impl KidLeaf {
    /// The leaf of a lane that shows that `shown` places are needed, if its best weights can be made whole.
    pub(crate) fn of(
        alloc: Global,
        kid: Kid,
        names: LaneNames<'_>,
        lanes: &Lanes,
        lane: usize,
        shown: u64,
    ) -> Result<Option<KidLeaf>, AllocError> {
        let Some(whole) = lanes.whole_weights(alloc, lane, shown)? else {
            return Ok(None);
        };
        Ok(Some(KidLeaf {
            kid,
            shown,
            capacity: whole.capacity(),
            shares: shares_of(alloc, names.left, names.cells, &whole)?,
        }))
    }

    /// Adds the group.
    pub(crate) fn push(&self, alloc: Global, groups: &mut Vec<Group>) -> Result<(), AllocError> {
        let shares = Vec::from_slice(alloc, self.shares.as_slice())?;
        push_shares(groups, self.capacity, shares)
    }
}
