//! The kids of a branch: their relaxations are run side by side, each less the places of the kids before it, until all
//! is known of them. A place that may come back as these are barred is one of the lanes'.

use crate::branching::Shortfall;
use crate::found_kids::{FoundKids, Kid, LaneNames};
use crate::kid_bounds::KidBounds;
use crate::kid_lanes::KidLanes;
use crate::parts::Part;
use linear_relaxation::{InPart, ONE};
use number_lists::clear_bit;
use std::alloc::{AllocError, Global};

impl<'a> Shortfall<'a> {
    /// What runs of the relaxations of a cell's kids find of them.
    pub(crate) fn kids_of(
        self,
        alloc: Global,
        number: usize,
        part: &'a Part,
        cell: InPart,
    ) -> Result<FoundKids, AllocError> {
        let mut kids = KidBounds::new(alloc, self.site, self.left, part)?;
        let places = kids.kids(alloc, cell)?;
        let more = self.returning(alloc, &places)?;
        let lanes = kids.lanes(alloc, &more)?;
        let all_places = self.places_with(alloc, part, &more)?;
        let names = LaneNames {
            left: self.left,
            cells: &part.cells,
            places: &all_places,
        };
        let short_of = self.short_of(part).wrapping_sub(ONE);
        let mut found = FoundKids::none(alloc);
        let mut lanes = KidLanes::new(&kids, &places, short_of, lanes);
        for _ in 0..u64::MAX {
            let done = lanes.done(alloc)?;
            for lane in &done {
                let kid = Kid {
                    place: lane.place,
                    is_taken: true,
                    part: number,
                };
                found.add(alloc, kid, names, lanes.lanes(), lane.lane, short_of)?;
            }
            if !done.is_empty() {
                lanes.go_on(&done);
            } else if lanes.is_empty() {
                break;
            } else {
                lanes.run(alloc)?;
            }
        }
        Ok(found)
    }

    /// The places of a part, and more behind them.
    pub(crate) fn places_with(
        self,
        alloc: Global,
        part: &Part,
        more: &[u32],
    ) -> Result<Vec<u32>, AllocError> {
        let mut places = Vec::from_slice(alloc, part.places.as_slice())?;
        places.extend_from_slice(more)?;
        Ok(places)
    }

    /// The places that may come back where these aren't open.
    pub(crate) fn returning(self, alloc: Global, places: &[u32]) -> Result<Vec<u32>, AllocError> {
        let mut open = Vec::from_slice(alloc, self.left.places)?;
        for place in places {
            clear_bit(open.as_mut_slice(), *place as usize);
        }
        self.reduced.may_return(alloc, self.left, &open)
    }
}
