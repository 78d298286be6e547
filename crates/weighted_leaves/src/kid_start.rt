//! Where the relaxation of a kid begins that lanes looked at and didn't close, as its node was branched on.

use crate::found_kids::{Kid, LaneNames};
use crate::parts::Part;
use linear_relaxation::{Lanes, at};
use std::alloc::{AllocError, Global};

/// A kid, and its weights and parts of places taken by the lanes' numbers.
#[derive(Drop)]
pub(crate) struct KidStart {
    pub kid: Kid,
    weights: Vec<i64>,
    taken: Vec<i64>,
    /// The places of the lanes by the instance's numbers.
    places: Vec<u32>,
}

impl KidStart {
    /// What a lane found of a kid.
    pub(crate) fn of(
        alloc: Global,
        kid: Kid,
        names: LaneNames<'_>,
        lanes: &Lanes,
        lane: usize,
    ) -> Result<KidStart, AllocError> {
        Ok(KidStart {
            kid,
            weights: lanes.weights(alloc, lane)?,
            taken: lanes.taken(alloc, lane)?,
            places: Vec::from_slice(alloc, names.places)?,
        })
    }

    /// Writes the weights, and how much of each place is taken, by the instance's numbers.
    pub(crate) fn write(&self, parts: &[Part], weights: &mut [i64], taken: &mut [i64]) {
        if let Some(part) = parts.get(self.kid.part) {
            for (number, cell) in part.cells.iter().enumerate() {
                let cell = *cell as usize;
                if cell < weights.len() {
                    weights[cell] = at(self.weights.as_slice(), number);
                }
            }
        }
        for (number, place) in self.places.iter().enumerate() {
            let place = *place as usize;
            if place < taken.len() {
                taken[place] = at(self.taken.as_slice(), number);
            }
        }
    }
}
