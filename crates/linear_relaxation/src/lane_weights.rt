//! Whole weights of a lane.

use crate::fixed_point::sum;
use crate::lane_side::{LaneSide, lane_at};
use crate::lanes::Lanes;
use crate::rounding::places_for;
use crate::unrounded::{BARRED, Unrounded};
use crate::whole_weights::WholeWeights;
use std::alloc::{AllocError, Global};

/// By which part the weights of a lane are less, 1 by 2 to the power of this: numbers of a lane are roughly right, and
/// in fixed point no place may light more than one.
const LESS: u32 = 17;

impl Lanes {
    /// Whole weights, on few cells, which show that `needed` places are needed in the lane, if its best weights do.
    pub fn whole_weights(
        &self,
        alloc: Global,
        lane: usize,
        needed: u64,
    ) -> Result<Option<WholeWeights<'_>>, AllocError> {
        let mut weights = self.best(alloc, lane)?;
        for weight in weights.iter_mut() {
            *weight = weight.wrapping_sub(*weight >> LESS);
        }
        if places_for(sum(&weights)) < needed {
            return Ok(None);
        }
        let are_left = presence_in(alloc, &self.weights, lane)?;
        let are_open = presence_in(alloc, &self.taken, lane)?;
        let mut loads = Vec::with_capacity(alloc, are_open.len())?;
        for is_open in &are_open {
            loads.push(if *is_open { 0 } else { BARRED })?;
        }
        let unrounded = Unrounded {
            weights: &weights,
            are_left: &are_left,
            loads: &loads,
        };
        Ok(Some(unrounded.whole(alloc, &self.coverage, needed)?))
    }
}

/// Which numbers of a side the lane has.
fn presence_in(alloc: Global, side: &LaneSide, lane: usize) -> Result<Vec<bool>, AllocError> {
    let mut found = Vec::with_capacity(alloc, side.steps().len())?;
    for index in 0..side.steps().len() {
        found.push(lane_at(side.steps(), lane, index) > 0.0)?;
    }
    Ok(found)
}
