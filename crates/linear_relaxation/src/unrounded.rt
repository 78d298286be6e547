//! Weights made whole: weights times a capacity, rounded down; then raised, cell by cell, where each place of the cell
//! has room, those first of which rounding left out most. The least of some capacities is taken with which enough is
//! shown: small weights make a certificate short (this project's own).

use crate::fixed_point::{BITS, at, ones, sum};
use crate::in_part::InPart;
use crate::relaxation::Relaxation;
use crate::rounding::{left_out, whole};
use crate::whole_weights::WholeWeights;
use number_lists::Coverage;
use std::alloc::{AllocError, Global};

/// The capacities that are tried, in their order, and one that leaves the weights as they are.
const CAPACITIES: [u32; 27] = [
    1, 2, 3, 4, 5, 6, 7, 8, 9, 10, 12, 14, 16, 20, 24, 30, 36, 48, 60, 90, 120, 180, 360, 720,
    1440, 4096, 65536,
];

const LAST_CAPACITY: u32 = 1 << BITS;

/// What weights have to weigh beyond, times a capacity, that it is tried: nearly one, since rounding may gain a little.
const NEARLY: u64 = (1 << BITS) / 16 * 15;

/// Of what rounding leaves out raising weights seldom makes up for all: one part of these is left.
const NOT_MADE_UP: u64 = 96;

/// What a place that is barred is said to light, so that it binds no weight.
pub(crate) const BARRED: i64 = -(1 << 50);

/// Weights of an instance's cells of which no place that isn't barred lights more than one, which cells are left,
/// and what each place is said to light at first: nothing, or `BARRED`. Cells that aren't left weigh nothing.
#[derive(Clone, Copy)]
pub(crate) struct Unrounded<'a> {
    pub weights: &'a [i64],
    pub are_left: &'a [bool],
    pub loads: &'a [i64],
}

impl Relaxation {
    /// Whole weights, on few cells, which show that `needed` places are needed. They are made of weights that show it
    /// too, and of which no place lights more than one. Cells that aren't left weigh nothing.
    pub fn whole_weights(
        &self,
        alloc: Global,
        weights: &[i64],
        are_left: &[bool],
        needed: u64,
    ) -> Result<WholeWeights<'_>, AllocError> {
        let loads = vec![in alloc; 0i64; self.coverage.place_count()]?;
        let unrounded = Unrounded {
            weights,
            are_left,
            loads: &loads,
        };
        unrounded.whole(alloc, &self.coverage, needed)
    }
}

impl Unrounded<'_> {
    /// Whole weights, on few cells, which show that `needed` places are needed where these weights do.
    pub(crate) fn whole<'a>(
        self,
        alloc: Global,
        coverage: &'a Coverage,
        needed: u64,
    ) -> Result<WholeWeights<'a>, AllocError> {
        let fewer = needed.saturating_sub(1);
        let beyond = sum(self.weights).wrapping_sub(ones(fewer));
        let beyond = beyond.max(0).unsigned_abs();
        for capacity in CAPACITIES {
            let times = u64::from(capacity);
            let least = fewer.saturating_mul(times).saturating_add(1);
            if beyond.saturating_mul(times) >= NEARLY && self.may_reach(capacity, least) {
                let mut found = self.rounded(alloc, coverage, capacity)?;
                if found.total() >= least {
                    found.leave_out_cells(alloc, least)?;
                    return Ok(found);
                }
            }
        }
        self.rounded(alloc, coverage, LAST_CAPACITY)
    }

    /// Whether weights rounded at a capacity are likely to weigh `least` once they are raised.
    fn may_reach(self, capacity: u32, least: u64) -> bool {
        let mut rounded: u64 = 0;
        let mut lost: u64 = 0;
        for weight in self.weights {
            rounded = rounded.saturating_add(u64::from(whole(*weight, capacity)));
            lost = lost.saturating_add(left_out(*weight, capacity));
        }
        let lost = lost.div_ceil(1 << BITS);
        let lacks = least.saturating_sub(rounded);
        lacks <= lost.saturating_sub(lost / NOT_MADE_UP)
    }

    /// The whole weights at a capacity.
    fn rounded<'a>(
        self,
        alloc: Global,
        coverage: &'a Coverage,
        capacity: u32,
    ) -> Result<WholeWeights<'a>, AllocError> {
        let count = self.weights.len();
        let mut found = WholeWeights::none(alloc, coverage, count, self.loads, capacity)?;
        let mut cells = Vec::with_capacity(alloc, count)?;
        for index in 0..count {
            let cell = InPart::at(index);
            let weight = at(self.weights, index);
            if self.are_left.get(index).copied().unwrap_or(false) {
                found.begin_with(cell, whole(weight, capacity));
                cells.push((u64::MAX - left_out(weight, capacity), cell.number()))?;
            } else {
                found.keep_out(cell);
            }
        }
        found.load_all();
        cells.sort_unstable();
        for most in [1, u32::MAX] {
            for (_, cell) in &cells {
                let cell = InPart::of(*cell);
                let more = found.room(cell).min(most);
                found.add(cell, more)?;
            }
        }
        Ok(found)
    }
}
