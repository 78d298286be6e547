//! One side of relaxations that are solved side by side, as `side` has that of one: each number has a lane for each of
//! them. A number that a lane is without stays 0 there.

use crate::run_lists::RunLists;
use crate::side::Lack;
use number_lists::NumberLists;
use std::alloc::{AllocError, Global};
use std::num::nearest_usize_to_f32;
use std::simd::prelude::*;

/// The numbers of a side, a lane for each relaxation.
#[derive(Drop)]
pub(crate) struct LaneSide {
    /// The runs of what each number meets, and the sums of the other side that these are read by.
    runs: RunLists,
    sums: Vec<f32x8>,
    /// How many numbers each meets in each lane; no end of them where the lane is without it.
    counts: Vec<f32x8>,
    /// One over that.
    steps: Vec<f32x8>,
    numbers: Vec<f32x8>,
    ahead: Vec<f32x8>,
    first: Vec<f32x8>,
}

impl LaneSide {
    /// The side of numbers of which each meets those of its list, out of `others` numbers on the other side.
    pub(crate) fn new(
        alloc: Global,
        meets: &NumberLists,
        others: usize,
    ) -> Result<LaneSide, AllocError> {
        LaneSide::of(alloc, RunLists::of(alloc, meets)?, others)
    }

    /// The side of numbers of which each meets those of its runs.
    fn of(alloc: Global, runs: RunLists, others: usize) -> Result<LaneSide, AllocError> {
        let none = f32x8::splat(0.0);
        let count = runs.runs().count();
        Ok(LaneSide {
            runs,
            sums: vec![in alloc; none; others.saturating_add(1)]?,
            counts: vec![in alloc; none; count]?,
            steps: vec![in alloc; none; count]?,
            numbers: vec![in alloc; none; count]?,
            ahead: vec![in alloc; none; count]?,
            first: vec![in alloc; none; count]?,
        })
    }

    /// The side of the numbers with these indices, each of which meets those alone of the other side that have a rank.
    /// Lanes have these as told here.
    pub(crate) fn part(
        &self,
        alloc: Global,
        indices: &[u32],
        ranks: &[u32],
        others: &[f32x8],
    ) -> Result<LaneSide, AllocError> {
        let none = f32x8::splat(0.0);
        let runs = self.runs.ranked(alloc, indices, ranks)?;
        let mut part = LaneSide::of(alloc, runs, others.len())?;
        put_sums(part.sums.as_mut_slice(), others);
        let numbers = part.numbers.as_mut_slice();
        let counts = part.counts.as_mut_slice();
        for (number, index) in indices.iter().enumerate() {
            let index = *index as usize;
            if number < numbers.len() && number < counts.len() {
                let count = sum_of_runs(part.sums.as_slice(), part.runs.runs().list(number));
                let has_it = lanes_at(self.steps.as_slice(), index).simd_gt(none);
                numbers[number] = lanes_at(self.numbers.as_slice(), index);
                counts[number] = has_it.select(count, f32x8::splat(f32::INFINITY));
            }
        }
        part.make_ready();
        Ok(part)
    }

    /// Which lanes have the numbers at these indices: 1 where one has it, 0 where it doesn't.
    pub(crate) fn presence(
        &self,
        alloc: Global,
        indices: &[u32],
    ) -> Result<Vec<f32x8>, AllocError> {
        let none = f32x8::splat(0.0);
        let mut found = Vec::with_capacity(alloc, indices.len())?;
        for index in indices {
            let has_it = lanes_at(self.steps.as_slice(), *index as usize).simd_gt(none);
            found.push(has_it.select(f32x8::splat(1.0), none))?;
        }
        Ok(found)
    }

    /// Sets the numbers at these indices.
    pub(crate) fn put_at(&mut self, indices: &[u32], numbers: &[f32x8]) {
        let own = self.numbers.as_mut_slice();
        for (number, index) in indices.iter().enumerate() {
            let index = *index as usize;
            if index < own.len() {
                own[index] = lanes_at(numbers, number);
            }
        }
    }

    /// Begins with these numbers in all lanes, each of which meets those of its list.
    pub(crate) fn begin(&mut self, numbers: &[f32], meets: &NumberLists) {
        let own = self.numbers.as_mut_slice();
        let counts = self.counts.as_mut_slice();
        for index in 0..own.len() {
            own[index] = f32x8::splat(numbers.get(index).copied().unwrap_or(0.0));
            if index < counts.len() {
                counts[index] = f32x8::splat(nearest_usize_to_f32(meets.list(index).len()));
            }
        }
    }

    /// A lane begins anew with these numbers, each of which meets those of its list.
    pub(crate) fn begin_lane(&mut self, lane: usize, numbers: &[f32], meets: &NumberLists) {
        let own = self.numbers.as_mut_slice();
        let counts = self.counts.as_mut_slice();
        for index in 0..own.len() {
            let number = numbers.get(index).copied().unwrap_or(0.0);
            put_lane(own, lane, index, number);
            put_lane(
                counts,
                lane,
                index,
                nearest_usize_to_f32(meets.list(index).len()),
            );
        }
    }

    /// A lane is without any of the numbers.
    pub(crate) fn clear_lane(&mut self, lane: usize) {
        for index in 0..self.numbers.len() {
            self.leave_out(lane, index);
        }
    }

    /// A lane is without this number.
    pub(crate) fn leave_out(&mut self, lane: usize, index: usize) {
        put_lane(self.numbers.as_mut_slice(), lane, index, 0.0);
        put_lane(self.counts.as_mut_slice(), lane, index, f32::INFINITY);
    }

    /// In a lane each of these numbers meets one less.
    pub(crate) fn meet_less(&mut self, lane: usize, indices: &[u32]) {
        let counts = self.counts.as_mut_slice();
        for index in indices {
            let index = *index as usize;
            let count = lane_at(counts, lane, index);
            put_lane(counts, lane, index, count - 1.0);
        }
    }

    /// All is told of the lanes: steps may be made.
    pub(crate) fn make_ready(&mut self) {
        let one = f32x8::splat(1.0);
        let steps = self.steps.as_mut_slice();
        for index in 0..steps.len() {
            steps[index] = one / lanes_at(self.counts.as_slice(), index).simd_max(one);
        }
    }

    /// The numbers as they are.
    pub(crate) fn numbers(&self) -> &[f32x8] {
        self.numbers.as_slice()
    }

    /// The numbers where the last step is gone twice as far.
    pub(crate) fn ahead(&self) -> &[f32x8] {
        self.ahead.as_slice()
    }

    /// One over how many numbers each meets; 0 where the lane is without it.
    pub(crate) fn steps(&self) -> &[f32x8] {
        self.steps.as_slice()
    }

    /// A run begins here.
    pub(crate) fn begin_run(&mut self) {
        let first = self.first.as_mut_slice();
        for index in 0..first.len() {
            first[index] = lanes_at(self.numbers.as_slice(), index);
        }
    }

    /// Moves each number by what it lacks of these of the other side; then twice as far, and this part of the way back
    /// to where the run began. In the last step of a run there is no part.
    #[inline(always)]
    pub(crate) fn step(&mut self, others: &[f32x8], lack: Lack, back: Option<f32>) {
        put_sums(self.sums.as_mut_slice(), others);
        let none = f32x8::splat(0.0);
        let one = f32x8::splat(1.0);
        let part = f32x8::splat(back.unwrap_or(0.0));
        let numbers = self.numbers.as_mut_slice();
        let ahead = self.ahead.as_mut_slice();
        let mut ends = self.runs.ends();
        for length in 0..self.runs.by_length().count() {
            for list in self.runs.by_length().list(length) {
                let (these, later) = ends.split_at(length.min(ends.len()));
                ends = later;
                let index = *list as usize;
                if index < numbers.len() {
                    let met = sum_of_runs(self.sums.as_slice(), these);
                    let lacks = (one - met) * lanes_at(self.steps.as_slice(), index);
                    let before = numbers[index];
                    let next = match lack {
                        Lack::Lowers => (before - lacks).simd_max(none),
                        Lack::Raises => (before + lacks).simd_max(none),
                    };
                    let farther = next + (next - before);
                    if index < ahead.len() {
                        ahead[index] = farther;
                    }
                    numbers[index] = match back {
                        Some(_) => farther
                            + (lanes_at(self.first.as_slice(), index) - farther) * part,
                        None => next,
                    };
                }
            }
        }
    }

    /// Writes what each number meets of these of the other side.
    pub(crate) fn write_met(&mut self, others: &[f32x8], met: &mut [f32x8]) {
        put_sums(self.sums.as_mut_slice(), others);
        for index in 0..met.len() {
            met[index] = sum_of_runs(self.sums.as_slice(), self.runs.runs().list(index));
        }
    }

    /// The least that a number meets of these of the other side, of those that the lane has.
    pub(crate) fn least_met(&mut self, others: &[f32x8]) -> f32x8 {
        put_sums(self.sums.as_mut_slice(), others);
        let none = f32x8::splat(0.0);
        let most = f32x8::splat(f32::INFINITY);
        let mut least = most;
        for index in 0..self.numbers.len() {
            let met = sum_of_runs(self.sums.as_slice(), self.runs.runs().list(index));
            let has_it = lanes_at(self.steps.as_slice(), index).simd_gt(none);
            least = least.simd_min(has_it.select(met, most));
        }
        least
    }
}

/// The lanes of a number, 0 where there is none.
pub(crate) fn lanes_at(numbers: &[f32x8], index: usize) -> f32x8 {
    match numbers.get(index) {
        Some(number) => *number,
        None => f32x8::splat(0.0),
    }
}

/// A lane of a number, 0 where there is none.
pub(crate) fn lane_at(numbers: &[f32x8], lane: usize, index: usize) -> f32 {
    let lanes = lanes_at(numbers, index).to_array();
    lanes.get(lane).copied().unwrap_or(0.0)
}

/// Sets a lane of a number.
pub(crate) fn put_lane(numbers: &mut [f32x8], lane: usize, index: usize, value: f32) {
    if index < numbers.len() {
        let mut lanes = numbers[index].to_array();
        if lane < lanes.len() {
            lanes[lane] = value;
        }
        numbers[index] = f32x8::from_array(lanes);
    }
}

/// Writes the sum of all numbers before each, and of all.
fn put_sums(sums: &mut [f32x8], numbers: &[f32x8]) {
    let mut total = f32x8::splat(0.0);
    for index in 0..sums.len() {
        sums[index] = total;
        total = total + lanes_at(numbers, index);
    }
}

/// The sum over the runs of these ends, by the sums before each number.
fn sum_of_runs(sums: &[f32x8], ends: &[u32]) -> f32x8 {
    let mut total = f32x8::splat(0.0);
    let (runs, _) = ends.as_chunks::<2>();
    for run in runs {
        total = total + (lanes_at(sums, run[1] as usize) - lanes_at(sums, run[0] as usize));
    }
    total
}
