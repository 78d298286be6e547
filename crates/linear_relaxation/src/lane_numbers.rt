//! Numbers of which each has a lane for each of some relaxations, and how they are made of numbers in fixed point.

use crate::lane_side::{lane_at, lanes_at};
use std::alloc::{AllocError, Global};
use std::num::{nearest_i64_to_f32, saturating_f32_to_i64};
use std::simd::prelude::*;

/// One in fixed point.
pub(crate) const SCALE: f32 = 1048576.0;

/// Sets what numbers meet in the lanes that are without them.
pub(crate) fn set_absent(met: &mut [f32x8], steps: &[f32x8], value: f32) {
    let none = f32x8::splat(0.0);
    for index in 0..met.len() {
        let has_it = lanes_at(steps, index).simd_gt(none);
        met[index] = has_it.select(met[index], f32x8::splat(value));
    }
}

/// The greatest of the numbers at these indices, and no less than 0.
pub(crate) fn most_of(numbers: &[f32x8], indices: &[u32]) -> f32x8 {
    let mut most = f32x8::splat(0.0);
    for index in indices {
        most = most.simd_max(lanes_at(numbers, *index as usize));
    }
    most
}

/// The sum of all.
pub(crate) fn sum_of(numbers: &[f32x8]) -> f32x8 {
    let mut total = f32x8::splat(0.0);
    for number in numbers {
        total = total + *number;
    }
    total
}

/// Adds an amount to the numbers at these indices.
pub(crate) fn add_lanes(numbers: &mut [f32x8], indices: &[u32], amount: f32x8) {
    for index in indices {
        let index = *index as usize;
        if index < numbers.len() {
            numbers[index] = numbers[index] + amount;
        }
    }
}

/// A lane of each number, in fixed point.
pub(crate) fn lane_numbers(
    alloc: Global,
    numbers: &[f32x8],
    lane: usize,
) -> Result<Vec<i64>, AllocError> {
    let mut found = Vec::with_capacity(alloc, numbers.len())?;
    for index in 0..numbers.len() {
        found.push(fixed(lane_at(numbers, lane, index)))?;
    }
    Ok(found)
}

/// Sets the first number.
pub(crate) fn put_first(numbers: &mut [f32x8], value: f32x8) {
    if !numbers.is_empty() {
        numbers[0] = value;
    }
}

/// The number in fixed point.
pub(crate) fn fixed(number: f32) -> i64 {
    saturating_f32_to_i64(number * SCALE)
}

/// The numbers as floating point.
pub(crate) fn floats(alloc: Global, numbers: &[i64]) -> Result<Vec<f32>, AllocError> {
    let mut found = Vec::with_capacity(alloc, numbers.len())?;
    for number in numbers {
        found.push(nearest_i64_to_f32(*number) / SCALE)?;
    }
    Ok(found)
}
