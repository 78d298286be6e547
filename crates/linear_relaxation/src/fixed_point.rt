//! Numbers in fixed point, and lists of them. Sums wrap: nothing rests on them.

use number_lists::NumberLists;
use std::alloc::{AllocError, Global};

/// How many bits stand behind the point.
pub const BITS: u32 = 20;

/// One.
pub const ONE: i64 = 1 << 20;

/// The number with this index, or 0 where there is none.
pub fn at(numbers: &[i64], index: usize) -> i64 {
    numbers.get(index).copied().unwrap_or(0)
}

/// The amount times the part with this index.
pub(crate) fn part_of(amount: i64, parts: &[i64], index: usize) -> i64 {
    amount.wrapping_mul(at(parts, index)) >> BITS
}

/// One number by another, neither of them negative; 0 where the other is 0.
pub(crate) fn ratio(amount: i64, by: i64) -> i64 {
    let amount = amount.max(0).unsigned_abs();
    let by = by.max(0).unsigned_abs();
    if by == 0 {
        return 0;
    }
    let found = (amount << BITS) / by;
    signed(found)
}

/// The number `count`, which is whole.
pub fn ones(count: u64) -> i64 {
    signed(count).saturating_mul(ONE)
}

/// The number, or the greatest that there is.
fn signed(number: u64) -> i64 {
    match i64::try_from(number) {
        Ok(number) => number,
        Err(_) => i64::MAX,
    }
}

/// The sum of the numbers at these indices.
pub(crate) fn sum_at(numbers: &[i64], indices: &[u32]) -> i64 {
    let mut sum: i64 = 0;
    for index in indices {
        sum = sum.wrapping_add(at(numbers, *index as usize));
    }
    sum
}

/// The greatest of the numbers at these indices.
pub fn most_at(numbers: &[i64], indices: &[u32]) -> i64 {
    let mut most: i64 = 0;
    for index in indices {
        most = most.max(at(numbers, *index as usize));
    }
    most
}

/// Adds an amount to the numbers at these indices.
pub fn add_at(numbers: &mut [i64], indices: &[u32], amount: i64) {
    for index in indices {
        let index = *index as usize;
        if index < numbers.len() {
            numbers[index] = numbers[index].wrapping_add(amount);
        }
    }
}

/// Writes for each index the sum of the numbers in whose lists it is.
pub(crate) fn put_loads(loads: &mut [i64], lists: &NumberLists, numbers: &[i64]) {
    for load in loads.iter_mut() {
        *load = 0;
    }
    for (index, number) in numbers.iter().enumerate() {
        if *number != 0 {
            add_at(loads, lists.list(index), *number);
        }
    }
}

/// The sum of all.
pub(crate) fn sum(numbers: &[i64]) -> i64 {
    let mut sum: i64 = 0;
    for number in numbers {
        sum = sum.wrapping_add(*number);
    }
    sum
}

/// The numbers at these indices, 0 where there is none.
pub fn numbers_at(alloc: Global, numbers: &[i64], indices: &[u32]) -> Result<Vec<i64>, AllocError> {
    let mut found = Vec::with_capacity(alloc, indices.len())?;
    for index in indices {
        found.push(at(numbers, *index as usize))?;
    }
    Ok(found)
}

/// Sets the numbers to the others.
pub(crate) fn copy_all(numbers: &mut [i64], others: &[i64]) {
    for index in 0..numbers.len() {
        numbers[index] = at(others, index);
    }
}

/// Sets the numbers to what lies this part of the way from those ahead to the first ones.
pub(crate) fn draw_back(numbers: &mut [i64], ahead: &[i64], first: &[i64], part: i64) {
    for index in 0..numbers.len() {
        let from = at(ahead, index);
        let way = at(first, index).wrapping_sub(from);
        numbers[index] = from.wrapping_add(way.wrapping_mul(part) >> BITS);
    }
}

/// One by a number.
pub(crate) fn one_of(by: u32) -> i64 {
    signed(ONE.unsigned_abs() / u64::from(by.max(1)))
}
