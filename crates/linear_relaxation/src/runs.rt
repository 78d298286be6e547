//! Sums over lists of ascending numbers, run by run: a place lights cells that stand side by side for the most part, so
//! that a list has few runs of numbers that follow each other. The sum of a run is the difference of two of the sums of
//! all that stands before a number (this project's own; such sums are known as prefix sums).

use crate::fixed_point::at;
use number_lists::{NumberLists, small};
use std::alloc::{AllocError, Global};

/// For each list the ends of its runs: the first number of each, and the one behind its last.
pub(crate) fn runs_of(alloc: Global, lists: &NumberLists) -> Result<NumberLists, AllocError> {
    let mut runs = NumberLists::new(alloc);
    for index in 0..lists.count() {
        push_runs(&mut runs, lists.list(index))?;
        runs.end()?;
    }
    Ok(runs)
}

/// Adds the ends of the runs of these numbers to the list that is being written.
fn push_runs(runs: &mut NumberLists, numbers: &[u32]) -> Result<(), AllocError> {
    let mut next = 0;
    for (index, number) in numbers.iter().enumerate() {
        if index == 0 || *number != next {
            if index > 0 {
                runs.push(next)?;
            }
            runs.push(*number)?;
        }
        next = number.wrapping_add(1);
    }
    if !numbers.is_empty() {
        runs.push(next)?;
    }
    Ok(())
}

/// The runs of the lists with these indices, of those numbers alone that have a rank, by their ranks. The numbers of a
/// run have ranks that follow each other, as far as they have any.
pub(crate) fn ranked_runs(
    alloc: Global,
    runs: &NumberLists,
    indices: &[u32],
    ranks: &[u32],
) -> Result<NumberLists, AllocError> {
    let mut found = NumberLists::new(alloc);
    for index in indices {
        let (these, _) = runs.list(*index as usize).as_chunks::<2>();
        let mut first = 0;
        let mut end = 0;
        for run in these {
            let next = rank_at(ranks, run[0]);
            if next != end {
                push_run(&mut found, first, end)?;
                first = next;
            }
            end = rank_at(ranks, run[1]);
        }
        push_run(&mut found, first, end)?;
        found.end()?;
    }
    Ok(found)
}

/// Adds the ends of a run to the list that is being written, where there is anything between them.
fn push_run(runs: &mut NumberLists, first: u32, end: u32) -> Result<(), AllocError> {
    if first < end {
        runs.push(first)?;
        runs.push(end)?;
    }
    Ok(())
}

/// The rank of each number below `count`, and of `count` itself: how many of these members, which ascend, are below it.
pub(crate) fn ranks_of(
    alloc: Global,
    count: usize,
    members: &[u32],
) -> Result<Vec<u32>, AllocError> {
    let mut ranks = Vec::with_capacity(alloc, count.saturating_add(1))?;
    let mut rank = 0;
    for number in 0..count {
        ranks.push(small(rank))?;
        if members.get(rank).copied() == Some(small(number)) {
            rank += 1;
        }
    }
    ranks.push(small(rank))?;
    Ok(ranks)
}

fn rank_at(ranks: &[u32], number: u32) -> u32 {
    ranks.get(number as usize).copied().unwrap_or(0)
}

/// How many numbers the runs have.
pub(crate) fn length_of(ends: &[u32]) -> u32 {
    let mut total: u32 = 0;
    let (runs, _) = ends.as_chunks::<2>();
    for run in runs {
        total = total.wrapping_add(run[1].wrapping_sub(run[0]));
    }
    total
}

/// Writes the sum of all numbers before each, and of all.
pub(crate) fn put_sums(sums: &mut [i64], numbers: &[i64]) {
    let mut total: i64 = 0;
    for index in 0..sums.len() {
        sums[index] = total;
        total = total.wrapping_add(at(numbers, index));
    }
}

/// The sum over the runs of these ends, by the sums before each number.
pub(crate) fn sum_of_runs(sums: &[i64], ends: &[u32]) -> i64 {
    let mut total: i64 = 0;
    let (runs, _) = ends.as_chunks::<2>();
    for run in runs {
        let first = at(sums, run[0] as usize);
        total = total.wrapping_add(at(sums, run[1] as usize).wrapping_sub(first));
    }
    total
}
