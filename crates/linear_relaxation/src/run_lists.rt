//! Lists of numbers by the ends of their runs, those with the fewest ends first. Lists with as many ends stand one
//! after another, so that a processor foresees where each of them ends: for short lists that takes less than half the
//! time.

use crate::runs::{ranked_runs, runs_of, sum_of_runs};
use number_lists::{NumberLists, small};
use std::alloc::{AllocError, Global};

/// The ends of the runs of lists.
#[derive(Drop)]
pub(crate) struct RunLists {
    /// By the lists' own indices.
    runs: NumberLists,
    /// For each number of ends the lists that have as many.
    by_length: NumberLists,
    /// The ends of all lists, in that order.
    ends: Vec<u32>,
}

impl RunLists {
    /// The runs of these lists.
    pub(crate) fn of(alloc: Global, lists: &NumberLists) -> Result<RunLists, AllocError> {
        RunLists::of_runs(alloc, runs_of(alloc, lists)?)
    }

    /// Those of these runs.
    fn of_runs(alloc: Global, runs: NumberLists) -> Result<RunLists, AllocError> {
        let by_length = by_length(alloc, &runs)?;
        let mut ends = Vec::new(alloc);
        for length in 0..by_length.count() {
            for list in by_length.list(length) {
                ends.extend_from_slice(runs.list(*list as usize))?;
            }
        }
        Ok(RunLists {
            runs,
            by_length,
            ends,
        })
    }

    /// The lists with these indices, of those numbers alone that have a rank, by their ranks.
    pub(crate) fn ranked(
        &self,
        alloc: Global,
        indices: &[u32],
        ranks: &[u32],
    ) -> Result<RunLists, AllocError> {
        RunLists::of_runs(alloc, ranked_runs(alloc, &self.runs, indices, ranks)?)
    }

    /// The lists by their own indices.
    pub(crate) fn runs(&self) -> &NumberLists {
        &self.runs
    }

    /// For each number of ends the lists that have as many.
    pub(crate) fn by_length(&self) -> &NumberLists {
        &self.by_length
    }

    /// The ends of all lists, in that order.
    pub(crate) fn ends(&self) -> &[u32] {
        self.ends.as_slice()
    }

    /// Writes for each list the sum over its runs, by the sums of all that stands before each number.
    pub(crate) fn write_sums(&self, sums: &[i64], found: &mut [i64]) {
        let mut ends = self.ends.as_slice();
        for length in 0..self.by_length.count() {
            for list in self.by_length.list(length) {
                let (these, later) = ends.split_at(length.min(ends.len()));
                ends = later;
                let list = *list as usize;
                if list < found.len() {
                    found[list] = sum_of_runs(sums, these);
                }
            }
        }
    }
}

/// For each length the lists of that length.
fn by_length(alloc: Global, lists: &NumberLists) -> Result<NumberLists, AllocError> {
    let mut most = 0;
    let mut lengths = NumberLists::new(alloc);
    for index in 0..lists.count() {
        let length = lists.list(index).len();
        most = most.max(length);
        lengths.push(small(length))?;
        lengths.end()?;
    }
    lengths.turned(alloc, most.saturating_add(1))
}
