//! Where the bound of a relaxation ends, as far as it can be told while steps are made. The weights as they are, of
//! which places may light more than one, mostly weigh more than that. They come down to it sooner than the bound rises
//! to it (this project's own).

use crate::fixed_point::ONE;

/// By how much less a cover rules weights out, roughly: steps hardly get a bound nearer to it than this.
const ROUGHLY: i64 = ONE / 256;

/// Weights of a relaxation, and what is taken of its places.
#[derive(Clone, Copy)]
pub(crate) struct Approach {
    /// What the best weights weigh of which no place lights more than one.
    pub bound: i64,
    /// The least that was taken in all where each cell was lit.
    pub cover: i64,
    /// What the weights weighed as they were after the last run, and after the one before it.
    pub last: i64,
    pub before: i64,
}

impl Approach {
    /// What the bound is above by hardly anything in the end, if at all.
    pub(crate) fn most(self) -> i64 {
        self.cover.wrapping_sub(ROUGHLY)
    }

    /// What the bound isn't likely to be above in the end, or by hardly anything: by the first steps it is nearer to
    /// that than the cover.
    pub(crate) fn likely(self) -> i64 {
        let between = self.cover.wrapping_sub(self.bound);
        let by_cover = self.bound.wrapping_add((between >> 3).wrapping_mul(3));
        let by_weights = self.last.max(self.before).max(self.bound);
        by_cover.min(by_weights).wrapping_sub(ROUGHLY)
    }

    /// About what the bound ends at.
    pub(crate) fn estimate(self) -> i64 {
        let between = self.last.min(self.cover).wrapping_sub(self.bound).max(0);
        self.bound.wrapping_add((between >> 3).wrapping_mul(5))
    }
}
