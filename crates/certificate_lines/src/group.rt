//! The numbers of a group's line: `IsGroupFrom` of specs/Shares.antt.
ghost use Rattle.std.specs.Prelude.{◌↔◌, IsTrue, MatchOption};
ghost use Rattle.certificate_lines.specs.Shares.{AreSharesIn, IsGroupFrom, IsNoGroup};

use crate::shape::first_two;

/// The first cell of a group whose numbers these are, with cells of a box of `count` cells that are at least `from`.
pub fn first_of_group(count: u32, from: u32, numbers: &[u32]) -> Option<u32>
    ensures { MatchOption result (IsNoGroup count from numbers.now) (IsGroupFrom count from numbers.now) }
{
    let Some((capacity, many, shares)) = first_two(numbers) else {
        return None;
    };
    if capacity == 0 {
        return None;
    }
    if many == 0 {
        return None;
    }
    if shares.len() / 2 != many as usize {
        return None;
    }
    if !are_shares(count, from, shares) {
        return None;
    }
    Some(shares[0])
}

/// Whether they are cells that ascend from this one on and are below a count, each with a weight of at least 1.
fn are_shares(count: u32, from: u32, numbers: &[u32]) -> bool
    ensures { IsTrue result ↔ AreSharesIn count from numbers.now }
{
    let mut least = from;
    let mut rest = numbers;
    while let Some((cell, weight, more)) = first_two(rest) {
        if cell < least || cell >= count || weight == 0 {
            return false;
        }
        least = cell + 1;
        rest = more;
    }
    rest.is_empty()
}
