//! The first lines of a plan, each read from the front of a text: specs/Fields.antt.
ghost use Rattle.std.specs.Prelude.{◌≡◌, ℕ, MatchOption, List, Option};
ghost use Rattle.plan_reading.specs.Fields.{BeginsWithCorner, BeginsWithDark, BeginsWithHead, BeginsWithTorch};
ghost use Rattle.plan_reading.specs.Fields.{HasNoCorner, HasNoDark, HasNoHead, HasNoTorch};

use crate::fields::{after, hang_before, number_before};
use crate::torch::ToldTorch;
use certificate_lines::cut_line;

/// How many torches the first line tells, and what comes after that line.
pub(crate) fn after_head(text: &[u8]) -> Option<(u32, &[u8])>
    ensures { MatchOption result (HasNoHead text.now)
        (λ r. (floor : Option ℕ) × BeginsWithHead text.now r.0 floor r.1.now) }
{
    let Some(rest) = after(text, b"torches ") else {
        return None;
    };
    if let Some((count, rest)) = number_before(rest, b'\n') {
        return Some((count, rest));
    }
    let Some((count, rest)) = number_before(rest, b' ') else {
        return None;
    };
    let Some(rest) = after(rest, b"at-least ") else {
        return None;
    };
    match number_before(rest, b'\n') {
        Some((_, rest)) => Some((count, rest)),
        None => None,
    }
}

/// What comes after the line that tells how many cells are dark.
pub(crate) fn after_dark(text: &[u8]) -> Option<&[u8]>
    ensures { MatchOption result (HasNoDark text.now)
        (λ rest. (dark : ℕ) × BeginsWithDark text.now dark rest.now) }
{
    let Some(rest) = after(text, b"dark ") else {
        return None;
    };
    match number_before(rest, b'\n') {
        Some((_, rest)) => Some(rest),
        None => None,
    }
}

/// What comes after the line of a corner.
pub(crate) fn after_corner(text: &[u8]) -> Option<&[u8]>
    ensures { MatchOption result (HasNoCorner text.now)
        (λ rest. (corner : List ℕ) × BeginsWithCorner text.now corner rest.now) }
{
    let Some(rest) = after(text, b"corner ") else {
        return None;
    };
    match cut_line(rest) {
        Some((_, rest)) => Some(rest),
        None => None,
    }
}

/// The torch that a line tells, and what comes after that line.
pub(crate) fn after_torch(text: &[u8]) -> Option<(ToldTorch, &[u8])>
    ensures { MatchOption result (HasNoTorch text.now) (λ r. BeginsWithTorch text.now r.0 r.1.now) }
{
    let Some(rest) = after(text, b"T ") else {
        return None;
    };
    let Some((x, rest)) = number_before(rest, b' ') else {
        return None;
    };
    let Some((y, rest)) = number_before(rest, b' ') else {
        return None;
    };
    let Some((z, rest)) = number_before(rest, b' ') else {
        return None;
    };
    match hang_before(rest) {
        Some((hang, rest)) => Some((ToldTorch { x, y, z, hang }, rest)),
        None => None,
    }
}
