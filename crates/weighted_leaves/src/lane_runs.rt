//! What is known of lanes.

use linear_relaxation::{Lanes, ONE};

/// By how much a lane has to show more than enough: its numbers are roughly right.
const MARGIN: i64 = ONE / 4096;

/// What is known of a lane: it shows enough, or it isn't likely to, or neither yet.
#[derive(Clone, Copy)]
pub(crate) enum LaneState {
    Closed,
    Hopeless,
    Open,
}

/// What is known of a lane that has to show more than this.
pub(crate) fn state(lanes: &Lanes, lane: usize, short_of: i64) -> LaneState {
    if lanes.bound(lane) > short_of.wrapping_add(MARGIN) {
        return LaneState::Closed;
    }
    if lanes.likely(lane) <= short_of {
        return LaneState::Hopeless;
    }
    LaneState::Open
}

/// Whether all is known of these lanes, each of which has to show more than told here.
pub(crate) fn are_known(lanes: &Lanes, from: usize, short_of: &[i64]) -> bool {
    for (index, short_of) in short_of.iter().enumerate() {
        if matches!(
            state(lanes, from.saturating_add(index), *short_of),
            LaneState::Open
        ) {
            return false;
        }
    }
    true
}
