//! The steps that both sides of relaxations make in turn, side by side, as `sides` has those of one.

use crate::lane_side::LaneSide;
use crate::side::Lack;
use std::num::nearest_u32_to_f32;

/// Makes `steps` steps. Each goes twice as far, and then a part of the way back to where the first one began.
pub(crate) fn run_steps(taken: &mut LaneSide, weights: &mut LaneSide, steps: u32) {
    taken.begin_run();
    weights.begin_run();
    for number in 0..steps {
        let back = 1.0 / nearest_u32_to_f32(number.saturating_add(2));
        step(taken, weights, Some(back));
    }
}

/// Takes less of each place that lights too little weight, and gives more weight to each cell that is lit too little.
pub(crate) fn step(taken: &mut LaneSide, weights: &mut LaneSide, back: Option<f32>) {
    taken.step(weights.numbers(), Lack::Lowers, back);
    weights.step(taken.ahead(), Lack::Raises, back);
}
