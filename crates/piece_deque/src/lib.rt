//! Pieces in a deque that threads share: one owner pushes at the back, and all take at the front, each by its pass.
//! Each piece pushed is taken once, or still there (specs/Rule.antt).
#![tactic(auto)]

mod answer;
mod dealt;
mod deque;
mod last;
mod lending;
mod rule;

pub use answer::Take;
pub use dealt::Dealt;
pub use deque::{Owner, Pass, Thief, count, open, push, steal, take};
pub use last::last_take;
pub use lending::{lend_pass, take_back};
pub use rule::EachOnce;
