//! A torch as a plan's text tells it.

use cave_model::Hang;

/// A torch as a plan's text tells it: by its coordinates, and how it hangs.
#[derive(Clone, Copy, Debug, PartialEq, Eq)]
pub struct ToldTorch {
    pub x: u32,
    pub y: u32,
    pub z: u32,
    pub hang: Hang,
}
