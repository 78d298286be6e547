//! What a plan is made with.

use std::alloc::Global;

/// What a plan is made with: what starts its threads, its memory, and who is told of it.
#[derive(Drop)]
pub struct Resources<'e, X, O> {
    pub threads: &'e X,
    pub alloc: Global,
    pub observer: &'e O,
}
