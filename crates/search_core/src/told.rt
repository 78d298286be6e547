//! A proposer whose nodes an observer is told of.
use search_traits::{Observer, Proposal, Proposer, Task};
use std::alloc::{AllocError, Global};

/// It proposes what the inner one does, and tells of each node.
#[derive(Drop)]
pub struct Told<'o, P, O> {
    inner: P,
    observer: &'o O,
    /// The size of the smallest cover as the round began.
    size: u64,
}

impl<'o, P, O> Told<'o, P, O> {
    /// The observer is told of the nodes that this one proposes for.
    pub fn new(inner: P, observer: &'o O) -> Told<'o, P, O> {
        Told {
            inner,
            observer,
            size: 0,
        }
    }

    /// A round begins with a cover of this size.
    pub fn begin(&mut self, size: u64) {
        self.size = size;
    }

    /// What proposes.
    pub fn inner(&self) -> &P {
        &self.inner
    }

    /// Who is told.
    pub fn observer(&self) -> &'o O {
        self.observer
    }
}

impl<P: Proposer, O: Observer> Proposer for Told<'_, P, O> {
    fn propose(&mut self, alloc: Global, task: Task<'_>) -> Result<Proposal, AllocError> {
        // The size comes from the round, the aim from the desk: two that don't go together are not told.
        if let Some(aim) = task.floor {
            if 1 <= aim && aim <= self.size {
                self.observer.turn(self.size, aim);
            }
        }
        self.inner.propose(alloc, task)
    }
}
