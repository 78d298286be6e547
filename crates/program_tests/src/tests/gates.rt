//! A gate that holds workers back.
use std::sync::atomic::{AtomicBool, AtomicU32, Ordering};
use torch_plan::{Name, Observer, Watcher};

/// How often a worker that is held back looks whether the other one has entered.
const LOOKS: u32 = 1_000_000_000;

/// Each of two workers waits at the first piece below the root that it enters until the other has entered one, where it
/// is held at all.
#[derive(Drop)]
pub(crate) struct Meeting {
    held: [bool; 2],
    entered: [AtomicU32; 2],
    inside: AtomicU32,
    most: AtomicU32,
    reopened: AtomicBool,
    gave_up: AtomicBool,
}

impl Meeting {
    /// These workers are held back.
    pub(crate) fn of(held: [bool; 2]) -> Meeting {
        Meeting {
            held,
            entered: [AtomicU32::new(0), AtomicU32::new(0)],
            inside: AtomicU32::new(0),
            most: AtomicU32::new(0),
            reopened: AtomicBool::new(false),
            gave_up: AtomicBool::new(false),
        }
    }

    /// Whether a worker that was held back stopped looking.
    pub(crate) fn gave_up(&self) -> bool {
        self.gave_up.load(Ordering::SeqCst)
    }

    /// Whether both workers entered.
    pub(crate) fn has_both(&self) -> bool {
        self.entered[0].load(Ordering::SeqCst) > 0 && self.entered[1].load(Ordering::SeqCst) > 0
    }

    /// How many workers were here at once, at most.
    pub(crate) fn most(&self) -> u32 {
        self.most.load(Ordering::SeqCst)
    }

    /// Whether a kid of one of the root's kids entered.
    pub(crate) fn has_reopened(&self) -> bool {
        self.reopened.load(Ordering::SeqCst)
    }

    fn entries(&self, worker: u32) -> &AtomicU32 {
        if worker == 0 {
            return &self.entered[0];
        }
        &self.entered[1]
    }

    fn wait_for(&self, other: u32) {
        let entries = self.entries(other);
        for _ in 0..LOOKS {
            if entries.load(Ordering::SeqCst) > 0 {
                return;
            }
        }
        self.gave_up.store(true, Ordering::SeqCst);
    }

    fn is_held(&self, worker: u32) -> bool {
        if worker == 0 {
            return self.held[0];
        }
        self.held[1]
    }
}

impl Observer for Meeting {
    fn enter(&self, worker: u32, name: &Name) {
        if name.as_slice().len() == 2 {
            self.reopened.store(true, Ordering::SeqCst);
        }
        if worker > 1 || name.as_slice().is_empty() {
            return;
        }
        let others = self.inside.fetch_add(1, Ordering::SeqCst);
        self.most
            .fetch_max(others.wrapping_add(1), Ordering::SeqCst);
        let before = self.entries(worker).fetch_add(1, Ordering::SeqCst);
        if before == 0 && self.is_held(worker) {
            self.wait_for(1 - worker);
        }
        self.inside.fetch_sub(1, Ordering::SeqCst);
    }
}

impl Watcher for Meeting {}
