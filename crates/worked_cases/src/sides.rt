//! What is told of the sides of the box.

use std::alloc::{AllocError, Global};
use std::sync::atomic::{AtomicU32, Ordering};
use torch_plan::{Observer, OpenSides, Watcher};

/// Keeps what it was told last of the sides of the box, and how often it was told of them.
#[derive(Drop)]
pub struct Sides {
    count: AtomicU32,
    west: AtomicU32,
    east: AtomicU32,
    north: AtomicU32,
    south: AtomicU32,
    below: AtomicU32,
    above: AtomicU32,
}

impl Sides {
    /// Nothing was told yet.
    pub fn new() -> Sides {
        Sides {
            count: AtomicU32::new(0),
            west: AtomicU32::new(0),
            east: AtomicU32::new(0),
            north: AtomicU32::new(0),
            south: AtomicU32::new(0),
            below: AtomicU32::new(0),
            above: AtomicU32::new(0),
        }
    }

    /// The free cells at each side: west, east, north, south, below, above; `none` where nothing was told, and
    /// `twice` where that was told more than once.
    pub fn line(&self, alloc: Global) -> Result<String, AllocError> {
        let count = self.count.load(Ordering::SeqCst);
        if count == 0 {
            return String::from_str(alloc, "none");
        }
        if count > 1 {
            return String::from_str(alloc, "twice");
        }
        let west = self.west.load(Ordering::SeqCst);
        let east = self.east.load(Ordering::SeqCst);
        let north = self.north.load(Ordering::SeqCst);
        let south = self.south.load(Ordering::SeqCst);
        let below = self.below.load(Ordering::SeqCst);
        let above = self.above.load(Ordering::SeqCst);
        format!(in alloc; "{west} {east} {north} {south} {below} {above}")
    }
}

impl Observer for Sides {}

impl Watcher for Sides {
    fn opened(&self, sides: &OpenSides) {
        self.count.fetch_add(1, Ordering::SeqCst);
        self.west.store(sides.west, Ordering::SeqCst);
        self.east.store(sides.east, Ordering::SeqCst);
        self.north.store(sides.north, Ordering::SeqCst);
        self.south.store(sides.south, Ordering::SeqCst);
        self.below.store(sides.below, Ordering::SeqCst);
        self.above.store(sides.above, Ordering::SeqCst);
    }
}
