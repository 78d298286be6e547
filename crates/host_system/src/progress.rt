//! Lines on standard error: where the box cuts a cave, and, about once a second at most, how a plan gets on.

use cave_runs::{Name, Observer, OpenSides, Watcher};
use run_system::Advance;
use std::sync::atomic::{AtomicBool, AtomicU64, Ordering};
use std::time::Clock;

/// How many milliseconds lie between two lines at least.
const BETWEEN: u64 = 1000;

/// Tells of a run, where that is asked for, and holds no worker back. Of the search in less than a second it is silent.
#[derive(Drop)]
pub struct Progress<'r> {
    rt: &'r HostRuntime,
    is_asked: AtomicBool,
    region: AtomicU64,
    regions: AtomicU64,
    turns: AtomicU64,
    pieces: AtomicU64,
    /// When the last line of a search was printed, or when the run began.
    last: AtomicU64,
    /// Whether a line of this search was printed.
    is_told: AtomicBool,
}

impl<'r> Progress<'r> {
    /// Nothing was asked for yet.
    pub fn new(rt: &'r HostRuntime) -> Progress<'r> {
        Progress {
            rt,
            is_asked: AtomicBool::new(false),
            region: AtomicU64::new(0),
            regions: AtomicU64::new(0),
            turns: AtomicU64::new(0),
            pieces: AtomicU64::new(0),
            last: AtomicU64::new(0),
            is_told: AtomicBool::new(false),
        }
    }

    /// A run begins, of which is to be told or not.
    pub(crate) fn begin(&self, is_asked: bool) {
        self.last.store(self.now(), Ordering::SeqCst);
        self.is_told.store(false, Ordering::SeqCst);
        self.is_asked.store(is_asked, Ordering::SeqCst);
    }

    /// Milliseconds since some start; 0 where there is no clock.
    fn now(&self) -> u64 {
        match self.rt.monotonic() {
            Ok(time) => time
                .as_secs()
                .saturating_mul(1000)
                .saturating_add(u64::from(time.subsec_millis())),
            Err(_) => 0,
        }
    }

    fn tell(&self, advance: &Advance) {
        let _ = eprintln!(self.rt; "torchplan: {advance}");
    }

    /// The number of the region that is planned and how many there are, where a line is due. The caller prints it:
    /// another thread finds none due then.
    fn region_due(&self) -> Option<(u64, u64)> {
        if !self.is_due() {
            return None;
        }
        self.is_told.store(true, Ordering::SeqCst);
        let region = self.region.load(Ordering::SeqCst);
        Some((region, self.regions.load(Ordering::SeqCst)))
    }

    /// Whether a line is due, which is taken to be printed then.
    fn is_due(&self) -> bool {
        if !self.is_asked.load(Ordering::SeqCst) {
            return false;
        }
        let now = self.now();
        let last = self.last.load(Ordering::SeqCst);
        now.saturating_sub(last) >= BETWEEN
            && self
                .last
                .compare_exchange(last, now, Ordering::SeqCst, Ordering::SeqCst)
                .is_ok()
    }
}

/// Counts one more: how many there are then.
fn counted(count: &AtomicU64) -> u64 {
    count.fetch_add(1, Ordering::SeqCst).saturating_add(1)
}

impl Observer for Progress<'_> {
    fn region(&self, number: usize, count: usize) {
        self.region.store(number as u64, Ordering::SeqCst);
        self.regions.store(count as u64, Ordering::SeqCst);
        self.turns.store(0, Ordering::SeqCst);
        self.pieces.store(0, Ordering::SeqCst);
    }

    fn turn(&self, size: u64, aim: u64) {
        let turns = counted(&self.turns);
        if let Some((region, regions)) = self.region_due() {
            self.tell(&Advance::Turns {
                region,
                regions,
                floor: aim.saturating_sub(1),
                size,
                turns,
            });
        }
    }

    fn enter(&self, _worker: u32, _name: &Name) {
        let pieces = counted(&self.pieces);
        if let Some((region, regions)) = self.region_due() {
            self.tell(&Advance::Pieces {
                region,
                regions,
                pieces,
            });
        }
    }
}

impl Watcher for Progress<'_> {
    fn opened(&self, sides: &OpenSides) {
        if self.is_asked.load(Ordering::SeqCst) {
            self.tell(&Advance::Open(*sides));
        }
    }

    fn searched(&self, turns: u64) {
        if self.is_told.load(Ordering::SeqCst) || self.is_due() {
            self.tell(&Advance::Searched { turns });
        }
    }
}
