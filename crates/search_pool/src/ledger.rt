//! What workers share beside the beacon and their deques: how many pieces are open, the turns, and how often a piece
//! was shown to thieves. A worker that finds no piece waits here for one. Nothing rests on these numbers: they say
//! when a worker waits, and when it ends.
//!
//! Who waits holds no piece. Each piece that is shown is followed by a change that wakes all who wait, and so are the
//! end of the last piece, a turn that is refused, and a worker that leaves; so nobody waits for what nobody brings.
use std::sync::{Condvar, Mutex, Wait};

/// Open pieces, turns, and shows.
#[derive(Drop)]
struct Totals {
    /// How many pieces wait or are held.
    open: u64,
    /// How often a piece was shown, or a worker left.
    shows: u64,
    /// How many turns there are, or any number of them.
    limit: Option<u64>,
    /// How many were taken.
    taken: u64,
    /// Whether a turn was refused.
    is_spent: bool,
}

/// The totals, which all workers see.
#[derive(Drop)]
pub(crate) struct Ledger {
    totals: Mutex<Totals>,
    changed: Condvar,
}

impl Ledger {
    /// One piece is open, and `limit` turns may be taken, or any number.
    pub(crate) fn new(limit: Option<u64>) -> Ledger {
        Ledger {
            totals: Mutex::new(Totals {
                open: 1,
                shows: 0,
                limit,
                taken: 0,
                is_spent: false,
            }),
            changed: Condvar::new(),
        }
    }

    /// How often a piece was shown until now.
    pub(crate) fn shows<R: Wait>(&self, rt: &R) -> u64 {
        self.totals.lock(rt).shows
    }

    /// Waits while no piece was shown beyond these. False where there is none to wait for: all are closed, or the turns
    /// are spent.
    pub(crate) fn wait<R: Wait>(&self, rt: &R, shows: u64) -> bool {
        let totals = self.changed.wait_while(
            rt,
            self.totals.lock(rt),
            |totals| totals.shows == shows && totals.open > 0 && !totals.is_spent,
        );
        totals.open > 0 && !totals.is_spent
    }

    /// Takes a turn, if one is left.
    pub(crate) fn take_turn<R: Wait>(&self, rt: &R) -> bool {
        let mut totals = self.totals.lock(rt);
        if let Some(limit) = totals.limit {
            if totals.taken >= limit {
                totals.is_spent = true;
                self.changed.notify_all();
                return false;
            }
        }
        totals.taken = totals.taken.saturating_add(1);
        true
    }

    /// A piece was closed, or opened with `kids` kids.
    pub(crate) fn end_piece<R: Wait>(&self, rt: &R, kids: usize) {
        let mut totals = self.totals.lock(rt);
        totals.open = totals.open.saturating_add(kids as u64).saturating_sub(1);
        if totals.open == 0 {
            self.changed.notify_all();
        }
    }

    /// A piece was shown.
    pub(crate) fn show<R: Wait>(&self, rt: &R) {
        let mut totals = self.totals.lock(rt);
        totals.shows = totals.shows.wrapping_add(1);
        self.changed.notify_all();
    }

    /// A worker leaves with `pieces` pieces, which nobody works on any more.
    pub(crate) fn leave<R: Wait>(&self, rt: &R, pieces: usize) {
        let mut totals = self.totals.lock(rt);
        totals.open = totals.open.saturating_sub(pieces as u64);
        totals.shows = totals.shows.wrapping_add(1);
        self.changed.notify_all();
    }

    /// How many turns were taken.
    pub(crate) fn taken<R: Wait>(&self, rt: &R) -> u64 {
        self.totals.lock(rt).taken
    }
}
