//! The nodes of a round, counted, and at which of them covers are sought.

use std::marker::Copy;

/// A cover is sought at each of the first `OFTEN` nodes that are opened in a round, and then at one of `SELDOM`; where
/// places are picked, at other nodes and for longer.
const OFTEN: u64 = 8;

const SELDOM: u64 = 4;

const OFTEN_BY_PICKS: u64 = 6;

const SELDOM_BY_PICKS: u64 = 16;

/// In a hall one is sought once so many nodes were worked on in a round, and each time that four times as many were: at
/// first a quarter of the time goes into it, and less and less.
const FIRST_IN_HALL: u64 = 64;

/// Parts of a search are shorter, and there are many: in each a cover is sought later.
const FIRST_IN_PART: u64 = 1_024;

/// How many nodes of a round were worked on, and how many of them were opened: no leaf closed them.
#[derive(Clone, Copy)]
pub(crate) struct NodeCount {
    worked_on: u64,
    opened: u64,
    /// A cover of a hall is sought next once so many nodes were worked on.
    next_in_hall: u64,
}

impl NodeCount {
    /// No node yet.
    pub(crate) fn new() -> NodeCount {
        NodeCount {
            worked_on: 0,
            opened: 0,
            next_in_hall: FIRST_IN_HALL,
        }
    }

    /// No node yet of a part of a search.
    pub(crate) fn of_part() -> NodeCount {
        NodeCount {
            worked_on: 0,
            opened: 0,
            next_in_hall: FIRST_IN_PART,
        }
    }

    /// A node is worked on.
    pub(crate) fn work_on(&mut self) {
        self.worked_on = self.worked_on.saturating_add(1);
    }

    /// It is opened.
    pub(crate) fn open(&mut self) {
        self.opened = self.opened.saturating_add(1);
    }

    /// Whether a cover is sought at the node that is opened next; `may_pick` tells whether places may be picked there.
    pub(crate) fn is_due(self, may_pick: bool) -> bool {
        if may_pick {
            return self.opened <= OFTEN_BY_PICKS || self.opened % SELDOM_BY_PICKS == 0;
        }
        self.opened <= OFTEN || self.opened % SELDOM == 0
    }

    /// Whether a cover of a hall is sought at the node that is opened next.
    pub(crate) fn is_due_in_hall(self) -> bool {
        self.worked_on >= self.next_in_hall
    }

    /// A cover of a hall is sought.
    pub(crate) fn seek_in_hall(&mut self) {
        self.next_in_hall = self.worked_on.saturating_mul(4);
    }
}
