//! How much is done at a node. A long search gets more: its trees and their leaves become shorter, where a short one
//! would take longer.

use crate::sought::Sought;

/// How many nodes a search has before it is long, and one of a hall, whose trees are large or hardly any.
const SHORT_SEARCH: u64 = 400;

const SHORT_IN_HALL: u64 = 32;

/// How many runs of steps there are at the first node before a cover is sought, and after it, below that node, and in a
/// long search.
const RUNS_BEFORE_COVERS: u32 = 6;

const FIRST_RUNS: u32 = 16;

const RUNS: u32 = 8;

const LONG_RUNS: u32 = 24;

/// How many runs of steps a node gets at most, and whether the search is long: then weights that aren't likely to show
/// enough are given up sooner, and cells to branch on are tried by their kids' own relaxations.
#[derive(Clone, Copy)]
pub(crate) struct Effort {
    pub runs: u32,
    pub is_long: bool,
}

impl Effort {
    /// The effort at the first node, before a cover is sought.
    pub(crate) fn before_covers() -> Effort {
        Effort {
            runs: RUNS_BEFORE_COVERS,
            is_long: false,
        }
    }

    /// The effort at a node that `nodes` nodes came before. A search that may pick is long below its first node, and
    /// one that is part of a longer one from its first node on.
    pub(crate) fn at(sought: Sought, nodes: u64) -> Effort {
        if sought.depth == 0 && !sought.is_part {
            return Effort {
                runs: FIRST_RUNS,
                is_long: false,
            };
        }
        let short = if sought.is_in_hall {
            SHORT_IN_HALL
        } else {
            SHORT_SEARCH
        };
        let is_long = sought.may_pick || sought.is_part || nodes >= short;
        Effort {
            runs: if is_long { LONG_RUNS } else { RUNS },
            is_long,
        }
    }
}
