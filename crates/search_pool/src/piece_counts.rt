//! How many pieces workers handed over, by what became of them: `AreTallied` of specs/Tallies.antt. A report's numbers
//! are made of these.
ghost use Rattle.std.specs.Prelude.{◌≤◌, ◌*◌, ◌^◌, length};
ghost use Rattle.plan_options.specs.Crew.{most_workers};
ghost use Rattle.search_pool.specs.Tallies.{AreTallied};

use schedule_law::Work;

/// The pieces of all works, counted.
#[derive(Clone, Copy, Debug)]
pub(crate) struct PieceCounts {
    pub(crate) closed: u128,
    pub(crate) opened: u128,
    pub(crate) held: u128,
    pub(crate) kept: u128,
}

/// Counts the pieces of the works.
pub(crate) fn count_pieces(works: &[Work]) -> PieceCounts
    requires few { length works.now ≤ most_workers }
    ensures counted { AreTallied works.now result }
    ensures most { (result.closed ≤ length works.now * 2 ^ 64)
        × (result.opened ≤ length works.now * 2 ^ 64)
        × (result.held ≤ length works.now * 2 ^ 64) × (result.kept ≤ length works.now * 2 ^ 64) }
{
    let Some((work, rest)) = works.split_first() else {
        return PieceCounts {
            closed: 0,
            opened: 0,
            held: 0,
            kept: 0,
        };
    };
    let others = count_pieces(rest);
    PieceCounts {
        closed: others.closed + work.closed.len() as u128,
        opened: others.opened + work.opened.len() as u128,
        held: others.held + work.held.len() as u128,
        kept: others.kept + work.kept.len() as u128,
    }
}
