//! What a run tells while it goes on, and its words.

use cave_runs::OpenSides;
use std::fmt;
use std::marker::Copy;

/// How far the search of a region has come; before it where the box cuts the cave, and after it how many turns it took.
#[derive(Clone, Copy, Debug, PartialEq, Eq)]
pub enum Advance {
    /// Free cells lie at these sides of the box.
    Open(OpenSides),
    /// One worker: no cover has fewer than `floor` places, as it is proved, the smallest so far has `size`.
    Turns {
        region: u64,
        regions: u64,
        floor: u64,
        size: u64,
        turns: u64,
    },
    /// Many workers, and how many pieces they took.
    Pieces {
        region: u64,
        regions: u64,
        pieces: u64,
    },
    /// The search of all regions ended, and this is the most turns that were granted to one.
    Searched {
        turns: u64,
    },
}

/// The count of a side, if it has any, after a comma where it isn't the first one: whether none was put yet.
fn put_side<W: fmt::Write>(
    f: &mut fmt::Formatter<W>,
    is_first: bool,
    count: u32,
    side: &str,
) -> Result<bool, fmt::Error> {
    if count == 0 {
        return Ok(is_first);
    }
    if !is_first {
        f.write_str(", ")?;
    }
    write!(f, "{count} {side}")?;
    Ok(false)
}

/// The counts of the sides that have any, with commas between.
fn put_sides<W: fmt::Write>(f: &mut fmt::Formatter<W>, sides: &OpenSides) -> fmt::Result {
    let counts = [
        (sides.west, "west"),
        (sides.east, "east"),
        (sides.north, "north"),
        (sides.south, "south"),
        (sides.below, "below"),
        (sides.above, "above"),
    ];
    let mut is_first = true;
    for (count, side) in counts {
        is_first = put_side(f, is_first, count, side)?;
    }
    Ok(())
}

impl fmt::Display for Advance {
    fn fmt<W: fmt::Write>(&self, f: &mut fmt::Formatter<W>) -> fmt::Result {
        match self {
            Advance::Open(sides) => {
                f.write_str("free cells lie at the box's edge: ")?;
                put_sides(f, sides)?;
                f.write_str(
                    "; outside counts as solid nothing, without ground, light or room, \
                    so save a block more of floor, walls and ceiling",
                )
            }
            Advance::Turns {
                region,
                regions,
                floor,
                size,
                turns,
            } => write!(
                f,
                "region {region} of {regions}: {floor} to {size} torches, turn {turns}"
            ),
            Advance::Pieces {
                region,
                regions,
                pieces,
            } => write!(f, "region {region} of {regions}: {pieces} pieces taken"),
            Advance::Searched { turns } => {
                write!(f, "search ended, with at most {turns} turns for a region")
            }
        }
    }
}
