//! Free cells at the sides of a box, which tell that the cave goes on outside it.

use cave_base::coordinates;
use cave_model::World;

/// How many free cells lie at each side of a box. A cell at an edge or a corner counts at each of its sides.
#[derive(Clone, Copy, Debug, PartialEq, Eq)]
pub struct OpenSides {
    pub west: u32,
    pub east: u32,
    pub north: u32,
    pub south: u32,
    pub below: u32,
    pub above: u32,
}

/// The count, and one more where that is so.
fn counted(count: u32, is_so: bool) -> u32 {
    if is_so {
        return count.saturating_add(1);
    }
    count
}

/// Whether the coordinate is the last one along a side of this length.
fn is_last(at: u32, length: u32) -> bool {
    at.saturating_add(1) == length
}

impl OpenSides {
    /// No free cell lies at a side.
    pub fn is_closed(&self) -> bool {
        self.west == 0
            && self.east == 0
            && self.north == 0
            && self.south == 0
            && self.below == 0
            && self.above == 0
    }

    /// With the free cell at these coordinates of a box of this size.
    fn with_cell(self, size: [u32; 3], at: [u32; 3]) -> OpenSides {
        OpenSides {
            west: counted(self.west, at[0] == 0),
            east: counted(self.east, is_last(at[0], size[0])),
            north: counted(self.north, at[2] == 0),
            south: counted(self.south, is_last(at[2], size[2])),
            below: counted(self.below, at[1] == 0),
            above: counted(self.above, is_last(at[1], size[1])),
        }
    }
}

/// How many free cells lie at each side of the box of a cave.
pub(crate) fn open_sides(world: &World) -> OpenSides {
    let size = world.size();
    let mut sides = OpenSides {
        west: 0,
        east: 0,
        north: 0,
        south: 0,
        below: 0,
        above: 0,
    };
    for cell in 0..world.cell_count() {
        if world.class_of(cell).free {
            sides = sides.with_cell(size, coordinates(size, cell));
        }
    }
    sides
}
