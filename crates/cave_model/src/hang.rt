//! How a new torch hangs in a cell: `hang_of` of specs/Torches.antt.
ghost use Rattle.std.specs.Prelude.{◌≡◌, ◌<◌};
ghost use Rattle.cave_base.specs.Box.{cell_count};
ghost use Rattle.cave_model.specs.Torches as torches;

use crate::face::Face;
use crate::world::World;
use cave_base::Cell;

/// The light that a torch gives (Minecraft Wiki, "Torch").
pub const TORCH_LIGHT: u8 = 14;

/// How a torch is held: it stands on the floor, or faces this way on a wall, hanging on the block behind it
/// (Minecraft Wiki, "Torch").
#[derive(Clone, Copy, Debug, PartialEq, Eq)]
pub enum Hang {
    Floor,
    North,
    East,
    South,
    West,
}

impl World {
    /// How a torch hangs in the cell: on the floor where possible, else the first legal facing of north, east,
    /// south, west (the order is this project's own). None where the cell is no place for a torch.
    pub fn hang_of(&self, cell: Cell) -> Option<Hang>
        requires in_box { cell < cell_count self.now.size }
        ensures { result ≡ torches.hang_of self.now cell }
    {
        if !self.class_of(cell).put {
            return None;
        }
        if self.class_beyond(cell, Face::Below).top {
            return Some(Hang::Floor);
        }
        if self.class_beyond(cell, Face::South).side {
            return Some(Hang::North);
        }
        if self.class_beyond(cell, Face::West).side {
            return Some(Hang::East);
        }
        if self.class_beyond(cell, Face::North).side {
            return Some(Hang::South);
        }
        if self.class_beyond(cell, Face::East).side {
            return Some(Hang::West);
        }
        None
    }
}
