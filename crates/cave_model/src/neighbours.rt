//! What lies beyond the faces of a cell: `neighbours_of` of specs/Cells.antt, and `class_beyond` of specs/Cave.antt.
ghost use Rattle.std.specs.Prelude.{◌≡◌, ◌<◌};
ghost use Rattle.cave_base.specs.Box.{cell_count};
ghost use Rattle.cave_model.specs.Cave.{class_beyond};
ghost use Rattle.cave_model.specs.Cells.{neighbours_of};
ghost use Rattle.cave_model.specs.Faces.{face_of};

use crate::face::{Face, beyond};
use crate::world::World;
use cave_base::{Cell, Class, VOID, coordinates};

impl World {
    /// The cells that share a face with this one: west, east, north, south, below, above; none beyond the box.
    pub fn neighbours(&self, cell: Cell) -> [Option<Cell>; 6]
        requires in_box { cell < cell_count self.now.size }
        ensures { result ≡ neighbours_of self.now.size cell }
    {
        let size = self.size();
        let at = coordinates(size, cell);
        [
            beyond(size, at, Face::West),
            beyond(size, at, Face::East),
            beyond(size, at, Face::North),
            beyond(size, at, Face::South),
            beyond(size, at, Face::Below),
            beyond(size, at, Face::Above),
        ]
    }

    /// What lies beyond a face of the cell; outside the box all is void.
    pub(crate) fn class_beyond(&self, cell: Cell, face: Face) -> Class
        requires in_box { cell < cell_count self.now.size }
        ensures { result ≡ class_beyond self.now (face_of face) cell }
    {
        let size = self.size();
        match beyond(size, coordinates(size, cell), face) {
            Some(other) => self.class_of(other),
            None => VOID,
        }
    }
}
