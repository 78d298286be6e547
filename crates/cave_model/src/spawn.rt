ghost use Rattle.std.specs.Prelude.{◌≡◌, ◌<◌};
ghost use Rattle.cave_base.specs.Box.{cell_count};
ghost use Rattle.cave_model.specs.Spawn as spawn;

use crate::face::Face;
use crate::world::World;
use cave_base::Cell;

impl World {
    /// Whether a hostile mob could spawn in the cell, were it dark (Minecraft Wiki, "Spawn", from 1.18 on; which
    /// blocks are ground or room is this project's own).
    pub fn is_spawnable(&self, cell: Cell) -> bool
        requires in_box { cell < cell_count self.now.size }
        ensures { result ≡ spawn.is_spawnable self.now cell }
    {
        self.class_of(cell).free
            && (self.rule().headroom == 1 || self.class_beyond(cell, Face::Above).free)
            && self.class_beyond(cell, Face::Below).stand
    }
}
