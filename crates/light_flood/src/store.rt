ghost use Rattle.std.specs.Prelude.{◌≡◌, ◌<◌, ℕ, OnOk};
ghost use Rattle.light_flood.specs.Spreading.{IsRaised};

use cave_base::Cell;
use std::alloc::AllocError;

/// Where a flood keeps its levels: 0 for a cell that no light has reached.
pub trait Store {
    /// The level of each cell.
    ghost levels: { Self → ℕ → ℕ };
    /// How many cells it can keep.
    ghost cells: { Self → ℕ };

    fn level(&self, cell: Cell) -> u8
        requires in_box { cell < cells self.now }
        ensures { result ≡ levels self.now cell };

    fn raise(&mut self, cell: Cell, level: u8) -> Result<(), AllocError>
        requires in_box { cell < cells self.old }
        ensures raised { OnOk result (IsRaised (levels self.old) cell level (levels self.new)) }
        ensures cells { cells self.new ≡ cells self.old };
}
