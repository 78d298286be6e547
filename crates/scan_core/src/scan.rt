//! What a structure file tells: `Structure` of specs/Scan.antt, of which `IsWholeScan` always holds.
use crate::state::BlockState;
use std::marker::Model;

/// What a structure file tells: the sides of its box, its palette, and for each cell, by its number,
/// an index into the palette, or none where no entry names the cell.
///
/// A side is at most 128 and a box has at most 262,144 cells (this project's own). There are as many
/// cells as the box has, each index is below the palette's length, and each state has a property once.
#[derive(Debug, Drop)]
pub struct Scan {
    size: [u32; 3],
    palette: Vec<BlockState>,
    cells: Vec<Option<u32>>,
}

impl Model for Scan {
    ghost use Rattle.scan_core.specs.Scan.{Structure, IsWholeScan, structure};

    ghost Value = { Structure };

    ghost view = { λ s. structure s.size s.palette.items s.cells.items };

    ghost invariant = { λ s. IsWholeScan (structure s.size s.palette.items s.cells.items) };
}

impl Scan {
    ghost use Rattle.std.specs.Prelude.{◌≡◌, ◌<◌, length, All, IfSome, IsTrue};
    ghost use Rattle.cave_base.specs.Box.{cell_count, is_small, point};
    ghost use Rattle.scan_core.specs.Properties.{HasEachOnce};
    ghost use Rattle.scan_core.specs.Scan.{IsWholeScan, structure};

    /// What these parts tell.
    pub(crate) fn new(size: [u32; 3], palette: Vec<BlockState>, cells: Vec<Option<u32>>) -> Scan
        requires { IsWholeScan (structure size palette.items cells.items) }
        ensures { result ≡ structure size palette.items cells.items }
    {
        Scan {
            size,
            palette,
            cells,
        }
    }

    /// The sides of the box: along x, y and z.
    pub fn size(&self) -> [u32; 3]
        ensures size { point result ≡ self.now.size }
        ensures small { IsTrue (is_small self.now.size) }
    {
        self.size
    }

    /// The block states that indexes name.
    pub fn palette(&self) -> &[BlockState]
        ensures palette { result.now ≡ self.now.palette }
        ensures once { All (λ state. HasEachOnce state.props) self.now.palette }
    {
        &self.palette
    }

    /// For each cell an index into the palette, or none.
    pub fn cells(&self) -> &[Option<u32>]
        ensures cells { result.now ≡ self.now.cells }
        ensures whole { length self.now.cells ≡ cell_count self.now.size }
        ensures known { let states = length self.now.palette in
            All (λ cell. IfSome cell (λ index. index < states)) self.now.cells }
    {
        &self.cells
    }
}
