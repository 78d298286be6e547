//! The box of a cave: its limits, and the numbers and the coordinates of its cells: specs/Box.antt.
ghost use Rattle.std.specs.Prelude.{◌≡◌, ◌<◌, IsTrue};
ghost use Rattle.cave_base.specs.Box as grid;

/// The number of a cell in its box: `(y * Z + z) * X + x` in a box of X, Y, Z (this project's own).
pub type Cell = u32;

/// The greatest side of a box (this project's own).
const MAX_SIDE: u32 = 128;

/// The most cells that a box may have (this project's own).
const MAX_CELLS: u32 = 262_144;

/// The number of the cell at these coordinates, both along x, y and z.
pub fn number(size: [u32; 3], at: [u32; 3]) -> Cell
    requires small { IsTrue (grid.is_small (grid.point size)) }
    requires within { IsTrue (grid.is_within (grid.point size) (grid.point at)) }
    ensures number { result ≡ grid.number (grid.point size) (grid.point at) }
    ensures in_box { result < grid.cell_count (grid.point size) }
{
    (at[1] * size[2] + at[2]) * size[0] + at[0]
}

/// The coordinates of a cell of the box: along x, y and z.
pub fn coordinates(size: [u32; 3], cell: Cell) -> [u32; 3]
    requires { cell < grid.cell_count (grid.point size) }
    ensures coordinates { grid.point result ≡ grid.coordinates (grid.point size) cell }
    ensures within { IsTrue (grid.is_within (grid.point size) (grid.point result)) }
{
    let row = cell / size[0];
    [cell % size[0], row / size[2], row % size[2]]
}

/// Whether a box with these sides is small enough.
pub fn is_small(size: [u32; 3]) -> bool
    ensures { result ≡ grid.is_small (grid.point size) }
{
    let [x, y, z] = size;
    x <= MAX_SIDE && y <= MAX_SIDE && z <= MAX_SIDE && x * y * z <= MAX_CELLS
}

/// Whether the coordinates lie in the box.
pub fn is_within(size: [u32; 3], at: [u32; 3]) -> bool
    ensures { result ≡ grid.is_within (grid.point size) (grid.point at) }
{
    at[0] < size[0] && at[1] < size[1] && at[2] < size[2]
}
