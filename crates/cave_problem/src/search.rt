//! The first cell whose bit isn't set: specs/Unlit.antt.
ghost use Rattle.std.specs.Prelude.{◌≤◌, ◌*◌, length};
ghost use Rattle.cave_problem.specs.Unlit.{FindsUnlit};

use cave_base::Cell;
use set_cover::has;

/// The first of the cells whose bit, by its index, isn't set.
pub fn first_unlit(covered: &[u64], cells: &[Cell]) -> Option<Cell>
    requires { length cells.now ≤ 64 * length covered.now }
    ensures { FindsUnlit covered.now cells.now result }
{
    for (index, cell) in cells.iter().enumerate() {
        if !has(covered, index) {
            return Some(*cell);
        }
    }
    None
}
