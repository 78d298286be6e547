//! The faces of a cell, and the cell beyond each: `step` of specs/Cells.antt. specs/Faces.antt has their names.
ghost use Rattle.std.specs.Prelude.{◌≡◌, ◌<◌, IfSome, IsTrue, option_map};
ghost use Rattle.cave_base.specs.Box as grid;
ghost use Rattle.cave_model.specs.Cells.{step};
ghost use Rattle.cave_model.specs.Faces.{face_of};

use cave_base::{Cell, number};

/// A face of a cell.
#[derive(Clone, Copy, Debug, PartialEq, Eq)]
pub(crate) enum Face {
    West,
    East,
    North,
    South,
    Below,
    Above,
}

/// The coordinates one step on from these; none beyond the box.
fn stepped(size: [u32; 3], at: [u32; 3], face: Face) -> Option<[u32; 3]>
    requires { IsTrue (grid.is_within (grid.point size) (grid.point at)) }
    ensures { option_map grid.point result ≡ step (grid.point size) (face_of face) (grid.point at) }
{
    let [x, y, z] = at;
    match face {
        Face::West if 0 < x => Some([x - 1, y, z]),
        Face::East if x + 1 < size[0] => Some([x + 1, y, z]),
        Face::North if 0 < z => Some([x, y, z - 1]),
        Face::South if z + 1 < size[2] => Some([x, y, z + 1]),
        Face::Below if 0 < y => Some([x, y - 1, z]),
        Face::Above if y + 1 < size[1] => Some([x, y + 1, z]),
        _ => None,
    }
}

/// The cell beyond a face of the cell at these coordinates; none beyond the box.
pub(crate) fn beyond(size: [u32; 3], at: [u32; 3], face: Face) -> Option<Cell>
    requires small { IsTrue (grid.is_small (grid.point size)) }
    requires within { IsTrue (grid.is_within (grid.point size) (grid.point at)) }
    ensures there { result
        ≡ option_map (grid.number (grid.point size)) (step (grid.point size) (face_of face) (grid.point at)) }
    ensures in_box { IfSome result (λ cell. cell < grid.cell_count (grid.point size)) }
{
    match stepped(size, at, face) {
        Some(to) => Some(number(size, to)),
        None => None,
    }
}
