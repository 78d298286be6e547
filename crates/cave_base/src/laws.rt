//! Laws over the definitions alone.
ghost use Rattle.std.specs.Prelude.{◌≡◌, ◌<◌, ℕ, IsTrue};
ghost use Rattle.cave_base.specs.Box.{Point, cell_count, coordinates, is_within, number};

/// A point of the box has a number of the box, whose coordinates are the point.
pub fn number_then_coordinates()
    ensures { (size at : Point) → IsTrue (is_within size at)
        → (number size at < cell_count size) × (coordinates size (number size at) ≡ at) }
{}

/// A number of the box has coordinates in the box, whose number it is.
pub fn coordinates_then_number()
    ensures { (size : Point) (cell : ℕ) → cell < cell_count size
        → IsTrue (is_within size (coordinates size cell))
        × (number size (coordinates size cell) ≡ cell) }
{}
