//! Binary search among ascending cells.
ghost use Rattle.std.specs.List.Sorted.{IsStrictlyIncreasing};
ghost use Rattle.std.specs.Prelude.{MatchOption, Contains};
ghost use Rattle.set_cover.specs.Instance.{StandsAt};

use cave_base::Cell;

/// Where the cell stands among ascending cells.
pub fn find(cells: &[Cell], cell: Cell) -> Option<usize>
    requires ascending { IsStrictlyIncreasing cells.now }
    ensures { MatchOption result (Contains cells.now cell → ⊥) (λ index. StandsAt cells.now index cell) }
{
    cells.binary_search(&cell).ok()
}
