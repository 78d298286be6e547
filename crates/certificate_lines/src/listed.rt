//! Cells that ascend and are below a count: `AreListed` of specs/Certificate.antt in proof_rules.
ghost use Rattle.std.specs.List.Sorted.{IsStrictlyIncreasing};
ghost use Rattle.std.specs.Prelude.{◌↔◌, ◌<◌, All, IsTrue};
ghost use Rattle.proof_rules.specs.Certificate.{AreListed};

/// Whether the cells ascend and are below a count.
pub fn are_listed(count: u32, cells: &[u32]) -> bool
    ensures { IsTrue result ↔ AreListed count cells.now }
{
    ascend(cells) && are_below(count, cells)
}

fn are_below(count: u32, cells: &[u32]) -> bool
    ensures { IsTrue result ↔ All (λ cell. cell < count) cells.now }
{
    cells.iter().all(|cell| *cell < count)
}

fn ascend(cells: &[u32]) -> bool
    ensures { IsTrue result ↔ IsStrictlyIncreasing cells.now }
{
    for i in 1..cells.len() {
        if cells[i - 1] >= cells[i] {
            return false;
        }
    }
    true
}
