//! What to branch on.

use instance_reduction::InInstance;

/// A cell to branch on, or a place to pick.
#[derive(Clone, Copy)]
pub enum BranchOn {
    Cell(InInstance),
    Place(InInstance),
}
