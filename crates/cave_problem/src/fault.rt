//! Why a cave has no coverage: specs/Coverage.antt.
ghost use Rattle.std.specs.Prelude.{◌≡◌};
ghost use Rattle.cave_problem.specs.declared.fault.CoverFault.TheVariants.{OutOfMemory};

use cave_base::Cell;
use std::alloc::{AllocError, AllocFailed};
use std::error::Error;
use std::fmt;

/// Why no torches light every dark cell.
#[derive(Clone, Copy, Debug, PartialEq, Eq)]
pub enum CoverFault {
    /// The least dark cell that no legal place lights.
    Unlightable { cell: Cell },
    OutOfMemory,
}

impl fmt::Display for CoverFault {
    ghost use Rattle.std.specs.Prelude.{Some};
    ghost use Rattle.cave_problem.specs.Texts.{fault_text};

    ghost output = { λ e. Some (fault_text e) };

    fn fmt<W: fmt::Write>(&self, f: &mut fmt::Formatter<W>) -> fmt::Result {
        match self {
            CoverFault::Unlightable { cell } => write!(f, "unlightable {cell}"),
            CoverFault::OutOfMemory => write!(f, "out of memory"),
        }
    }
}

impl Error for CoverFault {}

impl From<AllocError> for CoverFault {
    ghost from_gives = { λ _ e. e ≡ OutOfMemory };

    fn from(_e: AllocError) -> CoverFault {
        CoverFault::OutOfMemory
    }
}

impl<T: Drop> From<AllocFailed<T>> for CoverFault {
    ghost from_gives = { λ _ e. e ≡ OutOfMemory };

    fn from(_e: AllocFailed<T>) -> CoverFault {
        CoverFault::OutOfMemory
    }
}
