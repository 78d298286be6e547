//! Why a search ended early: its desk granted no further turn, or memory was refused.
ghost use Rattle.std.specs.Prelude.{◌≡◌};
ghost use Rattle.search_traits.specs.declared.halt.Halt.TheVariants.{OutOfMemory};

use std::alloc::{AllocError, AllocFailed};

/// Why a search ended early.
#[derive(Clone, Copy, Debug, PartialEq, Eq)]
pub enum Halt {
    /// The desk granted no further turn.
    TurnsSpent,
    OutOfMemory,
}

impl From<AllocError> for Halt {
    ghost from_gives = { λ _ e. e ≡ OutOfMemory };

    fn from(_e: AllocError) -> Halt {
        Halt::OutOfMemory
    }
}

impl<T: Drop> From<AllocFailed<T>> for Halt {
    ghost from_gives = { λ _ e. e ≡ OutOfMemory };

    fn from(_e: AllocFailed<T>) -> Halt {
        Halt::OutOfMemory
    }
}
