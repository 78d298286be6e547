//! Why a structure is no cave: `IsUnknownBlock` of specs/World.antt; its words are in specs/Texts.antt.
ghost use Rattle.std.specs.Prelude.{◌≡◌};
ghost use Rattle.cave_reading.specs.declared.fault.BuildFault.TheVariants.{OutOfMemory};

use crate::name::ShownName;
use cave_base::Sequence;
use std::alloc::{AllocError, AllocFailed};
use std::error::Error;
use std::fmt;

/// Why a structure is no cave.
#[derive(Debug, Drop)]
pub enum BuildFault {
    /// No row fits the block state with this index into the palette, which a cell names; its name.
    UnknownBlock { index: usize, name: Sequence<u8> },
    OutOfMemory,
}

impl fmt::Display for BuildFault {
    ghost use Rattle.std.specs.Prelude.{Some};
    ghost use Rattle.cave_reading.specs.Texts.{fault_text};

    ghost output = { λ fault. Some (fault_text fault) };

    fn fmt<W: fmt::Write>(&self, f: &mut fmt::Formatter<W>) -> fmt::Result {
        match self {
            BuildFault::UnknownBlock { index: _, name } => {
                write!(f, "unknown block {}", ShownName::new(name.as_slice()))
            }
            BuildFault::OutOfMemory => write!(f, "out of memory"),
        }
    }
}

impl Error for BuildFault {}

impl From<AllocError> for BuildFault {
    ghost from_gives = { λ _ e. e ≡ OutOfMemory };

    fn from(_e: AllocError) -> BuildFault {
        BuildFault::OutOfMemory
    }
}

impl<T: Drop> From<AllocFailed<T>> for BuildFault {
    ghost from_gives = { λ _ e. e ≡ OutOfMemory };

    fn from(_e: AllocFailed<T>) -> BuildFault {
        BuildFault::OutOfMemory
    }
}
