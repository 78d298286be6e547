//! Why bytes are no NBT root: `FaultOf` of specs/Breaking.antt; its words are in specs/Texts.antt.
ghost use Rattle.std.specs.Prelude.{◌≡◌};
ghost use Rattle.nbt_core.specs.declared.fault.NbtFault.TheVariants.{OutOfMemory};

use std::alloc::{AllocError, AllocFailed};
use std::error::Error;
use std::fmt;

/// Why bytes are no NBT root: the first fault from the front. A place is an offset from 0. The
/// faults and their order are this project's own.
#[derive(Clone, Copy, Debug, PartialEq, Eq)]
pub enum NbtFault {
    /// The bytes begin as gzip data.
    Compressed,
    /// The input ends inside the root. `at` is its length.
    Truncated { at: usize },
    /// No kind has this id. `at` is the id's place.
    BadTag { at: usize, id: u8 },
    /// The root is no compound.
    NotCompound,
    /// A negative count of an array, or a positive one of a list of End. `at` is the count's first byte.
    BadLength { at: usize },
    /// A list or compound would have depth 513. `at` is its payload's first byte.
    TooDeep { at: usize },
    /// Memory was refused.
    OutOfMemory,
}

impl fmt::Display for NbtFault {
    ghost use Rattle.std.specs.Prelude.{Some};
    ghost use Rattle.nbt_core.specs.Texts.{fault_text};

    ghost output = { λ fault. Some (fault_text fault) };

    fn fmt<W: fmt::Write>(&self, f: &mut fmt::Formatter<W>) -> fmt::Result {
        match self {
            NbtFault::Compressed => write!(f, "nbt: compressed"),
            NbtFault::Truncated { at } => write!(f, "nbt: truncated at {at}"),
            NbtFault::BadTag { at, id } => write!(f, "nbt: bad tag {id} at {at}"),
            NbtFault::NotCompound => write!(f, "nbt: root is no compound"),
            NbtFault::BadLength { at } => write!(f, "nbt: bad length at {at}"),
            NbtFault::TooDeep { at } => write!(f, "nbt: too deep at {at}"),
            NbtFault::OutOfMemory => write!(f, "out of memory"),
        }
    }
}

impl Error for NbtFault {}

impl From<AllocError> for NbtFault {
    ghost from_gives = { λ _ e. e ≡ OutOfMemory };

    fn from(_e: AllocError) -> NbtFault {
        NbtFault::OutOfMemory
    }
}

impl<T: Drop> From<AllocFailed<T>> for NbtFault {
    ghost from_gives = { λ _ e. e ≡ OutOfMemory };

    fn from(_e: AllocFailed<T>) -> NbtFault {
        NbtFault::OutOfMemory
    }
}
