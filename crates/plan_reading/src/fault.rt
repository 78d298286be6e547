//! Why a plan's text gives a cave no torches: `IsPlanFault` of specs/Placed.antt; its words are in specs/Texts.antt.
ghost use Rattle.std.specs.Prelude.{◌≡◌};
ghost use Rattle.plan_reading.specs.declared.fault.TorchesFault.TheVariants.{OutOfMemory};

use std::alloc::{AllocError, AllocFailed};
use std::error::Error;
use std::fmt;

/// Why a plan's text gives a cave no torches. The words of its text are those of a fault line.
#[derive(Clone, Copy, Debug, PartialEq, Eq)]
pub enum TorchesFault {
    /// The first line that no plan has there; lines are counted from 1.
    Syntax { line: u64 },
    /// The first torch that may not go where the text tells it.
    Illegal { x: u32, y: u32, z: u32 },
    OutOfMemory,
}

impl fmt::Display for TorchesFault {
    ghost use Rattle.std.specs.Prelude.{Some};
    ghost use Rattle.plan_reading.specs.Texts.{fault_text};

    ghost output = { λ fault. Some (fault_text fault) };

    fn fmt<W: fmt::Write>(&self, f: &mut fmt::Formatter<W>) -> fmt::Result {
        match self {
            TorchesFault::Syntax { line } => write!(f, "plan: syntax line {line}"),
            TorchesFault::Illegal { x, y, z } => write!(f, "plan: illegal torch {x} {y} {z}"),
            TorchesFault::OutOfMemory => write!(f, "out of memory"),
        }
    }
}

impl Error for TorchesFault {}

impl From<AllocError> for TorchesFault {
    ghost from_gives = { λ _ e. e ≡ OutOfMemory };

    fn from(_e: AllocError) -> TorchesFault {
        TorchesFault::OutOfMemory
    }
}

impl<T: Drop> From<AllocFailed<T>> for TorchesFault {
    ghost from_gives = { λ _ e. e ≡ OutOfMemory };

    fn from(_e: AllocFailed<T>) -> TorchesFault {
        TorchesFault::OutOfMemory
    }
}
