//! Why there is no verdict: specs/Faults.antt.
ghost use Rattle.std.specs.Prelude.{◌≡◌};
ghost use Rattle.proof_check.specs.Faults.{check_fault_of};
ghost use Rattle.proof_check.specs.declared.fault.CheckFault.TheVariants.{OutOfMemory};

use block_rows::RowsFault;
use cave_reading::{BuildFault, CaveFault};
use scan_core::ScanFault;
use std::alloc::AllocError;
use std::error::Error;
use std::fmt;

/// Why there is no verdict. Its text is the fault line without `torchplan: ` in front.
#[derive(Debug, Drop)]
pub enum CheckFault {
    Scan(ScanFault),
    Table(RowsFault),
    Build(BuildFault),
    /// A read of the certificate failed.
    ReadFailed,
    /// The certificate has more bytes than the limit.
    TooLong,
    OutOfMemory,
}

impl fmt::Display for CheckFault {
    ghost use Rattle.std.specs.Prelude.{Some};
    ghost use Rattle.proof_check.specs.Texts.{fault_text};

    ghost output = { λ fault. Some (fault_text fault) };

    fn fmt<W: fmt::Write>(&self, f: &mut fmt::Formatter<W>) -> fmt::Result {
        match self {
            CheckFault::Scan(fault) => write!(f, "{fault}"),
            CheckFault::Table(fault) => write!(f, "{fault}"),
            CheckFault::Build(fault) => write!(f, "{fault}"),
            CheckFault::ReadFailed => write!(f, "cannot read"),
            CheckFault::TooLong => write!(f, "proof: file too long"),
            CheckFault::OutOfMemory => write!(f, "out of memory"),
        }
    }
}

impl Error for CheckFault {}

impl From<CaveFault> for CheckFault {
    ghost from_gives = { λ e r. r ≡ check_fault_of e };

    fn from(fault: CaveFault) -> CheckFault {
        match fault {
            CaveFault::Scan(fault) => CheckFault::Scan(fault),
            CaveFault::Table(fault) => CheckFault::Table(fault),
            CaveFault::Build(fault) => CheckFault::Build(fault),
            CaveFault::OutOfMemory => CheckFault::OutOfMemory,
        }
    }
}

impl From<AllocError> for CheckFault {
    ghost from_gives = { λ _ r. r ≡ OutOfMemory };

    fn from(_e: AllocError) -> CheckFault {
        CheckFault::OutOfMemory
    }
}
