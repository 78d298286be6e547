//! Why a run was refused, and its fault line: specs/Faults.antt and specs/Texts.antt.
ghost use Rattle.std.specs.Prelude.{◌≡◌};
ghost use Rattle.cave_runs.specs.Faults.{run_fault_of, of_check, of_plan, of_torches, of_write};
ghost use Rattle.cave_runs.specs.declared.fault.RunFault.TheVariants.{OutOfMemory};

use block_rows::RowsFault;
use cave_plan::PlanFault;
use cave_reading::{BuildFault, CaveFault};
use certificate_text::WriteFault;
use plan_reading::TorchesFault;
use proof_check::CheckFault;
use scan_core::ScanFault;
use std::alloc::AllocError;
use thiserror::Error;

/// An input of a run.
#[derive(Clone, Copy, Debug, PartialEq, Eq)]
pub enum Input {
    StructureInput,
    TableInput,
    PlanInput,
    ProofInput,
}

/// Why a run was refused. Its text is the fault line without `torchplan: ` in front.
#[derive(Debug, Drop, Error)]
pub enum RunFault {
    #[error("cannot read")]
    ReadFailed,
    #[error("{word}: file too long", word = .0.word())]
    TooLong(Input),
    #[error("cannot write")]
    WriteFailed,
    #[error("{0}")]
    Scan(ScanFault),
    #[error("{0}")]
    Table(RowsFault),
    #[error("{0}")]
    Build(BuildFault),
    #[error("{0}")]
    Plan(TorchesFault),
    #[error("unlightable {x} {y} {z}")]
    Unlightable { x: u32, y: u32, z: u32 },
    #[error("no thread")]
    NoThread,
    #[error("out of memory")]
    OutOfMemory,
}

impl Input {
    ghost use Rattle.cave_runs.specs.Texts.{input_text};

    /// Its word in a fault line.
    pub fn word(&self) -> &'static str
        ensures { result.now ≡ input_text self.now }
    {
        match self {
            Input::StructureInput => "structure",
            Input::TableInput => "table",
            Input::PlanInput => "plan",
            Input::ProofInput => "proof",
        }
    }
}

impl From<CaveFault> for RunFault {
    ghost from_gives = { λ e r. r ≡ run_fault_of e };

    fn from(fault: CaveFault) -> RunFault {
        match fault {
            CaveFault::Scan(fault) => RunFault::Scan(fault),
            CaveFault::Table(fault) => RunFault::Table(fault),
            CaveFault::Build(fault) => RunFault::Build(fault),
            CaveFault::OutOfMemory => RunFault::OutOfMemory,
        }
    }
}

impl From<TorchesFault> for RunFault {
    ghost from_gives = { λ e r. r ≡ of_torches e };

    fn from(fault: TorchesFault) -> RunFault {
        match fault {
            TorchesFault::OutOfMemory => RunFault::OutOfMemory,
            fault => RunFault::Plan(fault),
        }
    }
}

impl From<PlanFault> for RunFault {
    ghost from_gives = { λ e r. r ≡ of_plan e };

    fn from(fault: PlanFault) -> RunFault {
        match fault {
            PlanFault::Unlightable { x, y, z } => RunFault::Unlightable { x, y, z },
            PlanFault::NoThread => RunFault::NoThread,
            PlanFault::OutOfMemory => RunFault::OutOfMemory,
        }
    }
}

impl From<CheckFault> for RunFault {
    ghost from_gives = { λ e r. r ≡ of_check e };

    fn from(fault: CheckFault) -> RunFault {
        match fault {
            CheckFault::Scan(fault) => RunFault::Scan(fault),
            CheckFault::Table(fault) => RunFault::Table(fault),
            CheckFault::Build(fault) => RunFault::Build(fault),
            CheckFault::ReadFailed => RunFault::ReadFailed,
            CheckFault::TooLong => RunFault::TooLong(Input::ProofInput),
            CheckFault::OutOfMemory => RunFault::OutOfMemory,
        }
    }
}

impl From<WriteFault> for RunFault {
    ghost from_gives = { λ e r. r ≡ of_write e };

    fn from(fault: WriteFault) -> RunFault {
        match fault {
            WriteFault::WriteFailed => RunFault::WriteFailed,
            WriteFault::OutOfMemory => RunFault::OutOfMemory,
        }
    }
}

impl From<AllocError> for RunFault {
    ghost from_gives = { λ _ r. r ≡ OutOfMemory };

    fn from(_e: AllocError) -> RunFault {
        RunFault::OutOfMemory
    }
}
