//! Why bytes tell no cave: `IsFaultOfBytes` of specs/Bytes.antt. A part's fault becomes one by specs/Merging.antt.
ghost use Rattle.std.specs.Prelude.{◌≡◌};
ghost use Rattle.cave_reading.specs.Merging.{of_build, of_rows, of_scan};

use crate::fault::BuildFault;
use block_rows::RowsFault;
use scan_core::ScanFault;

/// Why the bytes of a structure and a table tell no cave: the first fault in the order structure, table, blocks.
#[derive(Debug, Drop)]
pub enum CaveFault {
    Scan(ScanFault),
    Table(RowsFault),
    Build(BuildFault),
    OutOfMemory,
}

impl From<ScanFault> for CaveFault {
    ghost from_gives = { λ e r. r ≡ of_scan e };

    fn from(fault: ScanFault) -> CaveFault {
        match fault {
            ScanFault::OutOfMemory => CaveFault::OutOfMemory,
            fault => CaveFault::Scan(fault),
        }
    }
}

impl From<RowsFault> for CaveFault {
    ghost from_gives = { λ e r. r ≡ of_rows e };

    fn from(fault: RowsFault) -> CaveFault {
        match fault {
            RowsFault::OutOfMemory => CaveFault::OutOfMemory,
            fault => CaveFault::Table(fault),
        }
    }
}

impl From<BuildFault> for CaveFault {
    ghost from_gives = { λ e r. r ≡ of_build e };

    fn from(fault: BuildFault) -> CaveFault {
        match fault {
            BuildFault::OutOfMemory => CaveFault::OutOfMemory,
            fault => CaveFault::Build(fault),
        }
    }
}
