//! The exit status of a refused run: `status` of specs/Status.antt.
ghost use Rattle.std.specs.Prelude.{◌≡◌};
ghost use Rattle.run_system.specs.Status.{status};

use cave_runs::RunFault;

/// The exit status of a refused run: 1 refused input, 3 a cell that no torch lights, 6 reading or writing failed,
/// 7 memory or threads refused (this project's own).
pub fn status_of(fault: &RunFault) -> u8
    ensures { result ≡ status fault.now }
{
    match fault {
        RunFault::TooLong(_)
        | RunFault::Scan(_)
        | RunFault::Table(_)
        | RunFault::Build(_)
        | RunFault::Plan(_) => 1,
        RunFault::Unlightable { .. } => 3,
        RunFault::ReadFailed | RunFault::WriteFailed => 6,
        RunFault::NoThread | RunFault::OutOfMemory => 7,
    }
}
