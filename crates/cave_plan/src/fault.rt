//! Why a cave has no plan: specs/Faults.antt.
ghost use Rattle.std.specs.Prelude.{◌≡◌, ◌≢◌};
ghost use Rattle.cave_plan.specs.Faults.{of_cover};
ghost use Rattle.cave_problem.specs.Coverage.{IsUnlightableFault};
ghost use Rattle.cave_problem.specs.declared.fault.CoverFault.{CoverFault};
ghost use Rattle.cave_plan.specs.declared.fault.PlanFault.TheVariants.{OutOfMemory};

use cave_base::coordinates;
use cave_model::World;
use cave_problem::CoverFault;
use std::alloc::{AllocError, AllocFailed};

/// Why a cave has no plan.
#[derive(Clone, Copy, Debug, PartialEq, Eq)]
pub enum PlanFault {
    /// The least dark cell that no place lights, by its coordinates.
    Unlightable { x: u32, y: u32, z: u32 },
    /// No worker could be started.
    NoThread,
    OutOfMemory,
}

/// Why a world has no coverage, as why it has no plan.
pub(crate) fn plan_fault(world: &World, fault: CoverFault) -> PlanFault
    requires { fault ≢ CoverFault.OutOfMemory → IsUnlightableFault world.now fault }
    ensures { result ≡ of_cover world.now.size fault }
{
    match fault {
        CoverFault::Unlightable { cell } => {
            let [x, y, z] = coordinates(world.size(), cell);
            PlanFault::Unlightable { x, y, z }
        }
        CoverFault::OutOfMemory => PlanFault::OutOfMemory,
    }
}

impl From<AllocError> for PlanFault {
    ghost from_gives = { λ _ e. e ≡ OutOfMemory };

    fn from(_e: AllocError) -> PlanFault {
        PlanFault::OutOfMemory
    }
}

impl<T: Drop> From<AllocFailed<T>> for PlanFault {
    ghost from_gives = { λ _ e. e ≡ OutOfMemory };

    fn from(_e: AllocFailed<T>) -> PlanFault {
        PlanFault::OutOfMemory
    }
}
