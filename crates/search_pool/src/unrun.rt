//! Why workers didn't run. As a fault of the plan it is told as
//! `fault_of` of specs/Unruns.antt says.
ghost use Rattle.std.specs.Prelude.{◌≡◌};
ghost use Rattle.search_pool.specs.declared.unrun.Unrun.TheVariants.{OutOfMemory};

use search_traits::RegionFault;
use std::alloc::{AllocError, AllocFailed};

/// Why workers didn't run.
#[derive(Clone, Copy, Debug, PartialEq, Eq)]
pub(crate) enum Unrun {
    /// None could be started, or a slot or a result was found wrong.
    NoThread,
    OutOfMemory,
}

impl From<AllocError> for Unrun {
    ghost from_gives = { λ _ e. e ≡ OutOfMemory };

    fn from(_e: AllocError) -> Unrun {
        Unrun::OutOfMemory
    }
}

impl<T: Drop> From<AllocFailed<T>> for Unrun {
    ghost from_gives = { λ _ e. e ≡ OutOfMemory };

    fn from(_e: AllocFailed<T>) -> Unrun {
        Unrun::OutOfMemory
    }
}

impl From<Unrun> for RegionFault {
    ghost use Rattle.std.specs.Prelude.{◌≡◌};
    ghost use Rattle.search_pool.specs.Unruns.{fault_of};

    ghost from_gives = { λ unrun fault. fault ≡ fault_of unrun };

    fn from(unrun: Unrun) -> RegionFault {
        match unrun {
            Unrun::NoThread => RegionFault::NoThread,
            Unrun::OutOfMemory => RegionFault::OutOfMemory,
        }
    }
}
