//! Why a step says nothing.

use crate::fault::AggregateFaultKind;
use std::alloc::{AllocError, AllocFailed};

// Why a step says nothing.
#[derive(Clone, Copy)]
pub(crate) enum Unsaid {
    Fault(AggregateFaultKind),
    OutOfMemory,
}

impl<T: Drop> From<AllocFailed<T>> for Unsaid {
    ghost use Rattle.std.specs.Prelude.{◌≡◌};
    ghost use Rattle.protox_aggregate.specs.declared.unsaid.Unsaid.TheVariants.{OutOfMemory};

    ghost from_gives = { λ _ unsaid. unsaid ≡ OutOfMemory };

    fn from(_error: AllocFailed<T>) -> Unsaid {
        Unsaid::OutOfMemory
    }
}

impl From<AllocError> for Unsaid {
    ghost use Rattle.std.specs.Prelude.{◌≡◌};
    ghost use Rattle.protox_aggregate.specs.declared.unsaid.Unsaid.TheVariants.{OutOfMemory};

    ghost from_gives = { λ _ unsaid. unsaid ≡ OutOfMemory };

    fn from(_error: AllocError) -> Unsaid {
        Unsaid::OutOfMemory
    }
}
