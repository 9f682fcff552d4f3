//! Why rows are not read.

ghost use Rattle.std.specs.Prelude.{◌≡◌};
ghost use Rattle.protox_rows.specs.declared.refused.Refused.TheVariants.{OutOfMemory};

use crate::expected::Expected;
use std::alloc::{AllocError, AllocFailed};

/// Why rows are not read.
#[derive(Debug, Drop)]
pub enum Refused {
    /// Memory ran out.
    OutOfMemory,
    /// The first of the last `left` rows doesn't fit. At 0 the rows end too soon.
    At { left: usize, expected: Expected },
    /// The first of the last `left` rows opens a body that is too deep.
    TooDeep { left: usize },
}

impl From<AllocError> for Refused {
    ghost from_gives = { λ _ e. e ≡ OutOfMemory };

    fn from(_: AllocError) -> Refused {
        Refused::OutOfMemory
    }
}

impl<T: Drop> From<AllocFailed<T>> for Refused {
    ghost from_gives = { λ _ e. e ≡ OutOfMemory };

    fn from(_: AllocFailed<T>) -> Refused {
        Refused::OutOfMemory
    }
}
