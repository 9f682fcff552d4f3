ghost use Rattle.std.specs.Prelude.{◌≡◌};
ghost use Rattle.protox_encode.specs.declared.fault.EncodeError.TheVariants.{OutOfMemory};

use std::alloc::AllocError;

/// Why a descriptor can't be encoded.
#[derive(Clone, Copy, PartialEq, Eq, Debug)]
pub enum EncodeError {
    /// It takes 2 GiB or more. Messages of Protocol Buffers are smaller.
    TooLarge,
    /// Some `double_value` is not the text of a float.
    NotAFloat,
    /// Memory ran out.
    OutOfMemory,
}

impl From<AllocError> for EncodeError {
    ghost from_gives = { λ _ e. e ≡ OutOfMemory };

    fn from(_e: AllocError) -> EncodeError {
        EncodeError::OutOfMemory
    }
}
