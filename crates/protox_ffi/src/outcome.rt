//! What a call leaves with its caller.

ghost use Rattle.std.specs.Prelude.{◌≡◌};
ghost use Rattle.protox_ffi.specs.Answers.{Answered, status_of};

/// Why a call has no bytes.
#[derive(Clone, Copy)]
pub enum Reason {
    /// Nothing is wrong with the source, so there is nothing to report.
    Accepted,
    /// Something is wrong with the source.
    Refused,
    /// Memory ran out.
    OutOfMemory,
    /// The name or the source is not UTF-8.
    NotUtf8,
    /// There would be 2 GiB or more.
    TooLarge,
    /// Some option's value is no float though it should be.
    NotAFloat,
}

/// The status of a buffer that is too short.
const TOO_SHORT: u32 = 3;

/// The status of a call that has no bytes.
pub fn status(reason: Reason) -> u32
    ensures { result ≡ status_of reason }
{
    match reason {
        Reason::Accepted => 0,
        Reason::Refused => 1,
        Reason::OutOfMemory => 2,
        Reason::NotUtf8 => 4,
        Reason::TooLarge => 5,
        Reason::NotAFloat => 6,
    }
}

/// Writes the bytes to `out` if it has room, and how many there are to `len`. Answers `done`, or
/// the status of a buffer that is too short.
pub fn deliver(bytes: &[u8], done: u32, out: &mut [u8], len: &mut usize) -> u32
    ensures { Answered (λ written. written ≡ bytes.now) (λ reason. ⊥) done out.old out.new len.new result }
{
    *len = bytes.len();
    if out.len() < bytes.len() {
        return TOO_SHORT;
    }
    out[..bytes.len()].copy_from_slice(bytes);
    done
}
