//! Files, with the defaults of floats printed anew.

ghost use Rattle.std.specs.Prelude.{◌≡◌, OnOk};
ghost use Rattle.protox_float_defaults.specs.Printed.{printed_file};

use crate::fields::print_fields;
use crate::message::print_messages;
use protox_descriptor::descriptor::FileDescriptorProto;
use std::alloc::{AllocError, Global};

/// Prints the default of each float of a file anew, as protobuf's C++ prints numbers: with 15 digits
/// where a reader takes them for the same number, and else with 17; of 32 bits with 6 or 9.
///
/// A text that is none of a float stays. Nothing but such defaults is changed. After an `AllocError`
/// some may be printed, and some of the file's lists may be empty, so let go of it.
///
/// ```
/// // `float f = 1 [default = 1e3];`
/// print_defaults(alloc, &mut file)?;
/// // Its default is `1000` now.
/// ```
pub fn print_defaults(alloc: Global, file: &mut FileDescriptorProto) -> Result<(), AllocError>
    ensures { OnOk result (file.new ≡ printed_file file.old) }
{
    print_messages(alloc, &mut file.message_type)?;
    print_fields(alloc, &mut file.extension)
}
