//! Messages, with the defaults of their fields printed anew, and those in them.

ghost use Rattle.std.specs.Prelude.{◌≡◌, OnOk, map};
ghost use Rattle.protox_float_defaults.specs.Printed.{printed_message};

use crate::fields::print_fields;
use protox_descriptor::descriptor::DescriptorProto;
use protox_descriptor::values::Items;
use std::alloc::{AllocError, Global};
use std::mem::replace;

// Prints the defaults in a message anew. After an `AllocError` some may be printed, and a list in the
// message may be empty.
#[cycle(nested)]
fn print_message(alloc: Global, message: &mut DescriptorProto) -> Result<(), AllocError>
    ensures { OnOk result (message.new ≡ printed_message message.old) }
{
    print_messages(alloc, &mut message.nested_type)?;
    print_fields(alloc, &mut message.field)?;
    print_fields(alloc, &mut message.extension)
}

/// Prints the defaults in messages anew. After an `AllocError` the list is empty.
#[cycle(nested)]
pub(crate) fn print_messages(
    alloc: Global,
    messages: &mut Items<DescriptorProto>,
) -> Result<(), AllocError>
    ensures { OnOk result (messages.new ≡ map printed_message messages.old) }
{
    let mut list = replace(messages, Items::new(alloc)).into_vec();
    for message in list.iter_mut() {
        print_message(alloc, message)?;
    }
    *messages = Items::from_vec(list);
    Ok(())
}
