//! Fields, with their defaults printed anew.

ghost use Rattle.std.specs.Prelude.{◌≡◌, OnOk, map};
ghost use Rattle.protox_float_defaults.specs.Printed.{with_new_default};

use crate::texts::new_text;
use protox_descriptor::descriptor::FieldDescriptorProto;
use protox_descriptor::values::{Items, Text};
use std::alloc::{AllocError, Global};
use std::mem::replace;

// Prints the default of a field anew, if it is one of a float.
fn print_field(alloc: Global, field: &mut FieldDescriptorProto) -> Result<(), AllocError>
    ensures { OnOk result (field.new ≡ with_new_default field.old) }
{
    let Some(text) = field.default_value() else {
        return Ok(());
    };
    let Some(made) = new_text(alloc, field.field_type, text.as_str())? else {
        return Ok(());
    };
    field.set_default_value(alloc, Some(Text::from_string(made)))
}

/// Prints the defaults of fields anew, or of extensions. After an `AllocError` the list is empty.
pub(crate) fn print_fields(
    alloc: Global,
    fields: &mut Items<FieldDescriptorProto>,
) -> Result<(), AllocError>
    ensures { OnOk result (fields.new ≡ map with_new_default fields.old) }
{
    let mut list = replace(fields, Items::new(alloc)).into_vec();
    for field in list.iter_mut() {
        print_field(alloc, field)?;
    }
    *fields = Items::from_vec(list);
    Ok(())
}
