//! Types and labels of fields.

ghost use Rattle.std.specs.Prelude.{◌≡◌};
ghost use Rattle.protox_option_checks.specs.Types as words;

use protox_descriptor::descriptor::FieldDescriptorProto;
use protox_descriptor::descriptor::field_descriptor_proto::{FieldType, Label};

/// Whether a field has this type.
pub(crate) fn has_type(of: FieldType, field: &FieldDescriptorProto) -> bool
    ensures { result ≡ words.has_type of field.now }
{
    field.field_type == Some(of as i32)
}

/// Whether it has this label.
pub(crate) fn has_label(of: Label, field: &FieldDescriptorProto) -> bool
    ensures { result ≡ words.has_label of field.now }
{
    field.label == Some(of as i32)
}
