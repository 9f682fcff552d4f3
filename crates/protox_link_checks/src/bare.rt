//! Messages without extensions, and messages without extension ranges: most are so, and are passed by.

ghost use Rattle.std.specs.Prelude.{◌≡◌, None, false, All};
ghost use Rattle.protox_link_checks.specs.inner.Bare.{ExtendsNothing, HasNoRanges};

use protox_descriptor::descriptor::{DescriptorProto, FieldDescriptorProto};

/// Whether any of the fields may be an extension.
pub(crate) fn may_extend(fields: &[FieldDescriptorProto]) -> bool
    ensures { result ≡ false → All (λ field. field.extendee ≡ None) fields.now }
{
    for field in fields {
        if field.extendee().is_some() {
            return true;
        }
    }
    false
}

/// Whether any of the messages may have an extension in it.
#[cycle(held)]
pub(crate) fn may_hold_extensions(messages: &[DescriptorProto]) -> bool
    ensures { result ≡ false → All ExtendsNothing messages.now }
{
    for message in messages {
        if may_extend(message.field.as_slice())
            || may_extend(message.extension.as_slice())
            || may_hold_extensions(message.nested_type.as_slice())
        {
            return true;
        }
    }
    false
}

/// Whether any of the messages, or one inside them, has an extension range.
#[cycle(nested)]
pub(crate) fn may_have_ranges(messages: &[DescriptorProto]) -> bool
    ensures { result ≡ false → All HasNoRanges messages.now }
{
    for message in messages {
        if !message.extension_range.is_empty() || may_have_ranges(message.nested_type.as_slice()) {
            return true;
        }
    }
    false
}
