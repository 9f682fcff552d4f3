//! Places in a file where statements of options stand.

ghost use Rattle.std.specs.Prelude.{◌≡◌, IfOk};
ghost use Rattle.protox_file_options.specs.Places.{options_tag, options_type, path_of_range};
ghost use Rattle.protox_file_options.specs.Places.{ranges_of, scope_around};
ghost use Rattle.protox_file_options.specs.Places.{statements_of_file, statements_of_range};
ghost use Rattle.protox_walk.specs.Declarations.{text_of};
ghost use Rattle.protox_walk.specs.Parts.{part_of};

use protox_descriptor::descriptor::descriptor_proto::ExtensionRange;
use protox_descriptor::descriptor::{FileDescriptorProto, UninterpretedOption};
use protox_descriptor::tag::message::EXTENSION_RANGE;
use protox_descriptor::tag::message::extension_range::OPTIONS;
use protox_descriptor::tag::{enum_, enum_value, field, message, method, oneof, service};
use protox_descriptor::uninterpreted::HasUninterpreted;
use protox_descriptor::values::Numbers;
use protox_names::enclosing;
use protox_walk::Part;
use std::alloc::{AllocError, Global};

// The full name of the type of a part's options.
pub(crate) fn options_type(part: &Part<'_>) -> &'static str
    ensures { result.now ≡ options_type (part_of part.now) }
{
    match part {
        Part::Message(_) => "google.protobuf.MessageOptions",
        Part::Field(_) => "google.protobuf.FieldOptions",
        Part::Oneof(_) => "google.protobuf.OneofOptions",
        Part::Enum(_) => "google.protobuf.EnumOptions",
        Part::Value(_) => "google.protobuf.EnumValueOptions",
        Part::Service(_) => "google.protobuf.ServiceOptions",
        Part::Method(_) => "google.protobuf.MethodOptions",
    }
}

// The number of the field `options` in a part's descriptor.
pub(crate) fn options_tag(part: &Part<'_>) -> i32
    ensures { result ≡ options_tag (part_of part.now) }
{
    match part {
        Part::Message(_) => message::OPTIONS,
        Part::Field(_) => field::OPTIONS,
        Part::Oneof(_) => oneof::OPTIONS,
        Part::Enum(_) => enum_::OPTIONS,
        Part::Value(_) => enum_value::OPTIONS,
        Part::Service(_) => service::OPTIONS,
        Part::Method(_) => method::OPTIONS,
    }
}

// The extension ranges of a part. Only a message has any.
pub(crate) fn ranges_of<'a>(part: &Part<'a>) -> &'a [ExtensionRange]
    ensures { result.now ≡ ranges_of (part_of part.now) }
{
    match part {
        Part::Message(message) => message.extension_range.as_slice(),
        _ => &[],
    }
}

// The full name of the scope in which what has this full name stands.
pub(crate) fn scope_around(full_name: &str) -> &str
    ensures { result.now ≡ scope_around full_name.now }
{
    match enclosing(full_name) {
        Some(scope) => scope,
        None => "",
    }
}

// The package of a file; the empty text, if it has none.
pub(crate) fn package_of(file: &FileDescriptorProto) -> &str
    ensures { result.now ≡ text_of file.now.«package» }
{
    match &file.package {
        Some(package) => package.as_str(),
        None => "",
    }
}

// The statements of a file as a whole.
pub(crate) fn statements_of_file(file: &FileDescriptorProto) -> &[UninterpretedOption]
    ensures { result.now ≡ statements_of_file file.now }
{
    match &file.options {
        Some(options) => options.uninterpreted(),
        None => &[],
    }
}

// The statements of an extension range.
pub(crate) fn statements_of_range(range: &ExtensionRange) -> &[UninterpretedOption]
    ensures { result.now ≡ statements_of_range range.now }
{
    match &range.options {
        Some(options) => options.uninterpreted(),
        None => &[],
    }
}

// The path of the options of the extension range at an index of a message.
pub(crate) fn path_of_range(
    alloc: Global,
    path: &[i32],
    index: usize,
) -> Result<Numbers, AllocError>
    ensures { IfOk result (λ made. made ≡ path_of_range path.now index) }
{
    if index > 2147483647 {
        return Err(AllocError);
    }
    Numbers::joined(alloc, path, &[EXTENSION_RANGE, index as i32, OPTIONS])
}
