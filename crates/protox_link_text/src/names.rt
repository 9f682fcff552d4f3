//! Names that errors speak of.

ghost use Rattle.std.specs.Prelude.{◌≡◌, IfOk};
ghost use Rattle.protox_link_text.specs.Named.{default_in, default_of, field_named, import_named};
ghost use Rattle.protox_link_text.specs.Named.{method_named, named_in};
ghost use Rattle.protox_link_text.specs.Named.{named_in_message, oneof_named, value_named};
ghost use Rattle.protox_link_text.specs.Places.{holder_of};
ghost use Rattle.protox_link_text.specs.Told.{file_of, is_of_file};
ghost use Rattle.protox_name_tree.specs.Tree.{name_at};

use crate::lists::{at_index, file_name, text_of};
use crate::place::{Inside, Place};
use protox_descriptor::descriptor::{
    DescriptorProto, EnumValueDescriptorProto, FieldDescriptorProto, FileDescriptorProto,
    MethodDescriptorProto, OneofDescriptorProto,
};
use protox_descriptor::tag::message::{EXTENSION, FIELD};
use protox_descriptor::values::Text;
use protox_symbols::Symbols;
use std::alloc::{AllocError, Global};

fn field_named(fields: &[FieldDescriptorProto], index: i32) -> &str
    ensures { result.now ≡ field_named fields.now index }
{
    match at_index(fields, index) {
        Some(field) => text_of(field.name.as_ref()),
        None => "",
    }
}

/// The name of the value with an index.
pub(crate) fn value_named(values: &[EnumValueDescriptorProto], index: i32) -> &str
    ensures { result.now ≡ value_named values.now index }
{
    match at_index(values, index) {
        Some(value) => text_of(value.name.as_ref()),
        None => "",
    }
}

fn oneof_named(oneofs: &[OneofDescriptorProto], index: i32) -> &str
    ensures { result.now ≡ oneof_named oneofs.now index }
{
    match at_index(oneofs, index) {
        Some(oneof) => text_of(oneof.name.as_ref()),
        None => "",
    }
}

fn method_named(methods: &[MethodDescriptorProto], index: i32) -> &str
    ensures { result.now ≡ method_named methods.now index }
{
    match at_index(methods, index) {
        Some(method) => text_of(method.name.as_ref()),
        None => "",
    }
}

// The name of a field, an extension or a oneof of a message.
fn named_in_message(of: &DescriptorProto, tag: i32, index: i32) -> &str
    ensures { result.now ≡ named_in_message of.now tag index }
{
    if tag == FIELD {
        return field_named(of.field.as_slice(), index);
    }
    if tag == EXTENSION {
        return field_named(of.extension.as_slice(), index);
    }
    oneof_named(of.oneof_decl.as_slice(), index)
}

/// The name of the declaration at a place: of what the path leads into, or of a part of that.
pub(crate) fn named_in<'a>(inside: Inside<'a>, rest: &[i32]) -> &'a str
    ensures { result.now ≡ named_in (holder_of inside.entry) rest.now }
{
    match (inside, rest) {
        (Inside::File(f), [_, n, ..]) => field_named(f.extension.as_slice(), *n),
        (Inside::Message(m), [tag, n, ..]) => named_in_message(m, *tag, *n),
        (Inside::Enum(e), [_, n, ..]) => value_named(e.value.as_slice(), *n),
        (Inside::Service(s), [_, n, ..]) => method_named(s.method.as_slice(), *n),
        (Inside::File(f), _) => text_of(f.package.as_ref()),
        (Inside::Message(m), _) => text_of(m.name.as_ref()),
        (Inside::Enum(e), _) => text_of(e.name.as_ref()),
        (Inside::Service(s), _) => text_of(s.name.as_ref()),
    }
}

// The default of a field.
fn default_of(fields: &[FieldDescriptorProto], index: i32) -> &str
    ensures { result.now ≡ default_of fields.now index }
{
    match at_index(fields, index) {
        Some(field) => text_of(field.default_value()),
        None => "",
    }
}

/// The default of the field or the extension at a place.
pub(crate) fn default_in<'a>(inside: Inside<'a>, rest: &[i32]) -> &'a str
    ensures { result.now ≡ default_in (holder_of inside.entry) rest.now }
{
    match (inside, rest) {
        (Inside::File(f), [_, n, ..]) => default_of(f.extension.as_slice(), *n),
        (Inside::Message(m), [tag, n, ..]) => {
            if *tag == FIELD {
                default_of(m.field.as_slice(), *n)
            } else {
                default_of(m.extension.as_slice(), *n)
            }
        }
        _ => "",
    }
}

/// The import at a place.
pub(crate) fn import_named<'a>(inside: Inside<'a>, rest: &[i32]) -> &'a str
    ensures { result.now ≡ import_named (holder_of inside.entry) rest.now }
{
    match (inside, rest) {
        (Inside::File(f), [_, n, ..]) => text_of(at_index(f.dependency.as_slice(), *n)),
        _ => "",
    }
}

/// The full name with a number.
///
/// # Errors
/// `AllocError` where memory runs out.
pub(crate) fn full_name(alloc: Global, symbols: &Symbols, number: usize) -> Result<Text, AllocError>
    ensures { IfOk result (λ made. made ≡ name_at symbols.now.names number) }
{
    let dotted = symbols.dotted(alloc, number)?;
    match dotted.as_str().strip_prefix('.') {
        Some(name) => Text::copy(alloc, name),
        None => Text::copy(alloc, ""),
    }
}

/// The name of the file that declares what has a number.
pub(crate) fn file_of<'a>(
    files: &'a [FileDescriptorProto],
    symbols: &Symbols,
    number: usize,
) -> &'a str
    ensures { result.now ≡ file_of files.now symbols.now number }
{
    match symbols.thing(number) {
        Some(thing) => file_name(files, thing.file),
        None => "",
    }
}

/// Whether the file with this number declares what has a number.
pub(crate) fn is_of_file(
    files: &[FileDescriptorProto],
    symbols: &Symbols,
    file: usize,
    number: usize,
) -> bool
    ensures { result ≡ is_of_file files.now symbols.now file number }
{
    match symbols.thing(number) {
        Some(thing) => thing.file == file,
        None => false,
    }
}
