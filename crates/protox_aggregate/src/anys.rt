//! Messages `google.protobuf.Any`, and the names of types in brackets.

ghost use Rattle.std.specs.Prelude.{◌≡◌, Err, IfErr, IfOk, Ok, option_map, string_bytes};
ghost use Rattle.protox_aggregate.specs.Anys as words;
ghost use Rattle.protox_aggregate.specs.Names.{dotted_words as words_of};
ghost use Rattle.protox_aggregate.specs.Unsaid.{IfUnsaid};
ghost use Rattle.protox_text_values.specs.Scalars.{shapes_of};

use crate::complete::text_of;
use crate::fault::AggregateFaultKind;
use crate::fields::has_type;
use crate::level::AnyFields;
use crate::names::{dotted_words, is_slash, push_word, word_of};
use crate::unsaid::Unsaid;
use protox_descriptor::descriptor::field_descriptor_proto::FieldType;
use protox_descriptor::descriptor::{FieldDescriptorProto, FileDescriptorProto};
use protox_settings::{is_repeated, message_numbered};
use protox_symbols::Symbols;
use protox_text_format::Piece;
use protox_views::View;
use std::alloc::{AllocError, Global};

// Whether the message is `google.protobuf.Any`.
fn is_any(symbols: &Symbols, message: usize) -> bool
    ensures { result ≡ words.is_any symbols.now message }
{
    match symbols.find(None, "google.protobuf.Any") {
        Some(number) => number == message,
        None => false,
    }
}

// Whether a field has this number and this type, one value, and is of no oneof.
fn is_single(field: &FieldDescriptorProto, number: i32, field_type: FieldType) -> bool
    ensures { result ≡ words.is_single number field_type field.now }
{
    field.number == Some(number)
        && has_type(field, field_type)
        && !is_repeated(field)
        && field.oneof_index().is_none()
}

// The first such field of a message, by its number in the table.
fn single_field(
    symbols: &Symbols,
    message: usize,
    number: i32,
    field_type: FieldType,
    fields: &[FieldDescriptorProto],
) -> Option<usize>
    ensures { result ≡ words.single_field symbols.now message number field_type fields.now }
{
    for field in fields {
        if is_single(field, number, field_type) {
            return symbols.find(Some(message), text_of(field.name.as_ref()));
        }
    }
    None
}

fn fields_by_number(
    symbols: &Symbols,
    message: usize,
    fields: &[FieldDescriptorProto],
) -> Option<AnyFields>
    ensures { result ≡ words.fields_by_number symbols.now message fields.now }
{
    let url = single_field(symbols, message, 1, FieldType::String, fields)?;
    let value = single_field(symbols, message, 2, FieldType::Bytes, fields)?;
    Some(AnyFields { url, value })
}

// The two fields of a message `Any`, if the message is one.
fn any_fields(symbols: &Symbols, files: &[FileDescriptorProto], message: usize) -> Option<AnyFields>
    ensures { result ≡ words.any_fields files.now symbols.now message }
{
    if !is_any(symbols, message) {
        return None;
    }
    let declared = message_numbered(symbols, files, message)?;
    fields_by_number(symbols, message, declared.field.as_slice())
}

/// The two fields of a message `Any`, where a name in brackets stands in one.
pub(crate) fn fields_for(
    symbols: &Symbols,
    files: &[FileDescriptorProto],
    message: usize,
    name: &[Piece<'_>],
) -> Option<AnyFields>
    ensures { result ≡ words.fields_for files.now symbols.now message (shapes_of name.now) }
{
    match word_of(name) {
        Some(_) => None,
        None => any_fields(symbols, files, message),
    }
}

// The words in front of the slash, and the dots between them.
fn domain_of(alloc: Global, pieces: &[Piece<'_>]) -> Result<String, AllocError>
    ensures { IfOk result (λ domain. string_bytes domain
        ≡ words_of (words.before_slash (shapes_of pieces.now))) }
{
    let mut domain = String::new(alloc);
    for piece in pieces {
        if is_slash(&piece.token) {
            return Ok(domain);
        }
        push_word(&mut domain, &piece.token)?;
    }
    Ok(domain)
}

// What stands behind the slash, if there is one.
fn behind_slash<'t, 'a>(pieces: &'t [Piece<'a>]) -> Option<&'t [Piece<'a>]>
    ensures { option_map (λ behind. shapes_of behind.now) result
        ≡ words.behind_slash (shapes_of pieces.entry.now) }
{
    for (at, piece) in pieces.iter().enumerate() {
        if is_slash(&piece.token) {
            return Some(&pieces[at + 1..]);
        }
    }
    None
}

fn is_known_domain(domain: &str) -> bool
    ensures { result ≡ words.is_known_domain domain.now }
{
    domain == "type.googleapis.com" || domain == "type.googleprod.com"
}

// The message with a full name, by its number in the table, if the file sees it.
fn message_called(view: &View<'_>, files: &[FileDescriptorProto], name: &str) -> Option<usize>
    ensures { result ≡ words.message_called files.now view.now.symbols.now view.now.sees.now
        view.now.packages name.now }
{
    let number = view.find(None, name)?;
    match message_numbered(view.symbols, files, number) {
        Some(_) => Some(number),
        None => None,
    }
}

fn known_type(
    view: &View<'_>,
    files: &[FileDescriptorProto],
    domain: &str,
    name: &str,
) -> Option<usize>
    ensures { result ≡ words.known_type files.now view.now.symbols.now view.now.sees.now
        view.now.packages domain.now name.now }
{
    if is_known_domain(domain) {
        message_called(view, files, name)
    } else {
        None
    }
}

// The domain, a slash and the name of a type.
fn address(domain: String, name: &str) -> Result<String, AllocError>
    ensures { IfOk result (λ address. string_bytes address
        ≡ words.address (string_bytes domain) name.now) }
{
    let mut address = domain;
    address.push('/')?;
    address.push_str(name)?;
    Ok(address)
}

/// The type that a name in brackets stands for, by its number in the table, and its address.
pub(crate) fn type_in_text(
    alloc: Global,
    view: &View<'_>,
    files: &[FileDescriptorProto],
    pieces: &[Piece<'_>],
) -> Result<(usize, String), Unsaid>
    ensures ok { IfOk result (λ t. words.type_in_text files.now view.now.symbols.now
        view.now.sees.now view.now.packages (shapes_of pieces.now) ≡ Ok (t.0, string_bytes t.1)) }
    ensures err { IfErr result (λ unsaid. IfUnsaid unsaid (λ kind. words.type_in_text files.now
        view.now.symbols.now view.now.sees.now view.now.packages (shapes_of pieces.now)
        ≡ Err kind)) }
{
    let Some(behind) = behind_slash(pieces) else {
        return Err(Unsaid::Fault(AggregateFaultKind::NoSlash));
    };
    let domain = domain_of(alloc, pieces)?;
    let name = dotted_words(alloc, behind)?;
    match known_type(view, files, domain.as_str(), name.as_str()) {
        Some(message) => Ok((message, address(domain, name.as_str())?)),
        None => Err(Unsaid::Fault(AggregateFaultKind::UnknownType)),
    }
}
