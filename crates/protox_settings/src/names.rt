//! Which fields the name of an option goes through.

ghost use Rattle.std.specs.Prelude.{◌≡◌, IfErr, IfOk, true};
ghost use Rattle.std.specs.Option.{option_copied};
ghost use Rattle.protox_names.specs.Tree.{name_of_place};
ghost use Rattle.protox_name_tree.specs.Tree.{name_at};
ghost use Rattle.protox_settings.specs.Fields.{field_numbered as numbered};
ghost use Rattle.protox_settings.specs.Names as words;
ghost use Rattle.protox_settings.specs.Failure.{IfFault};

use crate::fault::{NameFailure, NameFault, NameFaultKind};
use crate::fields::{field_numbered, is_of, is_repeated, message_of_type};
use protox_descriptor::descriptor::uninterpreted_option::NamePart;
use protox_descriptor::descriptor::{FieldDescriptorProto, FileDescriptorProto};
use protox_scopes::Wanted;
use protox_views::View;
use std::alloc::Global;

// The number of what a part of a name stands for.
fn number_of_part(
    view: &View<'_>,
    scope: Option<usize>,
    message: usize,
    part: &NamePart,
) -> Option<usize>
    ensures { result ≡ words.number_of_part view.now.symbols.now view.now.sees.now
        view.now.packages (name_of_place (name_at view.now.symbols.now.names) scope) message part.now }
{
    if part.is_extension {
        return view.resolve(Wanted::Anything, part.name_part.as_str(), scope);
    }
    view.symbols.find(Some(message), part.name_part.as_str())
}

// Whether the part may stand for the field: the name of an extension stands in parentheses.
fn may_stand(in_parentheses: bool, field: &FieldDescriptorProto) -> bool
    ensures { result ≡ words.may_stand in_parentheses field.now }
{
    in_parentheses || field.extendee().is_none()
}

// The field that has a number, if it is one of the message.
fn field_from(
    view: &View<'_>,
    files: &[FileDescriptorProto],
    message: usize,
    in_parentheses: bool,
    number: usize,
) -> Result<usize, NameFaultKind>
    ensures { result ≡ words.field_from view.now.symbols.now message in_parentheses number
        (numbered files.now view.now.symbols.now number) }
{
    let Some(field) = field_numbered(view.symbols, files, number) else {
        return Err(NameFaultKind::Unknown);
    };
    if !may_stand(in_parentheses, field) {
        return Err(NameFaultKind::Unknown);
    }
    if is_of(view.symbols, message, number, field) {
        Ok(number)
    } else {
        Err(NameFaultKind::OfOtherMessage(message))
    }
}

// The field of the message that a part stands for.
fn field_of_part(
    view: &View<'_>,
    files: &[FileDescriptorProto],
    scope: Option<usize>,
    message: usize,
    part: &NamePart,
) -> Result<usize, NameFaultKind>
    ensures { result ≡ words.field_of_part files.now view.now.symbols.now view.now.sees.now
        view.now.packages (name_of_place (name_at view.now.symbols.now.names) scope) message
        part.now }
{
    match number_of_part(view, scope, message, part) {
        Some(number) => field_from(view, files, message, part.is_extension, number),
        None => Err(NameFaultKind::Unknown),
    }
}

// The message that is the type of a field, if that isn't repeated.
fn inner_of(
    view: &View<'_>,
    files: &[FileDescriptorProto],
    number: usize,
) -> Result<usize, NameFaultKind>
    ensures { result ≡ words.inner_of view.now.symbols.now
        (numbered files.now view.now.symbols.now number) }
{
    let Some(field) = field_numbered(view.symbols, files, number) else {
        return Err(NameFaultKind::NotAMessage);
    };
    match message_of_type(view.symbols, field) {
        None => Err(NameFaultKind::NotAMessage),
        Some(_) if is_repeated(field) => Err(NameFaultKind::Repeated),
        Some(message) => Ok(message),
    }
}

// The field that a part stands for, and the message that the next part is looked for in.
fn step(
    view: &View<'_>,
    files: &[FileDescriptorProto],
    scope: Option<usize>,
    message: usize,
    part: &NamePart,
    last: bool,
) -> Result<(usize, usize), NameFaultKind>
    ensures { result ≡ words.step files.now view.now.symbols.now view.now.sees.now
        view.now.packages (name_of_place (name_at view.now.symbols.now.names) scope) message
        part.now last }
{
    let number = field_of_part(view, files, scope, message, part)?;
    if last {
        return Ok((number, message));
    }
    let inner = inner_of(view, files, number)?;
    Ok((number, inner))
}

// The fields that parts go through, from this message on.
fn fields_from(
    alloc: Global,
    view: &View<'_>,
    files: &[FileDescriptorProto],
    scope: Option<usize>,
    message: usize,
    name: &[NamePart],
) -> Result<Vec<usize>, NameFailure>
    ensures found { IfOk result (λ fields. words.fields_from files.now view.now.symbols.now
        view.now.sees.now view.now.packages
        (name_of_place (name_at view.now.symbols.now.names) scope) 0 message name.now
        ≡ Ok fields.items) }
    ensures fault { IfErr result (λ failure. IfFault failure (λ fault. words.fields_from files.now
        view.now.symbols.now view.now.sees.now view.now.packages
        (name_of_place (name_at view.now.symbols.now.names) scope) 0 message name.now
        ≡ Err fault)) }
{
    let mut fields = Vec::new(alloc);
    let mut message = message;
    let mut index = 0;
    let mut rest = name;
    while let [part, more @ ..] = rest {
        match step(view, files, scope, message, part, more.is_empty()) {
            Ok((field, inner)) => {
                if fields.push(field).is_err() {
                    return Err(NameFailure::OutOfMemory);
                }
                message = inner;
            }
            Err(kind) => return Err(NameFailure::Fault(NameFault { part: index, kind })),
        }
        index += 1;
        rest = more;
    }
    Ok(fields)
}

fn at_front(kind: NameFaultKind) -> NameFailure
    ensures { result ≡ NameFailure.Fault (record { part = 0; kind = kind }) }
{
    NameFailure::Fault(NameFault { part: 0, kind })
}

/// The fields that the name of an option goes through, in a set of linked files: one for each part,
/// by the numbers that they have in the table. The last one is the field that the option sets.
///
/// `message` is the number of the message of options, as `google.protobuf.FieldOptions`. `scope` is
/// the number of the scope in which what has the option stands; of a file, that of its package.
///
/// # Errors
/// `Fault` if the name leads to no field, with the first part where it doesn't. `OutOfMemory` where
/// memory runs out.
pub fn fields_of(
    alloc: Global,
    view: &View<'_>,
    files: &[FileDescriptorProto],
    scope: Option<usize>,
    message: usize,
    name: &[NamePart],
) -> Result<Vec<usize>, NameFailure>
    ensures found { IfOk result (λ fields. words.fields_of files.now view.now.symbols.now
        view.now.sees.now view.now.packages
        (name_of_place (name_at view.now.symbols.now.names) scope) message name.now
        ≡ Ok fields.items) }
    ensures fault { IfErr result (λ failure. IfFault failure (λ fault. words.fields_of files.now
        view.now.symbols.now view.now.sees.now view.now.packages
        (name_of_place (name_at view.now.symbols.now.names) scope) message name.now
        ≡ Err fault)) }
{
    match name {
        [] => Err(at_front(NameFaultKind::NoName)),
        [part, ..] if part.name_part.as_str() == "uninterpreted_option" => {
            Err(at_front(NameFaultKind::Reserved))
        }
        _ => fields_from(alloc, view, files, scope, message, name),
    }
}
