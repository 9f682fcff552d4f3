//! Options: what the parser reads of them, and the messages that hold the others as they are
//! written.

ghost use Rattle.std.specs.Prelude.{◌≡◌, ◌==◌, None, Some, IfOk, if◌then◌else◌, map, length, find, option_and_then, codes};
ghost use Rattle.protox_ast.specs.Values.{a_text, default_text, wanted};
ghost use Rattle.protox_ast.specs.declared.ast.OptionBody as body_type;
ghost use Rattle.protox_ast.specs.Options.{bodies_of, listed, default_of, json_name_of, json_name, has_name, without_first, options_left, options_message, name_part, identifier_value, positive_int_value, negative_int_value, double_value, string_value, aggregate_value, uninterpreted};

use crate::values::{default_text, text_value};
use protox_ast::ast;
use protox_ast::ast::{Boxed, OptionBody, OptionList, OptionNamePart, OptionValue, Ty};
use protox_descriptor::descriptor::uninterpreted_option::NamePart;
use protox_descriptor::descriptor::{
    EnumOptions, EnumValueOptions, ExtensionRangeOptions, FieldOptions, FileOptions,
    MessageOptions, MethodOptions, OneofOptions, ServiceOptions, UninterpretedOption,
};
use protox_descriptor::values::{Items, Text};
use std::alloc::{AllocError, Global};

fn name_part(alloc: Global, ast: &OptionNamePart) -> Result<NamePart, AllocError>
    ensures { IfOk result (λ part. part ≡ name_part ast.now) }
{
    match ast {
        OptionNamePart::Ident(ident) => {
            let name_part = Text::copy(alloc, ident.value.as_str())?;
            Ok(NamePart {
                name_part,
                is_extension: false,
            })
        }
        OptionNamePart::Extension(name, _) => {
            let name_part = name.text(alloc)?;
            Ok(NamePart {
                name_part,
                is_extension: true,
            })
        }
    }
}

fn name_parts(alloc: Global, ast: &[OptionNamePart]) -> Result<Items<NamePart>, AllocError>
    ensures { IfOk result (λ parts. parts ≡ map name_part ast.now) }
{
    let mut parts = Vec::with_capacity(alloc, ast.len())?;
    for part in ast {
        parts.push(name_part(alloc, part)?)?;
    }
    Ok(Items::from_vec(parts))
}

fn identifier_value(alloc: Global, value: &OptionValue) -> Result<Option<Text>, AllocError>
    ensures { IfOk result (λ text. text ≡ identifier_value value.now) }
{
    match value {
        OptionValue::Ident {
            negative: false,
            ident,
            ..
        } => Ok(Some(Text::copy(alloc, ident.value.as_str())?)),
        _ => Ok(None),
    }
}

fn positive_int_value(value: &OptionValue) -> Option<u64>
    ensures { result ≡ positive_int_value value.now }
{
    match value {
        OptionValue::Int(int) if !int.negative => Some(int.value),
        _ => None,
    }
}

fn negative_int_value(value: &OptionValue) -> Option<i64>
    ensures { result ≡ negative_int_value value.now }
{
    match value {
        OptionValue::Int(int) if int.negative => int.as_i64(),
        _ => None,
    }
}

fn double_value(alloc: Global, value: &OptionValue) -> Result<Option<Text>, AllocError>
    ensures { IfOk result (λ text. text ≡ double_value value.now) }
{
    match value {
        OptionValue::Float(float) => Ok(Some(Text::copy(alloc, float.value.as_str())?)),
        _ => Ok(None),
    }
}

fn string_value(alloc: Global, value: &OptionValue) -> Result<Option<Items<u8>>, AllocError>
    ensures { IfOk result (λ text. text ≡ string_value value.now) }
{
    match value {
        OptionValue::String(string) => Ok(Some(Items::from_slice(alloc, string.value.as_slice())?)),
        _ => Ok(None),
    }
}

fn aggregate_value(alloc: Global, value: &OptionValue) -> Result<Option<Text>, AllocError>
    ensures { IfOk result (λ text. text ≡ aggregate_value value.now) }
{
    match value {
        OptionValue::Aggregate(text, _) => Ok(Some(Text::copy(alloc, text.as_str())?)),
        _ => Ok(None),
    }
}

// An option as an uninterpreted option.
fn uninterpreted(alloc: Global, ast: &OptionBody) -> Result<UninterpretedOption, AllocError>
    ensures { IfOk result (λ option. option ≡ uninterpreted ast.now) }
{
    let name = name_parts(alloc, ast.name.as_slice())?;
    let identifier_value = identifier_value(alloc, &ast.value)?;
    let double_value = double_value(alloc, &ast.value)?;
    let string_value = string_value(alloc, &ast.value)?;
    let aggregate_value = aggregate_value(alloc, &ast.value)?;
    Ok(UninterpretedOption {
        name,
        identifier_value,
        positive_int_value: positive_int_value(&ast.value),
        negative_int_value: negative_int_value(&ast.value),
        double_value,
        string_value,
        aggregate_value,
    })
}

// The options of option statements, or None.
fn of_statements(
    alloc: Global,
    ast: &[ast::Option],
) -> Result<Option<Items<UninterpretedOption>>, AllocError>
    ensures { IfOk result (λ options. options ≡ options_message (λ options. options) (bodies_of ast.now)) }
{
    Ok(some_if_any(all_statements(alloc, ast)?))
}

fn all_statements(
    alloc: Global,
    ast: &[ast::Option],
) -> Result<Items<UninterpretedOption>, AllocError>
    ensures { IfOk result (λ options. options ≡ map uninterpreted (bodies_of ast.now)) }
{
    let mut options = Vec::with_capacity(alloc, ast.len())?;
    for statement in ast {
        options.push(uninterpreted(alloc, &statement.body)?)?;
    }
    Ok(Items::from_vec(options))
}

fn some_if_any(options: Items<UninterpretedOption>) -> Option<Items<UninterpretedOption>>
    ensures { result ≡ (if length options == 0 then None else Some options) }
{
    if options.is_empty() {
        None
    } else {
        Some(options)
    }
}

// The options of a list in brackets, or None.
fn of_list(
    alloc: Global,
    list: &Option<Boxed<OptionList>>,
) -> Result<Option<Items<UninterpretedOption>>, AllocError>
    ensures { IfOk result (λ options. options ≡ options_message (λ options. options) (listed list.now)) }
{
    match list {
        None => Ok(None),
        Some(list) => Ok(some_if_any(all(alloc, list.get().options.as_slice())?)),
    }
}

fn all(alloc: Global, bodies: &[OptionBody]) -> Result<Items<UninterpretedOption>, AllocError>
    ensures { IfOk result (λ options. options ≡ map uninterpreted bodies.now) }
{
    let mut options = Vec::with_capacity(alloc, bodies.len())?;
    for body in bodies {
        options.push(uninterpreted(alloc, body)?)?;
    }
    Ok(Items::from_vec(options))
}

// A field's options without the first `default` and the first `json_name`, or None.
fn left_of_list(
    alloc: Global,
    list: &Option<Boxed<OptionList>>,
) -> Result<Option<Items<UninterpretedOption>>, AllocError>
    ensures { IfOk result (λ options. options ≡ options_message (λ options. options) (options_left list.now)) }
{
    match list {
        None => Ok(None),
        Some(list) => Ok(some_if_any(left(alloc, list.get().options.as_slice())?)),
    }
}

fn left(alloc: Global, bodies: &[OptionBody]) -> Result<Items<UninterpretedOption>, AllocError>
    ensures { IfOk result (λ options. options ≡ map uninterpreted (without_first (codes "json_name") (without_first (codes "default") bodies.now))) }
{
    let mut options = Items::new(alloc);
    let mut default_read = false;
    let mut json_name_read = false;
    for body in bodies {
        if !default_read && body.has_name("default") {
            default_read = true;
        } else if !json_name_read && body.has_name("json_name") {
            json_name_read = true;
        } else {
            options.push(uninterpreted(alloc, body)?)?;
        }
    }
    Ok(options)
}

fn default_among(alloc: Global, ty: &Ty, bodies: &[OptionBody]) -> Result<Option<Text>, AllocError>
    ensures { IfOk result (λ text. text ≡ option_and_then (λ (body : body_type.OptionBody). default_text (wanted ty.now) body.value) (find (has_name (codes "default")) bodies.now)) }
{
    for body in bodies {
        if body.has_name("default") {
            return default_text(alloc, ty, &body.value);
        }
    }
    Ok(None)
}

/// The text of a field's default value, from its first option `default`.
pub(crate) fn default_value(
    alloc: Global,
    ty: &Ty,
    list: &Option<Boxed<OptionList>>,
) -> Result<Option<Text>, AllocError>
    ensures { IfOk result (λ text. text ≡ option_and_then (λ (body : body_type.OptionBody). default_text (wanted ty.now) body.value) (default_of list.now)) }
{
    match list {
        None => Ok(None),
        Some(list) => default_among(alloc, ty, list.get().options.as_slice()),
    }
}

fn json_name_among(alloc: Global, bodies: &[OptionBody]) -> Result<Option<Text>, AllocError>
    ensures { IfOk result (λ text. text ≡ json_name (find (has_name (codes "json_name")) bodies.now)) }
{
    for body in bodies {
        if body.has_name("json_name") {
            return text_value(alloc, &body.value);
        }
    }
    Ok(None)
}

/// The JSON name of a field, from its first option `json_name`.
pub(crate) fn json_name(
    alloc: Global,
    list: &Option<Boxed<OptionList>>,
) -> Result<Option<Text>, AllocError>
    ensures { IfOk result (λ text. text ≡ json_name (json_name_of list.now)) }
{
    match list {
        None => Ok(None),
        Some(list) => json_name_among(alloc, list.get().options.as_slice()),
    }
}

/// The options of a file.
pub(crate) fn file_options(
    alloc: Global,
    ast: &[ast::Option],
) -> Result<Option<FileOptions>, AllocError>
    ensures { IfOk result (λ message. message ≡ options_message (λ options. record { uninterpreted_option = options }) (bodies_of ast.now)) }
{
    match of_statements(alloc, ast)? {
        None => Ok(None),
        Some(uninterpreted_option) => Ok(Some(FileOptions {
            uninterpreted_option,
        })),
    }
}

/// The options of a message.
pub(crate) fn message_options(
    alloc: Global,
    ast: &[ast::Option],
) -> Result<Option<MessageOptions>, AllocError>
    ensures { IfOk result (λ message. message ≡ options_message (λ options. record { map_entry = None; uninterpreted_option = options }) (bodies_of ast.now)) }
{
    match of_statements(alloc, ast)? {
        None => Ok(None),
        Some(uninterpreted_option) => Ok(Some(MessageOptions {
            map_entry: None,
            uninterpreted_option,
        })),
    }
}

/// The options of a oneof.
pub(crate) fn oneof_options(
    alloc: Global,
    ast: &[ast::Option],
) -> Result<Option<OneofOptions>, AllocError>
    ensures { IfOk result (λ message. message ≡ options_message (λ options. record { uninterpreted_option = options }) (bodies_of ast.now)) }
{
    match of_statements(alloc, ast)? {
        None => Ok(None),
        Some(uninterpreted_option) => Ok(Some(OneofOptions {
            uninterpreted_option,
        })),
    }
}

/// The options of an enum.
pub(crate) fn enum_options(
    alloc: Global,
    ast: &[ast::Option],
) -> Result<Option<EnumOptions>, AllocError>
    ensures { IfOk result (λ message. message ≡ options_message (λ options. record { uninterpreted_option = options }) (bodies_of ast.now)) }
{
    match of_statements(alloc, ast)? {
        None => Ok(None),
        Some(uninterpreted_option) => Ok(Some(EnumOptions {
            uninterpreted_option,
        })),
    }
}

/// The options of a service.
pub(crate) fn service_options(
    alloc: Global,
    ast: &[ast::Option],
) -> Result<Option<ServiceOptions>, AllocError>
    ensures { IfOk result (λ message. message ≡ options_message (λ options. record { uninterpreted_option = options }) (bodies_of ast.now)) }
{
    match of_statements(alloc, ast)? {
        None => Ok(None),
        Some(uninterpreted_option) => Ok(Some(ServiceOptions {
            uninterpreted_option,
        })),
    }
}

/// The options of a method.
pub(crate) fn method_options(
    alloc: Global,
    ast: &[ast::Option],
) -> Result<Option<MethodOptions>, AllocError>
    ensures { IfOk result (λ message. message ≡ options_message (λ options. record { uninterpreted_option = options }) (bodies_of ast.now)) }
{
    match of_statements(alloc, ast)? {
        None => Ok(None),
        Some(uninterpreted_option) => Ok(Some(MethodOptions {
            uninterpreted_option,
        })),
    }
}

/// The options of a value of an enum.
pub(crate) fn enum_value_options(
    alloc: Global,
    ast: &Option<Boxed<OptionList>>,
) -> Result<Option<EnumValueOptions>, AllocError>
    ensures { IfOk result (λ message. message ≡ options_message (λ options. record { uninterpreted_option = options }) (listed ast.now)) }
{
    match of_list(alloc, ast)? {
        None => Ok(None),
        Some(uninterpreted_option) => Ok(Some(EnumValueOptions {
            uninterpreted_option,
        })),
    }
}

/// The options of a range of extension numbers.
pub(crate) fn extension_range_options(
    alloc: Global,
    ast: &Option<Boxed<OptionList>>,
) -> Result<Option<ExtensionRangeOptions>, AllocError>
    ensures { IfOk result (λ message. message ≡ options_message (λ options. record { uninterpreted_option = options }) (listed ast.now)) }
{
    match of_list(alloc, ast)? {
        None => Ok(None),
        Some(uninterpreted_option) => Ok(Some(ExtensionRangeOptions {
            uninterpreted_option,
        })),
    }
}

/// The options of a field without its default value and its JSON name.
pub(crate) fn field_options(
    alloc: Global,
    ast: &Option<Boxed<OptionList>>,
) -> Result<Option<FieldOptions>, AllocError>
    ensures { IfOk result (λ message. message ≡ options_message (λ options. record { uninterpreted_option = options }) (options_left ast.now)) }
{
    match left_of_list(alloc, ast)? {
        None => Ok(None),
        Some(uninterpreted_option) => Ok(Some(FieldOptions {
            uninterpreted_option,
        })),
    }
}
