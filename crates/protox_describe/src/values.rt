//! Option values as numbers and texts, and default values as texts.

ghost use Rattle.std.specs.Prelude.{◌≡◌, pos, option_map, IfOk, if◌then◌else◌};
ghost use Rattle.protox_ast.specs.Checks.{is_text};
ghost use Rattle.protox_ast.specs.Values.{signed_32, signed_64, unsigned_32, unsigned_64, number_in, number_text, truth_text, default_text, wanted, a_text, some_bytes, an_integer};

use protox_ast::ast::{Int, OptionValue, Ty};
use protox_descriptor::values::Text;
use std::alloc::{AllocError, Global};

/// The number, if it is an i32.
pub(crate) fn number_in_signed_32(int: &Int) -> Option<i32>
    ensures { result ≡ number_in signed_32 int.now }
{
    int.as_i32()
}

fn signed_32_number(int: &Int) -> Option<i64>
    ensures { result ≡ number_in signed_32 int.now }
{
    match int.as_i32() {
        Some(number) => Some(i64::from(number)),
        None => None,
    }
}

fn signed_64_number(int: &Int) -> Option<i64>
    ensures { result ≡ number_in signed_64 int.now }
{
    int.as_i64()
}

fn unsigned_32_number(int: &Int) -> Option<u64>
    ensures { option_map pos result ≡ number_in unsigned_32 int.now }
{
    match int.as_u32() {
        Some(number) => Some(u64::from(number)),
        None => None,
    }
}

fn unsigned_64_number(int: &Int) -> Option<u64>
    ensures { option_map pos result ≡ number_in unsigned_64 int.now }
{
    int.as_u64()
}

fn signed_text(alloc: Global, number: Option<i64>) -> Result<Option<Text>, AllocError>
    ensures { IfOk result (λ text. text ≡ number_text number) }
{
    match number {
        Some(number) => Ok(Some(Text::from_string(format!(in alloc; "{number}")?))),
        None => Ok(None),
    }
}

fn unsigned_text(alloc: Global, number: Option<u64>) -> Result<Option<Text>, AllocError>
    ensures { IfOk result (λ text. text ≡ number_text (option_map pos number)) }
{
    match number {
        Some(number) => Ok(Some(Text::from_string(format!(in alloc; "{number}")?))),
        None => Ok(None),
    }
}

fn signed_32_text(alloc: Global, value: &OptionValue) -> Result<Option<Text>, AllocError>
    ensures { IfOk result (λ text. text ≡ default_text (an_integer signed_32) value.now) }
{
    match value {
        OptionValue::Int(int) => signed_text(alloc, signed_32_number(int)),
        _ => Ok(None),
    }
}

fn signed_64_text(alloc: Global, value: &OptionValue) -> Result<Option<Text>, AllocError>
    ensures { IfOk result (λ text. text ≡ default_text (an_integer signed_64) value.now) }
{
    match value {
        OptionValue::Int(int) => signed_text(alloc, signed_64_number(int)),
        _ => Ok(None),
    }
}

fn unsigned_32_text(alloc: Global, value: &OptionValue) -> Result<Option<Text>, AllocError>
    ensures { IfOk result (λ text. text ≡ default_text (an_integer unsigned_32) value.now) }
{
    match value {
        OptionValue::Int(int) => unsigned_text(alloc, unsigned_32_number(int)),
        _ => Ok(None),
    }
}

fn unsigned_64_text(alloc: Global, value: &OptionValue) -> Result<Option<Text>, AllocError>
    ensures { IfOk result (λ text. text ≡ default_text (an_integer unsigned_64) value.now) }
{
    match value {
        OptionValue::Int(int) => unsigned_text(alloc, unsigned_64_number(int)),
        _ => Ok(None),
    }
}

fn truth_text(alloc: Global, truth: Option<bool>) -> Result<Option<Text>, AllocError>
    ensures { IfOk result (λ text. text ≡ truth_text truth) }
{
    match truth {
        None => Ok(None),
        Some(true) => Ok(Some(Text::copy(alloc, "true")?)),
        Some(false) => Ok(Some(Text::copy(alloc, "false")?)),
    }
}

fn text_if_text(alloc: Global, bytes: &[u8]) -> Result<Option<Text>, AllocError>
    ensures { IfOk result (λ text. text ≡ (if is_text bytes.now then Some bytes.now else None)) }
{
    match str::from_utf8(bytes) {
        Ok(text) => Ok(Some(Text::copy(alloc, text)?)),
        Err(_) => Ok(None),
    }
}

/// The text of the value; None if it isn't a string of UTF-8.
pub(crate) fn text_value(alloc: Global, value: &OptionValue) -> Result<Option<Text>, AllocError>
    ensures { IfOk result (λ text. text ≡ default_text a_text value.now) }
{
    match value {
        OptionValue::String(string) => text_if_text(alloc, string.value.as_slice()),
        _ => Ok(None),
    }
}

fn bytes_text(alloc: Global, value: &OptionValue) -> Result<Option<Text>, AllocError>
    ensures { IfOk result (λ text. text ≡ default_text some_bytes value.now) }
{
    match value {
        OptionValue::String(string) => {
            Ok(Some(Text::from_string(format!(in alloc; "{string}")?)))
        }
        _ => Ok(None),
    }
}

/// The text of a default value for a field of this type; None if the type doesn't take it.
pub(crate) fn default_text(
    alloc: Global,
    ty: &Ty,
    value: &OptionValue,
) -> Result<Option<Text>, AllocError>
    ensures { IfOk result (λ text. text ≡ default_text (wanted ty.now) value.now) }
{
    match ty {
        Ty::Double | Ty::Float => value.as_float_text(alloc),
        Ty::Int32 | Ty::Sint32 | Ty::Sfixed32 => signed_32_text(alloc, value),
        Ty::Int64 | Ty::Sint64 | Ty::Sfixed64 => signed_64_text(alloc, value),
        Ty::Uint32 | Ty::Fixed32 => unsigned_32_text(alloc, value),
        Ty::Uint64 | Ty::Fixed64 => unsigned_64_text(alloc, value),
        Ty::Bool => truth_text(alloc, value.as_bool()),
        Ty::String => text_value(alloc, value),
        Ty::Bytes => bytes_text(alloc, value),
        Ty::Named(_) => Ok(Some(value.to_token_string(alloc)?)),
    }
}
