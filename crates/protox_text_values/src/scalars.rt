//! Values of scalar types in text format. A number says what the statement of an option says that
//! has the same number.

ghost use Rattle.std.specs.Prelude.{◌≡◌, Err, IfErr, IfOk, IsErrOf, Ok, false, true};
ghost use Rattle.std.specs.Result.{result_ok};
ghost use Rattle.protox_text_values.specs.Failure.{IfFault, takes_memory};
ghost use Rattle.protox_text_values.specs.Scalars.{joined, says_in_text, shapes_of};
ghost use Rattle.protox_text_values.specs.inner.Limits.{holds_float, holds_signed, holds_unsigned};
ghost use Rattle.protox_values.specs.Types.{held_by};
ghost use Rattle.protox_values.specs.Values.{mapped, says};
ghost use Rattle.protox_values.specs.Wire.{reading, wire};

use crate::fault::TextValueFailure;
use crate::statements::{float_statement, integer_statement, natural_statement};
use crate::truths::truth_in_text;
use protox_descriptor::descriptor::UninterpretedOption;
use protox_descriptor::values::Items;
use protox_lexeme::token::Token;
use protox_text_format::Piece;
use protox_values::{Held, ScalarType, SettingValue, ValueFailure, ValueFault, scalar_value};
use std::alloc::{AllocError, Global};

// The strings of a value, joined.
fn joined(alloc: Global, pieces: &[Piece<'_>]) -> Result<Option<Items<u8>>, AllocError>
    ensures { IfOk result (λ bytes. bytes ≡ joined (shapes_of pieces.now)) }
{
    let mut bytes = Items::new(alloc);
    for piece in pieces {
        match &piece.token {
            Token::StringLiteral(string) => bytes.extend_from_slice(string.as_slice())?,
            _ => return Ok(None),
        }
    }
    Ok(Some(bytes))
}

// What a statement says to a field of this type.
fn said(
    alloc: Global,
    statement: &UninterpretedOption,
    scalar: ScalarType,
) -> Result<SettingValue, TextValueFailure>
    ensures says { IfOk result (λ value. mapped (wire scalar) (says scalar statement.now) ≡ Ok value) }
    ensures reads_back { IfOk result (λ value. reading scalar value ≡ result_ok (says scalar statement.now)) }
    ensures fault { IfErr result (λ failure. IfFault failure (λ fault. says scalar statement.now ≡ Err fault)) }
    ensures memory { IsErrOf result TextValueFailure.OutOfMemory → takes_memory (held_by scalar) ≡ true }
{
    match scalar_value(alloc, statement, scalar) {
        Ok(value) => Ok(value),
        Err(ValueFailure::Fault(fault)) => Err(TextValueFailure::Fault(fault)),
        Err(ValueFailure::OutOfMemory) => Err(TextValueFailure::OutOfMemory),
    }
}

// What a value says to a field of a type that holds integers with a sign.
fn signed(
    alloc: Global,
    pieces: &[Piece<'_>],
    scalar: ScalarType,
) -> Result<SettingValue, TextValueFailure>
    requires { holds_signed (held_by scalar) ≡ true }
    ensures says { IfOk result (λ value. mapped (wire scalar) (says_in_text scalar (shapes_of pieces.now)) ≡ Ok value) }
    ensures reads_back { IfOk result (λ value. reading scalar value ≡ result_ok (says_in_text scalar (shapes_of pieces.now))) }
    ensures fault { IfErr result (λ failure. IfFault failure (λ fault. says_in_text scalar (shapes_of pieces.now) ≡ Err fault)) }
    ensures memory { IsErrOf result TextValueFailure.OutOfMemory → takes_memory (held_by scalar) ≡ true }
{
    match integer_statement(alloc, pieces) {
        Ok(statement) => said(alloc, &statement, scalar),
        Err(fault) => Err(TextValueFailure::Fault(fault)),
    }
}

// What a value says to a field of a type that holds integers without a sign.
fn unsigned(
    alloc: Global,
    pieces: &[Piece<'_>],
    scalar: ScalarType,
) -> Result<SettingValue, TextValueFailure>
    requires { holds_unsigned (held_by scalar) ≡ true }
    ensures says { IfOk result (λ value. mapped (wire scalar) (says_in_text scalar (shapes_of pieces.now)) ≡ Ok value) }
    ensures reads_back { IfOk result (λ value. reading scalar value ≡ result_ok (says_in_text scalar (shapes_of pieces.now))) }
    ensures fault { IfErr result (λ failure. IfFault failure (λ fault. says_in_text scalar (shapes_of pieces.now) ≡ Err fault)) }
    ensures memory { IsErrOf result TextValueFailure.OutOfMemory → takes_memory (held_by scalar) ≡ true }
{
    let statement = natural_statement(alloc, pieces);
    said(alloc, &statement, scalar)
}

// What a value says to a field of a type that holds floats.
fn float(
    alloc: Global,
    pieces: &[Piece<'_>],
    scalar: ScalarType,
) -> Result<SettingValue, TextValueFailure>
    requires { holds_float (held_by scalar) ≡ true }
    ensures says { IfOk result (λ value. mapped (wire scalar) (says_in_text scalar (shapes_of pieces.now)) ≡ Ok value) }
    ensures reads_back { IfOk result (λ value. reading scalar value ≡ result_ok (says_in_text scalar (shapes_of pieces.now))) }
    ensures fault { IfErr result (λ failure. IfFault failure (λ fault. says_in_text scalar (shapes_of pieces.now) ≡ Err fault)) }
    ensures memory { IsErrOf result TextValueFailure.OutOfMemory → takes_memory (held_by scalar) ≡ true }
{
    match float_statement(alloc, pieces) {
        Ok(statement) => said(alloc, &statement, scalar),
        Err(_) => Err(TextValueFailure::OutOfMemory),
    }
}

// What a value says to a field of the type `bool`.
fn truth(pieces: &[Piece<'_>], scalar: ScalarType) -> Result<SettingValue, TextValueFailure>
    requires { held_by scalar ≡ Held.Bool }
    ensures says { IfOk result (λ value. mapped (wire scalar) (says_in_text scalar (shapes_of pieces.now)) ≡ Ok value) }
    ensures reads_back { IfOk result (λ value. reading scalar value ≡ result_ok (says_in_text scalar (shapes_of pieces.now))) }
    ensures fault { IfErr result (λ failure. IfFault failure (λ fault. says_in_text scalar (shapes_of pieces.now) ≡ Err fault)) }
    ensures memory { IsErrOf result TextValueFailure.OutOfMemory → takes_memory (held_by scalar) ≡ true }
{
    match truth_in_text(pieces) {
        Ok(truth) => Ok(SettingValue::Varint(truth as u64)),
        Err(fault) => Err(TextValueFailure::Fault(fault)),
    }
}

// What a value says to a field of a type that holds texts or bytes.
fn string(
    alloc: Global,
    pieces: &[Piece<'_>],
    scalar: ScalarType,
) -> Result<SettingValue, TextValueFailure>
    requires { held_by scalar ≡ Held.String }
    ensures says { IfOk result (λ value. mapped (wire scalar) (says_in_text scalar (shapes_of pieces.now)) ≡ Ok value) }
    ensures reads_back { IfOk result (λ value. reading scalar value ≡ result_ok (says_in_text scalar (shapes_of pieces.now))) }
    ensures fault { IfErr result (λ failure. IfFault failure (λ fault. says_in_text scalar (shapes_of pieces.now) ≡ Err fault)) }
    ensures memory { IsErrOf result TextValueFailure.OutOfMemory → takes_memory (held_by scalar) ≡ true }
{
    match joined(alloc, pieces) {
        Ok(Some(bytes)) => Ok(SettingValue::Bytes(bytes)),
        Ok(None) => Err(TextValueFailure::Fault(ValueFault::NotString)),
        Err(_) => Err(TextValueFailure::OutOfMemory),
    }
}

/// What a value in text format says, if the type of its field is this one, on the wire. Whoever reads
/// that by the type finds what the value says.
///
/// # Errors
/// `Fault` if the value is none of the type. `OutOfMemory` if memory runs out.
pub fn scalar_in_text(
    alloc: Global,
    pieces: &[Piece<'_>],
    scalar: ScalarType,
) -> Result<SettingValue, TextValueFailure>
    ensures says { IfOk result (λ value. mapped (wire scalar)
        (says_in_text scalar (shapes_of pieces.now)) ≡ Ok value) }
    ensures reads_back { IfOk result (λ value. reading scalar value
        ≡ result_ok (says_in_text scalar (shapes_of pieces.now))) }
    ensures fault { IfErr result (λ failure. IfFault failure (λ fault.
        says_in_text scalar (shapes_of pieces.now) ≡ Err fault)) }
    ensures memory { IsErrOf result TextValueFailure.OutOfMemory → takes_memory (held_by scalar) ≡ true }
{
    match scalar.held() {
        Held::Int32 => signed(alloc, pieces, scalar),
        Held::Int64 => signed(alloc, pieces, scalar),
        Held::Uint32 => unsigned(alloc, pieces, scalar),
        Held::Uint64 => unsigned(alloc, pieces, scalar),
        Held::Float => float(alloc, pieces, scalar),
        Held::Double => float(alloc, pieces, scalar),
        Held::Bool => truth(pieces, scalar),
        Held::String => string(alloc, pieces, scalar),
    }
}
