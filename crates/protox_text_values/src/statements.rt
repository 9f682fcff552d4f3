//! Statements of options that say what values in text format say.

ghost use Rattle.std.specs.Prelude.{◌≡◌, ◌^◌, Err, IfErr, IfOk, None, Some, pos};
ghost use Rattle.protox_text_values.specs.Scalars.{float_text, integer_in, natural_in, shapes_of};
ghost use Rattle.protox_values.specs.Values.{fits_signed, integer_of, limited};

use crate::floats::float_text;
use crate::numbers::{natural_in, negated_in, negative};
use protox_descriptor::descriptor::UninterpretedOption;
use protox_text_format::Piece;
use protox_values::ValueFault;
use std::alloc::{AllocError, Global};

fn with_natural(alloc: Global, n: u64) -> UninterpretedOption
    ensures { integer_of result ≡ Some (pos n) }
{
    let mut statement = UninterpretedOption::new(alloc);
    statement.positive_int_value = Some(n);
    statement
}

fn with_negative(alloc: Global, n: i64) -> UninterpretedOption
    ensures { integer_of result ≡ Some n }
{
    let mut statement = UninterpretedOption::new(alloc);
    statement.negative_int_value = Some(n);
    statement
}

// The statement with the integer of a value.
pub(crate) fn integer_statement(
    alloc: Global,
    pieces: &[Piece<'_>],
) -> Result<UninterpretedOption, ValueFault>
    ensures integer { IfOk result (λ statement. integer_of statement ≡ integer_in (shapes_of pieces.now)) }
    ensures fault { IfErr result (λ fault. limited (fits_signed (2 ^ 63)) ValueFault.NotInteger (integer_in (shapes_of pieces.now)) ≡ Err fault) }
{
    if let Some(n) = natural_in(pieces) {
        return Ok(with_natural(alloc, n));
    }
    match negated_in(pieces) {
        Some(n) => match negative(n) {
            Some(n) => Ok(with_negative(alloc, n)),
            None => Err(ValueFault::OutOfRange),
        },
        None => Ok(UninterpretedOption::new(alloc)),
    }
}

// The statement with the integer of a value, if it has no sign.
pub(crate) fn natural_statement(alloc: Global, pieces: &[Piece<'_>]) -> UninterpretedOption
    ensures { result.positive_int_value ≡ natural_in (shapes_of pieces.now) }
{
    let mut statement = UninterpretedOption::new(alloc);
    statement.positive_int_value = natural_in(pieces);
    statement
}

// The statement with the float of a value.
pub(crate) fn float_statement(
    alloc: Global,
    pieces: &[Piece<'_>],
) -> Result<UninterpretedOption, AllocError>
    ensures text { IfOk result (λ statement. statement.double_value ≡ float_text (shapes_of pieces.now)) }
    ensures integer { IfOk result (λ statement. integer_of statement ≡ None) }
{
    let text = float_text(alloc, pieces)?;
    let mut statement = UninterpretedOption::new(alloc);
    statement.double_value = text;
    Ok(statement)
}
