//! What is told of a statement that is wrong.

ghost use Rattle.std.specs.Prelude.{◌≡◌, IfOk, string_bytes};
ghost use Rattle.protox_option_records.specs.OptionRecords as words;
ghost use Rattle.protox_walk.specs.Declarations.{text_of};

use protox_brace_text::brace_text;
use protox_descriptor::descriptor::UninterpretedOption;
use protox_interpret::{Site, StatementFaultKind};
use protox_option_text::statement_text;
use std::alloc::{AllocError, Global};

// Whether the text in braces is wrong.
fn is_in_braces(kind: &StatementFaultKind) -> bool
    ensures { result ≡ words.is_in_braces kind.now }
{
    match kind {
        StatementFaultKind::Token(_) => true,
        StatementFaultKind::Text(_) => true,
        StatementFaultKind::Aggregate(_) => true,
        _ => false,
    }
}

// What stands in the braces of a statement.
fn in_braces(statement: &UninterpretedOption) -> &str
    ensures { result.now ≡ text_of statement.now.aggregate_value }
{
    match &statement.aggregate_value {
        Some(text) => text.as_str(),
        None => "",
    }
}

/// What is wrong with a statement, in protoc's words. Of a text in braces it says what is wrong there,
/// too.
///
/// # Errors
/// `AllocError` where memory runs out.
pub(crate) fn told_text(
    alloc: Global,
    here: Site<'_>,
    statement: &UninterpretedOption,
    kind: &StatementFaultKind,
) -> Result<String, AllocError>
    ensures { IfOk result (λ text. words.IsTextOf here.entry statement.now kind.now (string_bytes text)) }
{
    let text = statement_text(alloc, here, statement, kind)?;
    if is_in_braces(kind) {
        let told = brace_text(alloc, here, in_braces(statement), kind)?;
        return format!(in alloc; "{text}: {told}");
    }
    Ok(text)
}
