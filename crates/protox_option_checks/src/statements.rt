//! What the statements of an options message say of a standard option.

ghost use Rattle.std.specs.Prelude.{◌≡◌};
ghost use Rattle.protox_option_checks.specs.Statements as words;

use protox_descriptor::descriptor::UninterpretedOption;
use protox_descriptor::descriptor::uninterpreted_option::NamePart;

// Whether a name has one part, this one, and that is no extension.
fn is_named(parts: &[NamePart], name: &str) -> bool
    ensures { result ≡ words.is_named name.now parts.now }
{
    match parts {
        [part] => !part.is_extension && part.name_part.as_str() == name,
        _ => false,
    }
}

// Whether a statement sets the option of this name to this word.
fn sets_to(statement: &UninterpretedOption, name: &str, word: &str) -> bool
    ensures { result ≡ words.sets_to name.now word.now statement.now }
{
    if !is_named(statement.name.as_slice(), name) {
        return false;
    }
    match &statement.identifier_value {
        Some(said) => said.as_str() == word,
        None => false,
    }
}

/// Whether one of the statements sets the option of this name to this word.
pub(crate) fn says(statements: &[UninterpretedOption], name: &str, word: &str) -> bool
    ensures { result ≡ words.says statements.now name.now word.now }
{
    statements
        .iter()
        .any(|statement| sets_to(statement, name, word))
}

/// Whether one of the statements sets the option of this name to `true`.
pub(crate) fn is_true(statements: &[UninterpretedOption], name: &str) -> bool
    ensures { result ≡ words.is_true statements.now name.now }
{
    says(statements, name, "true")
}
