//! The spans and the values of options.

ghost use Rattle.std.specs.Prelude.{◌≡◌, IfOk};
ghost use Rattle.std.specs.Option.{option_copied};
ghost use Rattle.protox_ast.specs.Options.{has_name};
ghost use Rattle.protox_ast.specs.Spans.{part_span, parts_span, value_span, body_span};
ghost use Rattle.protox_ast.specs.Values.{as_bool, as_float_text, float_word, token_string, truth_of};

use super::{OptionBody, OptionNamePart, OptionValue};
use crate::ast::spans::copied;
use protox_descriptor::values::Text;
use protox_fault::error::Span;
use std::alloc::{AllocError, Global};
use std::option::Option;

impl OptionNamePart {
    /// The span of the identifier, or of the extension's name with its parentheses.
    pub fn span(&self) -> Span
        ensures { result ≡ part_span self.now }
    {
        match self {
            OptionNamePart::Ident(ident) => copied(&ident.span),
            OptionNamePart::Extension(_, span) => copied(span),
        }
    }
}

impl OptionBody {
    /// Whether the name of the option is this one identifier.
    pub fn has_name(&self, name: &str) -> bool
        ensures { result ≡ has_name name.now self.now }
    {
        match self.name.as_slice() {
            [OptionNamePart::Ident(ident)] => ident.value.as_str() == name,
            _ => false,
        }
    }

    /// The span of the name: from its first part to its last. `0..0` if it has no parts; a name
    /// from a source has at least one.
    pub fn name_span(&self) -> Span
        ensures { result ≡ parts_span self.now.name }
    {
        match self.name.as_slice() {
            [first, .., last] => first.span().start..last.span().end,
            [only] => only.span(),
            [] => 0..0,
        }
    }

    /// The span of the option: from its name to the end of its value.
    pub fn span(&self) -> Span
        ensures { result ≡ body_span self.now }
    {
        self.name_span().start..self.value.span().end
    }
}

fn truth(word: &str) -> Option<bool>
    ensures { result ≡ truth_of word.now }
{
    match word {
        "true" => Some(true),
        "false" => Some(false),
        _ => None,
    }
}

fn copied_word(alloc: Global, negative: bool, word: &str) -> Result<Option<Text>, AllocError>
    ensures { IfOk result (λ text. text ≡ float_word negative word.now) }
{
    match (negative, word) {
        (true, "inf") => Ok(Some(Text::copy(alloc, "-inf")?)),
        (false, "inf") => Ok(Some(Text::copy(alloc, "inf")?)),
        (_, "nan") => Ok(Some(Text::copy(alloc, "nan")?)),
        _ => Ok(None),
    }
}

impl OptionValue {
    /// The span of the value, with its sign, quotes or braces.
    pub fn span(&self) -> Span
        ensures { result ≡ value_span self.now }
    {
        match self {
            OptionValue::Ident { span, .. } => copied(span),
            OptionValue::Int(int) => copied(&int.span),
            OptionValue::Float(float) => copied(&float.span),
            OptionValue::String(string) => copied(&string.span),
            OptionValue::Aggregate(_, span) => copied(span),
        }
    }

    /// The truth value of `true` or `false` without a minus sign. None for any other value.
    pub fn as_bool(&self) -> Option<bool>
        ensures { result ≡ as_bool self.now }
    {
        match self {
            OptionValue::Ident {
                negative: false,
                ident,
                ..
            } => truth(ident.value.as_str()),
            _ => None,
        }
    }

    /// The text of the value as it prints, or `AllocError`. A string stands in double quotes.
    pub fn to_token_string(&self, alloc: Global) -> Result<Text, AllocError>
        ensures { IfOk result (λ text. text ≡ token_string self.now) }
    {
        let text = match self {
            OptionValue::String(_) => format!(in alloc; "\"{self}\"")?,
            _ => format!(in alloc; "{self}")?,
        };
        Ok(Text::from_string(text))
    }

    /// The text of the value as a float, None if it is none, or `AllocError`. It is the text of a
    /// float literal with its sign, an integer as it prints, `inf` with its sign, or `nan` without
    /// a sign.
    pub fn as_float_text(&self, alloc: Global) -> Result<Option<Text>, AllocError>
        ensures { IfOk result (λ text. text ≡ as_float_text self.now) }
    {
        match self {
            OptionValue::Ident {
                negative,
                ident,
                ..
            } => copied_word(alloc, *negative, ident.value.as_str()),
            OptionValue::Int(int) => Ok(Some(Text::from_string(int.to_string(alloc)?))),
            OptionValue::Float(float) => Ok(Some(Text::copy(alloc, float.value.as_str())?)),
            _ => Ok(None),
        }
    }
}
