//! What a fault says besides its text: labels at its places, and a hint.
ghost use Rattle.std.specs.Prelude.{◌≡◌, ◌++◌, codes, IfOk};
ghost use Rattle.std.specs.Option.{option_copied, option_map};
ghost use Rattle.std.specs.String.{string_bytes};
ghost use Rattle.protox_fault.specs.FaultNotes.{label_of, second_label_of, help_of};

use crate::error::{ParseErrorKind, Span};
use protox_descriptor::values::Text;
use std::alloc::{AllocError, Global};

// The hint for an integer that is out of range.
fn range_help(alloc: Global, min: &Text, max: &Text) -> Result<String, AllocError>
    ensures { IfOk result (λ s. string_bytes s ≡ codes "the value must be between " ++ min.now ++ codes " and " ++ max.now ++ codes " inclusive") }
{
    let mut text = String::from_str(alloc, "the value must be between ")?;
    text.push_str(min.as_str())?;
    text.push_str(" and ")?;
    text.push_str(max.as_str())?;
    text.push_str(" inclusive")?;
    Ok(text)
}

impl ParseErrorKind {
    /// The label at the place of the fault, or at the first of its two places. None for a fault
    /// without a place.
    pub fn label(&self) -> Option<&'static str>
        ensures { option_copied result ≡ label_of self.now }
    {
        let label = match self {
            ParseErrorKind::UnexpectedEof { .. } | ParseErrorKind::FileTooLarge => return None,
            ParseErrorKind::InvalidToken { .. }
            | ParseErrorKind::NoSpaceBetweenIntAndIdent { .. }
            | ParseErrorKind::HashCommentOutsideTextFormat { .. }
            | ParseErrorKind::FloatSuffixOutsideTextFormat { .. }
            | ParseErrorKind::UnexpectedToken { .. }
            | ParseErrorKind::NegativeIdentOutsideDefault { .. } => "found here",
            ParseErrorKind::IntegerOutOfRange { .. } => "integer defined here",
            ParseErrorKind::InvalidStringCharacters { .. } => "invalid characters",
            ParseErrorKind::UnterminatedString { .. } => "line ends here",
            ParseErrorKind::Proto2FieldMissingLabel { .. } => "field defined here",
            ParseErrorKind::DuplicatePackage { .. } => "defined here…",
            _ => "defined here",
        };
        Some(label)
    }

    /// The second place of the fault and the label there. None for a fault without a second place.
    pub fn second_label(&self) -> Option<(Span, &'static str)>
        ensures { option_map (λ p. (p.0, p.1.now)) result ≡ second_label_of self.now }
    {
        match self {
            ParseErrorKind::DuplicatePackage { second, .. } => Some((
                second.start..second.end,
                "…and again here",
            )),
            _ => None,
        }
    }

    /// A hint how to mend the fault, or None. Fails with `AllocError` if memory runs out.
    pub fn help(&self, alloc: Global) -> Result<Option<String>, AllocError>
        ensures { IfOk result (λ r. option_map string_bytes r ≡ help_of self.now) }
    {
        let help = match self {
            ParseErrorKind::UnknownSyntax { .. } => "possible values are 'proto2' and 'proto3'",
            ParseErrorKind::InvalidIdentifier { .. } =>
                "identifiers must consist of letters, numbers and underscores, and may not start with a number",
            ParseErrorKind::InvalidGroupName { .. } =>
                "group names must consist of a capital letter followed by letters, numbers and underscores",
            ParseErrorKind::InvalidImport { .. } =>
                "imports may not contain backslashes, repeated forward slashes, '.' or '..' components",
            ParseErrorKind::IntegerValueOutOfRange { min, max, .. } => {
                return Ok(Some(range_help(alloc, min, max)?));
            }
            ParseErrorKind::MessageNestingTooDeep { .. } =>
                "messages and groups may be nested at most 31 levels deep",
            ParseErrorKind::FileTooLarge => "the maximum file length is 2,147,483,647 bytes",
            _ => return Ok(None),
        };
        Ok(Some(String::from_str(alloc, help)?))
    }
}
