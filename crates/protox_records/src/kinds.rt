//! The number of each kind of fault.

ghost use Rattle.std.specs.Prelude.{◌≡◌};
ghost use Rattle.protox_records.specs.Kinds.{kind_of};

use protox_fault::error::ParseErrorKind;

/// The number of a fault's kind, from 1 in the order in which `ParseErrorKind` lists them.
pub fn kind_number(fault: &ParseErrorKind) -> usize
    ensures { result ≡ kind_of fault.now }
{
    match fault {
        ParseErrorKind::InvalidToken { .. } => 1,
        ParseErrorKind::IntegerOutOfRange { .. } => 2,
        ParseErrorKind::InvalidStringCharacters { .. } => 3,
        ParseErrorKind::UnterminatedString { .. } => 4,
        ParseErrorKind::InvalidStringEscape { .. } => 5,
        ParseErrorKind::InvalidUtf8String { .. } => 6,
        ParseErrorKind::NestedBlockComment { .. } => 7,
        ParseErrorKind::UnknownSyntax { .. } => 8,
        ParseErrorKind::InvalidIdentifier { .. } => 9,
        ParseErrorKind::InvalidGroupName { .. } => 10,
        ParseErrorKind::InvalidImport { .. } => 11,
        ParseErrorKind::DuplicatePackage { .. } => 12,
        ParseErrorKind::NoSpaceBetweenIntAndIdent { .. } => 13,
        ParseErrorKind::HashCommentOutsideTextFormat { .. } => 14,
        ParseErrorKind::FloatSuffixOutsideTextFormat { .. } => 15,
        ParseErrorKind::UnexpectedToken { .. } => 16,
        ParseErrorKind::UnexpectedEof { .. } => 17,
        ParseErrorKind::NegativeIdentOutsideDefault { .. } => 18,
        ParseErrorKind::InvalidMessageNumber { .. } => 19,
        ParseErrorKind::InvalidEnumNumber { .. } => 20,
        ParseErrorKind::InvalidDefault { .. } => 21,
        ParseErrorKind::Proto3DefaultValue { .. } => 22,
        ParseErrorKind::InvalidExtendFieldKind { .. } => 23,
        ParseErrorKind::RequiredExtendField { .. } => 24,
        ParseErrorKind::MapFieldWithLabel { .. } => 25,
        ParseErrorKind::OneofFieldWithLabel { .. } => 26,
        ParseErrorKind::Proto2FieldMissingLabel { .. } => 27,
        ParseErrorKind::Proto3GroupField { .. } => 28,
        ParseErrorKind::Proto3RequiredField { .. } => 29,
        ParseErrorKind::InvalidOneofFieldKind { .. } => 30,
        ParseErrorKind::InvalidMapFieldKeyType { .. } => 31,
        ParseErrorKind::ValueInvalidType { .. } => 32,
        ParseErrorKind::IntegerValueOutOfRange { .. } => 33,
        ParseErrorKind::EmptyOneof { .. } => 34,
        ParseErrorKind::MessageNestingTooDeep { .. } => 35,
        ParseErrorKind::FileTooLarge => 36,
    }
}
