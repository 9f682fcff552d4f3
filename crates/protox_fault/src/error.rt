//! The faults of a source, and why a call that reads one fails.
ghost use Rattle.std.specs.Prelude.{◌≡◌};
ghost use Rattle.protox_fault.specs.Faults.{span_of};
ghost use Rattle.protox_fault.specs.FaultTexts.{HasFixedText, text_of};

use protox_descriptor::values::Text;
use std::alloc::{AllocError, AllocFailed};
use std::fmt;
use std::ops::Range;

/// A part of a source, by byte offsets: from its first byte to the one after its last byte.
pub type Span = Range<usize>;

/// What is wrong with a source, and where. Each kind tells what its `span` covers, in byte offsets.
#[derive(PartialEq, Debug, Drop)]
pub enum ParseErrorKind {
    /// No token begins with this character. The span covers the character.
    InvalidToken {
        span: Span,
    },
    /// An integer literal is above `u64::MAX`. The span covers its digits, without the `0` or `0x`
    /// before them.
    IntegerOutOfRange {
        span: Span,
    },
    /// A string holds characters that no string may hold. The span covers them, and all invalid
    /// ones right after them.
    InvalidStringCharacters {
        span: Span,
    },
    /// A line ends within a string. The span covers the newline.
    UnterminatedString {
        span: Span,
    },
    /// A string holds a backslash that begins no escape, or an escape that stands for nothing. The
    /// span covers the backslash or the whole escape, and all that is invalid right after it.
    InvalidStringEscape {
        span: Span,
    },
    /// A string that has to be text is not UTF-8. The span goes from its first literal to its last.
    InvalidUtf8String {
        span: Span,
    },
    /// A block comment opens within another one. The span covers the `/*`.
    NestedBlockComment {
        span: Span,
    },
    /// The syntax statement names an unknown syntax. The span goes from the first literal of the
    /// string to the last. `syntax` is the text of the string.
    UnknownSyntax {
        span: Span,
        syntax: Text,
    },
    /// A reserved name is not an identifier. The span goes from the first literal of the string to
    /// the last.
    InvalidIdentifier {
        span: Span,
    },
    /// The name of a group doesn't begin with a capital letter, or has other characters than
    /// letters, digits and `_`. The span covers the name.
    InvalidGroupName {
        span: Span,
    },
    /// The path of an import is not allowed: a component between its slashes is empty, `.` or `..`,
    /// or has a backslash. The span goes from the first literal of the string to the last.
    InvalidImport {
        span: Span,
    },
    /// A file has a second package statement. The spans cover the first one and this one, each with
    /// its `;`.
    DuplicatePackage {
        first: Span,
        second: Span,
    },
    /// A letter or `_` stands right after an integer. The span covers the digits without the `0` or
    /// `0x` before them, the byte after them, and the letters that follow it.
    NoSpaceBetweenIntAndIdent {
        span: Span,
    },
    /// A comment begins with `#` outside an aggregate. The span covers the comment, with the
    /// newline at its end.
    HashCommentOutsideTextFormat {
        span: Span,
    },
    /// A float ends in `f` or `F` outside an aggregate. The span covers the literal.
    FloatSuffixOutsideTextFormat {
        span: Span,
    },
    /// Another token was expected. The span covers the token that stands there. `expected` says
    /// what was expected, and `found` is the token as it prints.
    UnexpectedToken {
        span: Span,
        expected: Text,
        found: Text,
    },
    /// The source ends where more was expected. `expected` says what.
    UnexpectedEof {
        expected: Text,
    },
    /// An identifier has a minus sign, and the value is not one of a `default`. The span covers the
    /// value with its sign.
    NegativeIdentOutsideDefault {
        span: Span,
    },
    /// The number of a field, or of a range of `reserved` or `extensions`, is outside 1 to 536870911.
    /// The span covers the sign.
    InvalidMessageNumber {
        span: Span,
    },
    /// The number of an enum value, or of a `reserved` range of an enum, is one that 32 bits cannot
    /// hold. The span covers the sign.
    InvalidEnumNumber {
        span: Span,
    },
    /// A field of this kind has a default value. The span covers the option, from its name to its
    /// value. `kind` is the word for the kind of the field.
    InvalidDefault {
        span: Span,
        kind: &'static str,
    },
    /// A field of proto3 has a default value. The span covers the option, from its name to its
    /// value.
    Proto3DefaultValue {
        span: Span,
    },
    /// An extension is a field of this kind. The span covers the field. `kind` is the word for the
    /// kind of the field.
    InvalidExtendFieldKind {
        span: Span,
        kind: &'static str,
    },
    /// An extension is `required`. The span covers the label.
    RequiredExtendField {
        span: Span,
    },
    /// A map field has a label. The span covers the label.
    MapFieldWithLabel {
        span: Span,
    },
    /// A field of a oneof has a label. The span covers the label.
    OneofFieldWithLabel {
        span: Span,
    },
    /// A field of proto2 has no label. The span covers the field.
    Proto2FieldMissingLabel {
        span: Span,
    },
    /// A group stands in proto3. The span covers the field.
    Proto3GroupField {
        span: Span,
    },
    /// A field of proto3 is `required`. The span covers the label.
    Proto3RequiredField {
        span: Span,
    },
    /// A oneof has a field of this kind. The span covers the field. `kind` is the word for the kind
    /// of the field.
    InvalidOneofFieldKind {
        span: Span,
        kind: &'static str,
    },
    /// The type is not allowed for the keys of a map. The span covers the type.
    InvalidMapFieldKeyType {
        span: Span,
    },
    /// A value has the wrong type. The span covers the value. `expected` names the right type, and
    /// `actual` is the value as it prints.
    ValueInvalidType {
        span: Span,
        expected: Text,
        actual: Text,
    },
    /// An integer is out of range. The span covers the value. `expected` names the range, which
    /// goes from `min` to `max`. `actual` is the value as it prints.
    IntegerValueOutOfRange {
        span: Span,
        expected: Text,
        actual: Text,
        min: Text,
        max: Text,
    },
    /// A oneof has no field. The span covers the oneof.
    EmptyOneof {
        span: Span,
    },
    /// Messages and groups are nested more than 31 levels deep. The span covers the word `message`
    /// or `group` at level 32.
    MessageNestingTooDeep {
        span: Span,
    },
    /// The source is longer than 2,147,483,647 bytes.
    FileTooLarge,
}

impl ParseErrorKind {
    /// The place of the fault. None for a fault of two places, at the end of the source, or of the
    /// whole source.
    pub fn span(&self) -> Option<Span>
        ensures { result ≡ span_of self.now }
    {
        match self {
            ParseErrorKind::DuplicatePackage { .. }
            | ParseErrorKind::UnexpectedEof { .. }
            | ParseErrorKind::FileTooLarge => None,
            ParseErrorKind::InvalidToken { span }
            | ParseErrorKind::IntegerOutOfRange { span }
            | ParseErrorKind::InvalidStringCharacters { span }
            | ParseErrorKind::UnterminatedString { span }
            | ParseErrorKind::InvalidStringEscape { span }
            | ParseErrorKind::InvalidUtf8String { span }
            | ParseErrorKind::NestedBlockComment { span }
            | ParseErrorKind::UnknownSyntax { span, .. }
            | ParseErrorKind::InvalidIdentifier { span }
            | ParseErrorKind::InvalidGroupName { span }
            | ParseErrorKind::InvalidImport { span }
            | ParseErrorKind::NoSpaceBetweenIntAndIdent { span }
            | ParseErrorKind::HashCommentOutsideTextFormat { span }
            | ParseErrorKind::FloatSuffixOutsideTextFormat { span }
            | ParseErrorKind::UnexpectedToken { span, .. }
            | ParseErrorKind::NegativeIdentOutsideDefault { span }
            | ParseErrorKind::InvalidMessageNumber { span }
            | ParseErrorKind::InvalidEnumNumber { span }
            | ParseErrorKind::InvalidDefault { span, .. }
            | ParseErrorKind::Proto3DefaultValue { span }
            | ParseErrorKind::InvalidExtendFieldKind { span, .. }
            | ParseErrorKind::RequiredExtendField { span }
            | ParseErrorKind::MapFieldWithLabel { span }
            | ParseErrorKind::OneofFieldWithLabel { span }
            | ParseErrorKind::Proto2FieldMissingLabel { span }
            | ParseErrorKind::Proto3GroupField { span }
            | ParseErrorKind::Proto3RequiredField { span }
            | ParseErrorKind::InvalidOneofFieldKind { span, .. }
            | ParseErrorKind::InvalidMapFieldKeyType { span }
            | ParseErrorKind::ValueInvalidType { span, .. }
            | ParseErrorKind::IntegerValueOutOfRange { span, .. }
            | ParseErrorKind::EmptyOneof { span }
            | ParseErrorKind::MessageNestingTooDeep { span } => Some(span.start..span.end),
        }
    }
}

// The text of a fault whose text is always the same.
fn fixed_text(fault: &ParseErrorKind) -> &'static str
    ensures { HasFixedText fault.now → result.now ≡ text_of fault.now }
{
    match fault {
        ParseErrorKind::InvalidToken { .. } => "invalid token",
        ParseErrorKind::IntegerOutOfRange { .. } => "integer is too large",
        ParseErrorKind::InvalidStringCharacters { .. } => "invalid string character",
        ParseErrorKind::UnterminatedString { .. } => "unterminated string",
        ParseErrorKind::InvalidStringEscape { .. } => "invalid string escape",
        ParseErrorKind::InvalidUtf8String { .. } => "string is not valid utf-8",
        ParseErrorKind::NestedBlockComment { .. } => "nested block comments are not supported",
        ParseErrorKind::InvalidIdentifier { .. } => "invalid identifier",
        ParseErrorKind::InvalidGroupName { .. } => "invalid group name",
        ParseErrorKind::InvalidImport { .. } => "invalid import",
        ParseErrorKind::DuplicatePackage { .. } => "multiple package names specified",
        ParseErrorKind::NoSpaceBetweenIntAndIdent { .. } =>
            "whitespace is required between an integer literal and an identifier",
        ParseErrorKind::HashCommentOutsideTextFormat { .. } => "'#' comments are not allowed here",
        ParseErrorKind::FloatSuffixOutsideTextFormat { .. } =>
            "'f' suffix for float literals is not allowed",
        ParseErrorKind::NegativeIdentOutsideDefault { .. } => "identifiers may not be negative",
        ParseErrorKind::InvalidMessageNumber { .. } =>
            "message numbers must be between 1 and 536870911",
        ParseErrorKind::InvalidEnumNumber { .. } =>
            "enum numbers must be between -2147483648 and 2147483647",
        ParseErrorKind::Proto3DefaultValue { .. } => "default values are not allowed in proto3",
        ParseErrorKind::RequiredExtendField { .. } => "extension fields may not be required",
        ParseErrorKind::MapFieldWithLabel { .. } => "map fields cannot have labels",
        ParseErrorKind::OneofFieldWithLabel { .. } => "oneof fields cannot have labels",
        ParseErrorKind::Proto2FieldMissingLabel { .. } =>
            "fields must have a label with proto2 syntax (expected one of 'optional', 'repeated' or 'required')",
        ParseErrorKind::Proto3GroupField { .. } => "groups are not allowed in proto3 syntax",
        ParseErrorKind::Proto3RequiredField { .. } =>
            "required fields are not allowed in proto3 syntax",
        ParseErrorKind::InvalidMapFieldKeyType { .. } =>
            "a map field key type must be an integer, boolean or string",
        ParseErrorKind::EmptyOneof { .. } => "a oneof must have at least one field",
        ParseErrorKind::MessageNestingTooDeep { .. } =>
            "reached maximum recursion limit for nested messages",
        ParseErrorKind::FileTooLarge => "file is too large",
        _ => "",
    }
}

impl fmt::Display for ParseErrorKind {
    ghost use Rattle.std.specs.Prelude.{Some};
    ghost use Rattle.protox_fault.specs.FaultTexts.{text_of};

    ghost output = { λ fault. Some (text_of fault) };

    fn fmt<W: fmt::Write>(&self, f: &mut fmt::Formatter<W>) -> fmt::Result {
        match self {
            ParseErrorKind::UnknownSyntax { syntax, .. } => {
                write!(f, "unknown syntax '{syntax}'")
            }
            ParseErrorKind::UnexpectedToken {
                expected,
                found,
                ..
            } => write!(f, "expected {expected}, but found '{found}'"),
            ParseErrorKind::UnexpectedEof { expected } => {
                write!(f, "expected {expected}, but reached end of file")
            }
            ParseErrorKind::InvalidDefault { kind, .. } => {
                write!(f, "{kind} fields may not have default values")
            }
            ParseErrorKind::InvalidExtendFieldKind { kind, .. } => {
                write!(f, "{kind} fields are not allowed in extensions")
            }
            ParseErrorKind::InvalidOneofFieldKind { kind, .. } => {
                write!(f, "{kind} fields are not allowed in a oneof")
            }
            ParseErrorKind::ValueInvalidType {
                expected,
                actual,
                ..
            } => write!(f, "expected value to be {expected}, but found '{actual}'"),
            ParseErrorKind::IntegerValueOutOfRange {
                expected,
                actual,
                ..
            } => write!(
                f,
                "expected value to be {expected}, but the value {actual} is out of range"
            ),
            fault => f.write_str(fixed_text(fault)),
        }
    }
}

/// Why a source could not be read.
#[derive(Debug, Drop)]
pub enum SyntaxFailure {
    /// The source has these faults, in the order in which they were found. There is at least one.
    Faults(Vec<ParseErrorKind>),
    /// Memory ran out.
    OutOfMemory,
}

impl From<AllocError> for SyntaxFailure {
    ghost use Rattle.std.specs.Prelude.{◌≡◌};
    ghost use Rattle.protox_fault.specs.declared.error.SyntaxFailure.TheVariants.{OutOfMemory};

    ghost from_gives = { λ _ failure. failure ≡ OutOfMemory };

    fn from(_error: AllocError) -> SyntaxFailure {
        SyntaxFailure::OutOfMemory
    }
}

impl<T: Drop> From<AllocFailed<T>> for SyntaxFailure {
    ghost use Rattle.std.specs.Prelude.{◌≡◌};
    ghost use Rattle.protox_fault.specs.declared.error.SyntaxFailure.TheVariants.{OutOfMemory};

    ghost from_gives = { λ _ failure. failure ≡ OutOfMemory };

    fn from(_error: AllocFailed<T>) -> SyntaxFailure {
        SyntaxFailure::OutOfMemory
    }
}
