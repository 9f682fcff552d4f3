//! What is told of a fault.

ghost use Rattle.std.specs.Prelude.{◌≡◌};
ghost use Rattle.protox_link_text.specs.Errors.{HasFixedText, text_of};

use protox_descriptor::values::Text;
use std::fmt;

/// What is told of a fault of a set of files. It is shown in protoc's words. A full name has no dot
/// in front.
#[derive(Debug, Drop)]
pub enum LinkError {
    /// A declaration has no name.
    MissingName,
    /// The name of a declaration or of a package is no identifier.
    BadName {
        name: Text,
    },
    /// The file declares this full name before, in the nameless scope.
    AlreadyDefined {
        name: Text,
    },
    /// The file declares the name in this scope before.
    AlreadyDefinedIn {
        name: Text,
        scope: Text,
    },
    /// Another file declares the full name before.
    AlreadyDefinedInFile {
        name: Text,
        file: Text,
    },
    /// Why a value clashes with something beside its enum, if that stands in the nameless scope.
    ValueBesideEnum {
        value: Text,
        of: Text,
    },
    /// Why a value clashes with something beside its enum, if that stands in this scope.
    ValueBesideEnumIn {
        value: Text,
        scope: Text,
        of: Text,
    },
    /// The table doesn't have the declaration. In the table of the files this can't be.
    NotInTable {
        name: Text,
    },
    /// A file declares the full name of a package, or of one around it, as something else.
    NotAPackage {
        name: Text,
        file: Text,
    },
    /// The name of a package has more than 511 bytes.
    LongPackage,
    /// The name of a package has more than 100 dots.
    DeepPackage,
    /// The name stands for nothing.
    NotDefined {
        name: Text,
    },
    /// The name would stand for what has this full name in a file that the `user` doesn't see.
    NotImported {
        name: Text,
        file: Text,
        user: Text,
    },
    /// The first part of the name stands for something that doesn't have the rest: `found` is the
    /// full name that was looked for last.
    NotDefinedInside {
        name: Text,
        found: Text,
    },
    /// The name stands for what is no message and no enum.
    NotAType {
        name: Text,
    },
    /// The name stands for what is no message.
    NotAMessage {
        name: Text,
    },
    /// A field whose type is a message has a default.
    MessageDefault,
    /// The default of a field whose type is an enum is no identifier.
    BadDefault,
    /// The enum with this full name has no value of this name.
    NoSuchValue {
        of: Text,
        value: Text,
    },
    /// An earlier field of the message has the number of a field.
    NumberReused {
        number: i32,
        message: Text,
        field: Text,
    },
    /// The number of the field is reserved.
    FieldReserved {
        field: Text,
        number: i32,
    },
    /// The number of the field is in an extension range, which goes from `first` to `last`.
    ForExtensions {
        first: i64,
        last: i64,
        field: Text,
        number: i32,
    },
    /// A reserved range overlaps an earlier one.
    ReservedTwice {
        first: i64,
        last: i64,
        other_first: i64,
        other_last: i64,
    },
    /// An extension range overlaps an earlier one.
    ExtensionsTwice {
        first: i64,
        last: i64,
        other_first: i64,
        other_last: i64,
    },
    /// An extension range overlaps a reserved range.
    ExtensionsReserved {
        first: i64,
        last: i64,
        other_first: i64,
        other_last: i64,
    },
    /// The number of the value is reserved.
    ValueReserved {
        value: Text,
        number: i32,
    },
    /// The name of the field is reserved.
    FieldNameReserved {
        name: Text,
    },
    /// The name of the value is reserved.
    ValueNameReserved {
        name: Text,
    },
    /// A message reserves the name twice.
    FieldNameReservedTwice {
        name: Text,
    },
    /// An enum reserves the name twice.
    ValueNameReservedTwice {
        name: Text,
    },
    /// The number of a field is one from 19000 to 19999.
    ForImplementation,
    /// An extension range has no number.
    EmptyExtensionRange,
    /// A reserved range has no number.
    EmptyReservedRange,
    /// An enum has no value.
    NoValue,
    /// In proto3 the first value of an enum has another number than 0.
    FirstNotZero,
    /// In proto3 a message has an extension range.
    ExtensionsInProto3,
    /// In proto3 the names of two fields are the same in JSON, but for case.
    FieldsAlike {
        name: Text,
        other: Text,
    },
    /// In proto3 the names of two values are the same, but for case and the name of their enum.
    ValuesAlike {
        name: Text,
        other: Text,
    },
    /// No extension range of the message has the number of an extension.
    NotDeclared {
        message: Text,
        number: i32,
    },
    /// An earlier extension of the file extends the message with the same number.
    ExtensionReused {
        number: i32,
        message: Text,
        extension: Text,
    },
    /// In proto3 an extension extends what is no message of options.
    NotOfOptions,
    /// No file has the name of the import.
    MissingImport {
        name: Text,
    },
    /// An earlier import has the same name.
    RepeatedImport {
        name: Text,
    },
    /// Files import one another in a circle. `names` are theirs, with arrows between them. The first
    /// one stands at the end once more.
    ImportCycle {
        names: Text,
    },
}

// The text of an error whose text is always the same.
fn fixed_text(error: &LinkError) -> &'static str
    ensures { HasFixedText error.now → result.now ≡ text_of error.now }
{
    match error {
        LinkError::MissingName => "Missing name.",
        LinkError::ForImplementation =>
            "Field numbers 19000 through 19999 are reserved for the protocol buffer library implementation.",
        LinkError::EmptyExtensionRange =>
            "Extension range end number must be greater than start number.",
        LinkError::EmptyReservedRange =>
            "Reserved range end number must be greater than start number.",
        LinkError::NoValue => "Enums must contain at least one value.",
        LinkError::MessageDefault => "Messages can't have default values.",
        LinkError::BadDefault => "Default value for an enum field must be an identifier.",
        LinkError::LongPackage => "Package name is too long",
        LinkError::DeepPackage => "Exceeds Maximum Package Depth",
        LinkError::FirstNotZero => "The first enum value must be zero in proto3.",
        LinkError::ExtensionsInProto3 => "Extension ranges are not allowed in proto3.",
        LinkError::NotOfOptions => "Extensions in proto3 are only allowed for defining options.",
        _ => "",
    }
}

impl fmt::Display for LinkError {
    ghost use Rattle.std.specs.Prelude.{Some};
    ghost use Rattle.protox_link_text.specs.Errors.{text_of};

    ghost output = { λ error. Some (text_of error) };

    fn fmt<W: fmt::Write>(&self, f: &mut fmt::Formatter<W>) -> fmt::Result {
        match self {
            LinkError::BadName { name } => write!(f, "\"{name}\" is not a valid identifier."),
            LinkError::AlreadyDefined { name } => write!(f, "\"{name}\" is already defined."),
            LinkError::AlreadyDefinedIn { name, scope } => {
                write!(f, "\"{name}\" is already defined in \"{scope}\".")
            }
            LinkError::AlreadyDefinedInFile { name, file } => {
                write!(f, "\"{name}\" is already defined in file \"{file}\".")
            }
            LinkError::ValueBesideEnum { value, of } => write!(
                f,
                "Note that enum values use C++ scoping rules, meaning that enum values are siblings of their type, not children of it.  Therefore, \"{value}\" must be unique within the global scope, not just within \"{of}\"."
            ),
            LinkError::ValueBesideEnumIn { value, scope, of } => write!(
                f,
                "Note that enum values use C++ scoping rules, meaning that enum values are siblings of their type, not children of it.  Therefore, \"{value}\" must be unique within \"{scope}\", not just within \"{of}\"."
            ),
            LinkError::NotInTable { name } => write!(f, "\"{name}\" is not in the table."),
            LinkError::NotAPackage { name, file } => write!(
                f,
                "\"{name}\" is already defined (as something other than a package) in file \"{file}\"."
            ),
            LinkError::NotDefined { name } => write!(f, "\"{name}\" is not defined."),
            LinkError::NotImported { name, file, user } => write!(
                f,
                "\"{name}\" seems to be defined in \"{file}\", which is not imported by \"{user}\".  To use it here, please add the necessary import."
            ),
            LinkError::NotDefinedInside { name, found } => write!(
                f,
                "\"{name}\" is resolved to \"{found}\", which is not defined. The innermost scope is searched first in name resolution. Consider using a leading '.'(i.e., \".{name}\") to start from the outermost scope."
            ),
            LinkError::NotAType { name } => write!(f, "\"{name}\" is not a type."),
            LinkError::NotAMessage { name } => write!(f, "\"{name}\" is not a message type."),
            LinkError::NoSuchValue { of, value } => {
                write!(f, "Enum type \"{of}\" has no value named \"{value}\".")
            }
            LinkError::NumberReused {
                number,
                message,
                field,
            } => write!(
                f,
                "Field number {number} has already been used in \"{message}\" by field \"{field}\"."
            ),
            LinkError::FieldReserved { field, number } => {
                write!(f, "Field \"{field}\" uses reserved number {number}.")
            }
            LinkError::ForExtensions {
                first,
                last,
                field,
                number,
            } => write!(
                f,
                "Extension range {first} to {last} includes field \"{field}\" ({number})."
            ),
            LinkError::ReservedTwice {
                first,
                last,
                other_first,
                other_last,
            } => write!(
                f,
                "Reserved range {first} to {last} overlaps with already-defined range {other_first} to {other_last}."
            ),
            LinkError::ExtensionsTwice {
                first,
                last,
                other_first,
                other_last,
            } => write!(
                f,
                "Extension range {first} to {last} overlaps with already-defined range {other_first} to {other_last}."
            ),
            LinkError::ExtensionsReserved {
                first,
                last,
                other_first,
                other_last,
            } => write!(
                f,
                "Extension range {first} to {last} overlaps with reserved range {other_first} to {other_last}."
            ),
            LinkError::ValueReserved { value, number } => {
                write!(f, "Enum value \"{value}\" uses reserved number {number}.")
            }
            LinkError::FieldNameReserved { name } => {
                write!(f, "Field name \"{name}\" is reserved.")
            }
            LinkError::ValueNameReserved { name } => {
                write!(f, "Enum value \"{name}\" is reserved.")
            }
            LinkError::FieldNameReservedTwice { name } => {
                write!(f, "Field name \"{name}\" is reserved multiple times.")
            }
            LinkError::ValueNameReservedTwice { name } => {
                write!(f, "Enum value \"{name}\" is reserved multiple times.")
            }
            LinkError::FieldsAlike { name, other } => write!(
                f,
                "The JSON camel-case name of field \"{name}\" conflicts with field \"{other}\". This is not allowed in proto3."
            ),
            LinkError::ValuesAlike { name, other } => write!(
                f,
                "Enum name {name} has the same name as {other} if you ignore case and strip out the enum name prefix (if any). This is error-prone and can lead to undefined behavior. Please avoid doing this. If you are using allow_alias, please assign the same numeric value to both enums."
            ),
            LinkError::NotDeclared { message, number } => write!(
                f,
                "\"{message}\" does not declare {number} as an extension number."
            ),
            LinkError::ExtensionReused {
                number,
                message,
                extension,
            } => write!(
                f,
                "Extension number {number} has already been used in \"{message}\" by extension \"{extension}\"."
            ),
            LinkError::MissingImport { name } => {
                write!(f, "Import \"{name}\" was not found or had errors.")
            }
            LinkError::RepeatedImport { name } => write!(f, "Import \"{name}\" was listed twice."),
            LinkError::ImportCycle { names } => {
                write!(f, "File recursively imports itself: {names}")
            }
            error => f.write_str(fixed_text(error)),
        }
    }
}
