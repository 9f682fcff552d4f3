//! The number of each kind of error of linking.

ghost use Rattle.std.specs.Prelude.{◌≡◌};
ghost use Rattle.protox_link_records.specs.Kinds.{kind_of};

use protox_link_text::LinkError;

/// The number of an error's kind, from 101 in the order in which `LinkError` lists them.
pub fn kind_number(error: &LinkError) -> usize
    ensures { result ≡ kind_of error.now }
{
    match error {
        LinkError::MissingName => 101,
        LinkError::BadName { .. } => 102,
        LinkError::AlreadyDefined { .. } => 103,
        LinkError::AlreadyDefinedIn { .. } => 104,
        LinkError::AlreadyDefinedInFile { .. } => 105,
        LinkError::ValueBesideEnum { .. } => 106,
        LinkError::ValueBesideEnumIn { .. } => 107,
        LinkError::NotInTable { .. } => 108,
        LinkError::NotAPackage { .. } => 109,
        LinkError::LongPackage => 110,
        LinkError::DeepPackage => 111,
        LinkError::NotDefined { .. } => 112,
        LinkError::NotImported { .. } => 113,
        LinkError::NotDefinedInside { .. } => 114,
        LinkError::NotAType { .. } => 115,
        LinkError::NotAMessage { .. } => 116,
        LinkError::MessageDefault => 117,
        LinkError::BadDefault => 118,
        LinkError::NoSuchValue { .. } => 119,
        LinkError::NumberReused { .. } => 120,
        LinkError::FieldReserved { .. } => 121,
        LinkError::ForExtensions { .. } => 122,
        LinkError::ReservedTwice { .. } => 123,
        LinkError::ExtensionsTwice { .. } => 124,
        LinkError::ExtensionsReserved { .. } => 125,
        LinkError::ValueReserved { .. } => 126,
        LinkError::FieldNameReserved { .. } => 127,
        LinkError::ValueNameReserved { .. } => 128,
        LinkError::FieldNameReservedTwice { .. } => 129,
        LinkError::ValueNameReservedTwice { .. } => 130,
        LinkError::ForImplementation => 131,
        LinkError::EmptyExtensionRange => 132,
        LinkError::EmptyReservedRange => 133,
        LinkError::NoValue => 134,
        LinkError::FirstNotZero => 135,
        LinkError::ExtensionsInProto3 => 136,
        LinkError::FieldsAlike { .. } => 137,
        LinkError::ValuesAlike { .. } => 138,
        LinkError::NotDeclared { .. } => 139,
        LinkError::ExtensionReused { .. } => 140,
        LinkError::NotOfOptions => 141,
        LinkError::MissingImport { .. } => 142,
        LinkError::RepeatedImport { .. } => 143,
        LinkError::ImportCycle { .. } => 144,
    }
}
