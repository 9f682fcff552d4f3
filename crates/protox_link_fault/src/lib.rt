//! What can be wrong with a set of files that use one another's names.
#![tactic(auto)]

use protox_descriptor::values::{Numbers, Text};

/// What is wrong with a file of a set, and where. Files have the numbers of the list that they were
/// given in, from 0.
#[derive(Drop)]
pub struct LinkFault {
    /// The number of the file.
    pub file: usize,
    /// The path of the part at fault, from the file's descriptor on, as locations have it: of a
    /// name, a type, an extendee, the type of a method, or an import.
    pub path: Numbers,
    /// What is wrong.
    pub kind: LinkFaultKind,
}

/// What is wrong. What is declared is named by its number in the table of the set.
#[derive(Drop)]
pub enum LinkFaultKind {
    /// A declaration has no name.
    MissingName,
    /// The name of a declaration is no identifier: a letter, a digit or `_`, once or more.
    BadName,
    /// What has this number has the same full name, and was declared before.
    AlreadyDefined(usize),
    /// The table doesn't have the declaration, although it has what the declaration stands in. In the
    /// table of the set this can't be.
    NotInTable,
    /// What has this number has the full name of a package of the file, and is no package.
    NotAPackage(usize),
    /// The name of the file's package has more than 511 bytes.
    LongPackage,
    /// It has no more, but more than 100 dots.
    DeepPackage,
    /// This name stands for nothing.
    NotDefined(Text),
    /// This name stands for what is no message and no enum.
    NotAType(Text),
    /// This name stands for what is no message.
    NotAMessage(Text),
    /// A field whose type is a message has a default.
    MessageDefault,
    /// The default of a field whose type is an enum is no identifier: a letter or `_`, and then
    /// letters, digits and `_`.
    BadDefault,
    /// The default of a field is no value of its type, the enum with this number.
    NoSuchValue(usize),
    /// A number or a range clashes with another one, in this way: with the field, the reserved range
    /// or the extension range that has this index in the message, or with the reserved range that
    /// has it in the enum.
    Clash(NumberFault, usize),
    /// The number of a field is one from 19000 to 19999.
    ForImplementation,
    /// An extension range has no number, or a reserved range of an enum.
    EmptyRange,
    /// An enum has no value.
    NoValue,
    /// A message or an enum reserves the name that has this index among those that it reserves, and
    /// reserved it before.
    ReservedAgain(usize),
    /// The name of a field, or of a value of an enum, is reserved.
    ReservedName,
    /// In a file of proto3 the first value of an enum has another number than 0.
    FirstNotZero,
    /// In a file of proto3 a message has an extension range.
    ExtensionsInProto3,
    /// In a file of proto3 the name of a field is that of an earlier field, but for case and `_`; or
    /// that of a value of an enum is that of an earlier value, but for case, `_` and the name of the
    /// enum in front, and they have different names and numbers. The first such one has this index.
    Alike(usize),
    /// The number of an extension is in no extension range of the message with this number, which it
    /// extends.
    OutOfRanges(usize),
    /// An extension extends the message with the first number. An earlier extension of the file, the
    /// one with the second number, extends it with the same number of a field.
    ExtensionReused(usize, usize),
    /// In a file of proto3 an extension extends what is no message of options.
    NotOfOptions,
    /// No file has the name of the import.
    MissingImport,
    /// An earlier import has the same name.
    RepeatedImport,
    /// The import closes a circle: these files import one another in this order, and the last one
    /// imports the first.
    ImportCycle(Vec<usize>),
}

/// How numbers and ranges clash.
#[derive(Clone, Copy, PartialEq, Debug)]
pub enum NumberFault {
    /// An earlier field has the number of a field.
    Reused,
    /// The number of a field is in a reserved range.
    Reserved,
    /// The number of a field is in an extension range.
    ForExtensions,
    /// A reserved range overlaps an earlier one.
    ReservedTwice,
    /// An extension range overlaps an earlier one.
    ExtensionsTwice,
    /// An extension range overlaps a reserved range.
    ExtensionsReserved,
    /// The number of a value of an enum is in a reserved range.
    ValueReserved,
    /// A reserved range of an enum overlaps an earlier one.
    ValuesReservedTwice,
}

/// Why a set of files could not be linked.
#[derive(Drop)]
pub enum LinkFailure {
    /// This is wrong, in the order of the files and of their parts.
    Refused(Vec<LinkFault>),
    /// Memory ran out.
    OutOfMemory,
}
