//! What is wrong with a linked file once its options are read.

use protox_descriptor::values::Numbers;

/// What is wrong with a file of a set, and where. Files have the numbers of the list that they were
/// given in, from 0.
#[derive(Drop)]
pub struct CheckFault {
    /// The number of the file.
    pub file: usize,
    /// The path of the part at fault, from the file's descriptor on, as locations have it.
    pub path: Numbers,
    /// What is wrong.
    pub kind: CheckFaultKind,
}

/// What is wrong. What is declared is named by its number in the table of the set.
#[derive(Clone, Copy, PartialEq, Debug)]
pub enum CheckFaultKind {
    /// At its type: a field is `lazy` or `unverified_lazy`, and its type is no message.
    Lazy,
    /// At its type: a field is `packed`, and isn't repeated, or its type is a string, bytes, a
    /// message or a group.
    Packed,
    /// At its name: a field stands in a message set.
    MessageSetField,
    /// At its type: an extension of a message set isn't optional, or its type is no message.
    MessageSetExtension,
    /// At its extendee: an extension in a file for the lite runtime extends a message of a file
    /// that isn't for it.
    LiteExtension,
    /// At its type: the values of a map are of an enum that doesn't begin with 0.
    MapValueEnum,
    /// At its type: a field has a `jstype` other than `JS_NORMAL`, and its type is none of the
    /// integers of 64 bits.
    JsType,
    /// At its name in JSON: an extension has one that isn't the default one.
    ExtensionJsonName,
    /// At its type: in a file of proto3 the type of a field is the enum with this number, and the
    /// file of that isn't of proto3.
    ClosedEnum {
        /// The number of the enum.
        number: usize,
        /// The message that the field is of: of an extension, the one that it extends. In linked
        /// files there is one.
        message: Option<usize>,
    },
    /// At its number: a value of an enum has the number of an earlier value, and the enum doesn't
    /// allow aliases.
    SharedNumber {
        /// The value. In linked files the table has it, and the earlier one.
        value: Option<usize>,
        /// The first value that has its number.
        earlier: Option<usize>,
    },
    /// At its name: a message of a file of proto3 is a message set.
    MessageSetInProto3,
    /// At its name: a service stands in a file for the lite runtime that asks for generic services,
    /// of C++ or of Java.
    LiteService,
    /// At an import: the file isn't for the lite runtime, and this is the first of its imports that
    /// is. The imported file has this number.
    LiteImport(usize),
}
