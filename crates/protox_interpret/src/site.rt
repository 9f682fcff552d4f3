//! Where statements stand, and what comes of them.

use protox_descriptor::descriptor::FileDescriptorProto;
use protox_views::View;

/// Where the statements of an options message stand.
#[derive(Clone, Copy)]
pub struct Site<'a> {
    /// What their file sees of the table.
    pub view: &'a View<'a>,
    /// The linked files, those of the table.
    pub files: &'a [FileDescriptorProto],
    /// The number of the scope in which what has the options stands; of a file, that of its
    /// package.
    pub scope: Option<usize>,
    /// The number of the type of the options message, as `google.protobuf.FieldOptions`.
    pub message: usize,
}

/// Which field a statement sets.
#[derive(PartialEq, Debug, Drop)]
pub struct SetPath {
    /// The numbers of the fields that its name goes through, from the options message on.
    pub path: Vec<u32>,
    /// Whether the last of them is repeated. A statement adds one value then.
    pub repeated: bool,
}

/// What the statements of an options message set.
#[derive(PartialEq, Debug, Drop)]
pub struct Interpreted {
    /// The bytes of the options message.
    pub bytes: Vec<u8>,
    /// Which field each statement sets, in the order of the statements.
    pub paths: Vec<SetPath>,
}
