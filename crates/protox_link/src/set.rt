//! Linked sets of files.

use protox_descriptor::descriptor::FileDescriptorProto;

/// Files in which each name that is used is a dot and the full name of what it stands for.
#[derive(Drop)]
pub struct LinkedSet {
    /// The files, in the order in which they were given.
    pub files: Vec<FileDescriptorProto>,
    /// Their numbers, in an order in which each file stands behind what it imports.
    pub order: Vec<usize>,
}
