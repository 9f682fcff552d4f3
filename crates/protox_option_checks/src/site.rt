//! What is known where a part of a file is looked at.

use crate::marks::Marks;
use protox_descriptor::descriptor::FileDescriptorProto;
use protox_symbols::Symbols;
use std::alloc::Global;

/// A file of a set.
#[derive(Drop)]
pub(crate) struct Site<'a> {
    pub(crate) alloc: Global,
    /// All files of the set.
    pub(crate) files: &'a [FileDescriptorProto],
    /// The table of the set.
    pub(crate) symbols: &'a Symbols,
    pub(crate) marks: &'a Marks,
    /// The number of the file.
    pub(crate) number: usize,
}
