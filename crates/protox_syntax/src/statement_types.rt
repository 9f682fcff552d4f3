//! The statements of a file.

use protox_ast::ast::{FileItem, Import, Option as OptionStatement, Package};

/// A statement of a file.
#[derive(Drop)]
pub enum Statement {
    Empty,
    Import(Import),
    Package(Package),
    Option(OptionStatement),
    Item(FileItem),
}
