//! The checks of a whole file.

ghost use Rattle.std.specs.Prelude.{IfOk, OnOk};
ghost use Rattle.std.specs.List.{flat_map};
ghost use Rattle.protox_checks.specs.Checks.{AreListed, AreListedOfItem};
ghost use Rattle.protox_checks.specs.Faults.{EachIsWrong, HasEachWrong};
ghost use Rattle.protox_checks.specs.Nodes.{file_nodes, item_nodes};
ghost use Rattle.protox_checks.specs.inner.Walk.{AddsIn};

use crate::enums::{check_enum, check_service};
use crate::found::Found;
use crate::messages::{check_extend, check_message};
use crate::options::check_statements;
use protox_ast::ast::{File, FileItem, Syntax};
use protox_descriptor::values::Items;
use protox_fault::error::ParseErrorKind;
use std::alloc::{AllocError, Global};

fn add_item(syntax: Syntax, item: &FileItem, errors: &mut Found) -> Result<(), AllocError>
    ensures { OnOk result (AddsIn syntax errors.old errors.new (item_nodes item.now)) }
{
    match item {
        FileItem::Enum(ast) => check_enum(ast, errors),
        FileItem::Message(message) => check_message(syntax, message, errors),
        FileItem::Extend(extend) => check_extend(syntax, extend, errors),
        FileItem::Service(service) => check_service(service, errors),
    }
}

fn check_items(syntax: Syntax, items: &[FileItem], errors: &mut Found) -> Result<(), AllocError>
    ensures { OnOk result (AddsIn syntax errors.old errors.new (flat_map item_nodes items.now)) }
{
    for item in items {
        add_item(syntax, item, errors)?;
    }
    Ok(())
}

fn check_whole(ast: &File, errors: &mut Found) -> Result<(), AllocError>
    ensures { OnOk result (AddsIn ast.now.syntax errors.old errors.new (file_nodes ast.now)) }
{
    check_items(ast.syntax, ast.items.as_slice(), errors)?;
    check_statements(ast.options.as_slice(), errors)
}

/// Checks an item of a file in this syntax. Answers its faults in the order in which they are
/// found; none if the item is right. `AllocError` if memory runs out.
///
/// The faults of a file are those of its items, one item behind another, and then those that
/// `check_file` finds in the rest: in the file without its items.
pub fn check_item(
    alloc: Global,
    syntax: Syntax,
    item: &FileItem,
) -> Result<Items<ParseErrorKind>, AllocError>
    ensures { IfOk result (AreListedOfItem syntax item.now) }
{
    let mut errors = Found::new(alloc);
    add_item(syntax, item, &mut errors)?;
    Ok(errors.into_items())
}

/// Checks the syntax tree of a file. Answers its faults in the order in which they are found; none
/// if the file is right. `AllocError` if memory runs out.
pub fn check_file(alloc: Global, ast: &File) -> Result<Items<ParseErrorKind>, AllocError>
    // Each is a fault of the tree, each fault of the tree is listed, and they are in order.
    ensures wrong { IfOk result (EachIsWrong ast.now) }
    ensures all { IfOk result (HasEachWrong ast.now) }
    ensures in_order { IfOk result (AreListed ast.now) }
{
    let mut errors = Found::new(alloc);
    check_whole(ast, &mut errors)?;
    Ok(errors.into_items())
}
