//! Calls of the parts that an answer is made of.

use protox_describe::file::describe_file;
use protox_generate::draft::FileDraft;
use protox_locate::file::locate_file;
use protox_parse::ast::{Comments, Enum, File, FileItem, Ident, Syntax};
use protox_parse::error::{ParseErrorKind, SyntaxFailure};
use protox_parse::syntax::read_source;
use protox_parse::values::Items;
use std::alloc::{AllocError, Global};
use std::mem;

const NAME: &str = "e.proto";

const SOURCE: &str = "enum E {}";

// The tree of the source.
fn tree(alloc: Global) -> Result<File, AllocError> {
    let name = Ident::new(String::from_str(alloc, "E")?, 5..6);
    let comments = Comments::new(alloc, Items::new(alloc), None, None)?;
    let item = FileItem::Enum(Enum {
        name,
        options: Items::new(alloc),
        values: Items::new(alloc),
        reserved: Items::new(alloc),
        comments,
        span: 0..9,
    });
    let mut items = Items::new(alloc);
    items.push(item)?;
    Ok(File {
        span: 0..9,
        syntax: Syntax::Proto2,
        syntax_span: None,
        package: None,
        imports: Items::new(alloc),
        options: Items::new(alloc),
        items,
    })
}

pub fn located(alloc: Global) -> Result<String, AllocError> {
    let ast = tree(alloc)?;
    let info = locate_file(alloc, SOURCE, &ast)?;
    format!(in alloc; "{info:?}")
}

pub fn described(alloc: Global) -> Result<String, AllocError> {
    let file = describe_file(alloc, NAME, tree(alloc)?)?;
    format!(in alloc; "{file:?}")
}

// The items of a file, one by one: the draft keeps their locations in pools.
fn take_items(
    alloc: Global,
    draft: &mut FileDraft<'_>,
    head: &File,
    items: Items<FileItem>,
) -> Result<(), AllocError> {
    for item in items.into_vec() {
        draft.take(alloc, head, item)?;
    }
    Ok(())
}

pub fn pooled(alloc: Global) -> Result<String, AllocError> {
    let mut head = tree(alloc)?;
    let items = mem::replace(&mut head.items, Items::new(alloc));
    let mut draft = FileDraft::pooled(alloc, SOURCE);
    take_items(alloc, &mut draft, &head, items)?;
    let made = draft.finish_pooled(alloc, NAME, &head)?;
    let info = made.locations.to_source_code_info(alloc)?;
    format!(in alloc; "{:?} {info:?}", made.file)
}

// What is wrong with an enum that has no name.
fn faults(alloc: Global, items: &mut Items<FileItem>) -> Result<Vec<ParseErrorKind>, AllocError> {
    match read_source(alloc, "enum {}", items) {
        Err(SyntaxFailure::Faults(faults)) => Ok(faults),
        Err(SyntaxFailure::OutOfMemory) => Err(AllocError),
        Ok(_) => Ok(Vec::new(alloc)),
    }
}

// The head of the source, and the number of its items; and what is wrong with another source.
fn told(alloc: Global, head: &File, items: &mut Items<FileItem>) -> Result<String, AllocError> {
    let faults = faults(alloc, items)?;
    let count = items.len();
    format!(in alloc;
        "{count} items, {:?}, {:?}; {faults:?}",
        head.syntax, head.span
    )
}

// Reads the source into a list, and tells of it.
fn read_into(alloc: Global, items: &mut Items<FileItem>) -> Result<String, AllocError> {
    match read_source(alloc, SOURCE, items) {
        Ok(head) => told(alloc, &head, items),
        Err(_) => Err(AllocError),
    }
}

pub fn read(alloc: Global) -> Result<String, AllocError> {
    let mut items = Items::new(alloc);
    read_into(alloc, &mut items)
}
