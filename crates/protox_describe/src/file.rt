//! The descriptor of a file: its head, and what each of its items adds.

ghost use Rattle.std.specs.Prelude.{◌≡◌, ◌++◌, [], IfOk, OnOk};
ghost use Rattle.std.specs.List.{flat_map};
ghost use Rattle.protox_describe.specs.File.{item_messages, item_enums, item_services, item_extensions, file_proto};

use crate::enums::enum_proto;
use crate::head::{ImportLists, imports, package_name, syntax_name};
use crate::items::push_extensions;
use crate::messages::{push_extend_messages, push_message};
use crate::options::file_options;
use crate::services::service_proto;
use protox_ast::ast::{File, FileItem, Syntax};
use protox_descriptor::descriptor::{
    DescriptorProto, EnumDescriptorProto, FieldDescriptorProto, FileDescriptorProto,
    ServiceDescriptorProto,
};
use protox_descriptor::values::{Items, Text};
use std::alloc::{AllocError, Global};

fn push_messages(
    alloc: Global,
    syntax: Syntax,
    item: &FileItem,
    found: &mut Items<DescriptorProto>,
) -> Result<(), AllocError>
    ensures { OnOk result (found.new ≡ found.old ++ item_messages syntax item.now) }
{
    match item {
        FileItem::Message(ast) => push_message(alloc, syntax, ast, found),
        FileItem::Extend(ast) => push_extend_messages(alloc, syntax, ast, found),
        FileItem::Enum(_) => Ok(()),
        FileItem::Service(_) => Ok(()),
    }
}

fn push_enums(
    alloc: Global,
    item: &FileItem,
    found: &mut Items<EnumDescriptorProto>,
) -> Result<(), AllocError>
    ensures { OnOk result (found.new ≡ found.old ++ item_enums item.now) }
{
    match item {
        FileItem::Enum(ast) => found.push(enum_proto(alloc, ast)?),
        FileItem::Message(_) => Ok(()),
        FileItem::Extend(_) => Ok(()),
        FileItem::Service(_) => Ok(()),
    }
}

fn push_services(
    alloc: Global,
    item: &FileItem,
    found: &mut Items<ServiceDescriptorProto>,
) -> Result<(), AllocError>
    ensures { OnOk result (found.new ≡ found.old ++ item_services item.now) }
{
    match item {
        FileItem::Service(ast) => found.push(service_proto(alloc, ast)?),
        FileItem::Message(_) => Ok(()),
        FileItem::Extend(_) => Ok(()),
        FileItem::Enum(_) => Ok(()),
    }
}

fn push_file_extensions(
    alloc: Global,
    syntax: Syntax,
    item: &FileItem,
    found: &mut Items<FieldDescriptorProto>,
) -> Result<(), AllocError>
    ensures { OnOk result (found.new ≡ found.old ++ item_extensions syntax item.now) }
{
    match item {
        FileItem::Extend(ast) => push_extensions(alloc, syntax, ast, found),
        FileItem::Message(_) => Ok(()),
        FileItem::Service(_) => Ok(()),
        FileItem::Enum(_) => Ok(()),
    }
}

/// The lists of a file's descriptor that the file's items fill, as far as they have been described.
#[derive(Drop)]
pub struct ItemLists {
    /// The messages, with those of groups and maps in `extend` statements.
    pub message_type: Items<DescriptorProto>,
    /// The enums.
    pub enum_type: Items<EnumDescriptorProto>,
    /// The services.
    pub service: Items<ServiceDescriptorProto>,
    /// The extensions.
    pub extension: Items<FieldDescriptorProto>,
}

impl ItemLists {
    /// The lists before the first item. They take no memory; later growth takes it from `alloc`.
    pub fn new(alloc: Global) -> ItemLists
        ensures { result ≡ record { message_type = []; enum_type = []; service = []; extension = [] } }
    {
        ItemLists {
            message_type: Items::new(alloc),
            enum_type: Items::new(alloc),
            service: Items::new(alloc),
            extension: Items::new(alloc),
        }
    }

    /// A descriptor with these lists in place of its own.
    pub fn put_into(self, mut file: FileDescriptorProto) -> FileDescriptorProto
        ensures { result ≡ record file { message_type = self.message_type; enum_type = self.enum_type; service = self.service; extension = self.extension } }
    {
        file.message_type = self.message_type;
        file.enum_type = self.enum_type;
        file.service = self.service;
        file.extension = self.extension;
        file
    }
}

/// Appends what an item of a file adds to each list. On `AllocError` the lists may hold a part of
/// it, so they are of no more use.
///
/// `AllocError` if memory runs out, and also if the index of a oneof would be beyond 2,147,483,647,
/// which no tree of a source within the limit needs.
pub fn describe_item(
    alloc: Global,
    syntax: Syntax,
    item: &FileItem,
    lists: &mut ItemLists,
) -> Result<(), AllocError>
    ensures messages { OnOk result (lists.new.message_type ≡ lists.old.message_type ++ item_messages syntax item.now) }
    ensures enums { OnOk result (lists.new.enum_type ≡ lists.old.enum_type ++ item_enums item.now) }
    ensures services { OnOk result (lists.new.service ≡ lists.old.service ++ item_services item.now) }
    ensures extensions { OnOk result (lists.new.extension ≡ lists.old.extension ++ item_extensions syntax item.now) }
{
    push_messages(alloc, syntax, item, &mut lists.message_type)?;
    push_enums(alloc, item, &mut lists.enum_type)?;
    push_services(alloc, item, &mut lists.service)?;
    push_file_extensions(alloc, syntax, item, &mut lists.extension)
}

/// The descriptor of a file of this name, without its locations and without what its items add.
///
/// `AllocError` if memory runs out, and also if the index of an import would be beyond
/// 2,147,483,647, which no tree of a source within the limit needs.
pub fn describe_head(
    alloc: Global,
    name: &str,
    ast: &File,
) -> Result<FileDescriptorProto, AllocError>
    ensures { IfOk result (λ file. file ≡ record (file_proto name.now ast.now) { message_type = []; enum_type = []; service = []; extension = [] }) }
{
    let name = Text::copy(alloc, name)?;
    let package = package_name(alloc, &ast.package)?;
    let syntax = syntax_name(alloc, ast.syntax)?;
    let ImportLists {
        dependency,
        public_dependency,
        weak_dependency,
    } = imports(alloc, ast.imports.as_slice())?;
    let options = file_options(alloc, ast.options.as_slice())?;
    Ok(FileDescriptorProto {
        name: Some(name),
        package,
        dependency,
        public_dependency,
        weak_dependency,
        message_type: Items::new(alloc),
        enum_type: Items::new(alloc),
        service: Items::new(alloc),
        extension: Items::new(alloc),
        options,
        source_code_info: None,
        syntax,
    })
}

// What all items add to the lists. Each item is dropped once it is described, so that its memory
// can serve the descriptor.
fn describe_items(
    alloc: Global,
    syntax: Syntax,
    items: Items<FileItem>,
) -> Result<ItemLists, AllocError>
    ensures messages { IfOk result (λ lists. lists.message_type ≡ flat_map (item_messages syntax) items) }
    ensures enums { IfOk result (λ lists. lists.enum_type ≡ flat_map item_enums items) }
    ensures services { IfOk result (λ lists. lists.service ≡ flat_map item_services items) }
    ensures extensions { IfOk result (λ lists. lists.extension ≡ flat_map (item_extensions syntax) items) }
{
    let mut lists = ItemLists::new(alloc);
    for item in items.into_vec() {
        describe_item(alloc, syntax, &item, &mut lists)?;
    }
    Ok(lists)
}

/// The descriptor of a file of this name, without locations. It uses the tree up.
///
/// `AllocError` if memory runs out, and also if an index (of a oneof or of an import) would be
/// beyond 2,147,483,647, which no tree of a source within the limit needs.
pub fn describe_file(
    alloc: Global,
    name: &str,
    ast: File,
) -> Result<FileDescriptorProto, AllocError>
    ensures { IfOk result (λ file. file ≡ file_proto name.now ast) }
{
    let file = describe_head(alloc, name, &ast)?;
    let lists = describe_items(alloc, ast.syntax, ast.items)?;
    Ok(lists.put_into(file))
}
