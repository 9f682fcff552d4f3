//! The files: one that declares options, and one that sets them.
//!
//! ```proto
//! syntax = "proto2";
//! package google.protobuf;
//! message FileOptions {
//!   optional string java_package = 1;
//!   optional bool java_multiple_files = 10;
//!   optional string go_package = 11;
//!   extensions 1000 to max;
//! }
//! message Deep { optional Deep deep = 1; repeated int32 n = 2; optional string s = 3; }
//! extend google.protobuf.FileOptions { optional int32 one = 50001; }
//! extend google.protobuf.FileOptions { repeated int32 many = 50002; }
//! extend google.protobuf.FileOptions { optional Deep held = 50003; }
//! ```

use protox_descriptor::descriptor::descriptor_proto::ExtensionRange;
use protox_descriptor::descriptor::field_descriptor_proto::{FieldType, Label};
use protox_descriptor::descriptor::{
    DescriptorProto, FieldDescriptorProto, FileDescriptorProto, FileOptions, UninterpretedOption,
};
use protox_descriptor::values::{Items, Text};
use std::alloc::{AllocError, Global};

// A field, by its label, its type, its name and its number.
fn field(
    alloc: Global,
    label: Label,
    field_type: FieldType,
    name: &str,
    number: i32,
) -> Result<FieldDescriptorProto, AllocError> {
    let name = Text::copy(alloc, name)?;
    let mut made = FieldDescriptorProto::new(alloc);
    made.name = Some(name);
    made.number = Some(number);
    made.label = Some(label as i32);
    made.field_type = Some(field_type as i32);
    Ok(made)
}

// A field whose type is `Deep`.
fn deep_field(alloc: Global, name: &str, number: i32) -> Result<FieldDescriptorProto, AllocError> {
    let type_name = Text::copy(alloc, "Deep")?;
    let mut made = field(alloc, Label::Optional, FieldType::Message, name, number)?;
    made.field_type = None;
    made.type_name = Some(type_name);
    Ok(made)
}

// An option that extends those of files.
fn option(
    alloc: Global,
    declared: Result<FieldDescriptorProto, AllocError>,
) -> Result<FieldDescriptorProto, AllocError> {
    let extendee = Text::copy(alloc, "google.protobuf.FileOptions")?;
    let mut made = declared?;
    made.set_extendee(alloc, Some(extendee))?;
    Ok(made)
}

fn message(
    alloc: Global,
    name: &str,
    fields: Items<FieldDescriptorProto>,
) -> Result<DescriptorProto, AllocError> {
    let name = Text::copy(alloc, name)?;
    let mut made = DescriptorProto::new(alloc);
    made.name = Some(name);
    made.field = fields;
    Ok(made)
}

fn file_options(alloc: Global) -> Result<DescriptorProto, AllocError> {
    let (one, text) = (Label::Optional, FieldType::String);
    let mut fields = Items::new(alloc);
    fields.push(field(alloc, one, text, "java_package", 1)?)?;
    fields.push(field(alloc, one, FieldType::Bool, "java_multiple_files", 10)?)?;
    fields.push(field(alloc, one, text, "go_package", 11)?)?;
    let mut range = ExtensionRange::new(alloc);
    range.start = Some(1000);
    range.end = Some(536870912);
    let mut made = message(alloc, "FileOptions", fields)?;
    made.extension_range.push(range)?;
    Ok(made)
}

fn deep(alloc: Global) -> Result<DescriptorProto, AllocError> {
    let mut fields = Items::new(alloc);
    fields.push(deep_field(alloc, "deep", 1)?)?;
    fields.push(field(alloc, Label::Repeated, FieldType::Int32, "n", 2)?)?;
    fields.push(field(alloc, Label::Optional, FieldType::String, "s", 3)?)?;
    message(alloc, "Deep", fields)
}

fn messages(alloc: Global) -> Result<Items<DescriptorProto>, AllocError> {
    let mut made = Items::new(alloc);
    made.push(file_options(alloc)?)?;
    made.push(deep(alloc)?)?;
    Ok(made)
}

fn options(alloc: Global) -> Result<Items<FieldDescriptorProto>, AllocError> {
    let number = FieldType::Int32;
    let mut made = Items::new(alloc);
    made.push(option(alloc, field(alloc, Label::Optional, number, "one", 50001))?)?;
    made.push(option(alloc, field(alloc, Label::Repeated, number, "many", 50002))?)?;
    made.push(option(alloc, deep_field(alloc, "held", 50003))?)?;
    Ok(made)
}

/// The file that declares the options.
pub(crate) fn schema(alloc: Global) -> Result<FileDescriptorProto, AllocError> {
    let name = Text::copy(alloc, "google/protobuf/descriptor.proto")?;
    let package = Text::copy(alloc, "google.protobuf")?;
    let (message_type, extension) = (messages(alloc)?, options(alloc)?);
    let mut file = FileDescriptorProto::new(alloc);
    file.name = Some(name);
    file.package = Some(package);
    file.message_type = message_type;
    file.extension = extension;
    Ok(file)
}

/// A file that imports that one, and has these statements.
pub(crate) fn user(
    alloc: Global,
    statements: Items<UninterpretedOption>,
) -> Result<FileDescriptorProto, AllocError> {
    let name = Text::copy(alloc, "user.proto")?;
    let mut dependency = Items::new(alloc);
    dependency.push(Text::copy(alloc, "google/protobuf/descriptor.proto")?)?;
    let mut options = FileOptions::new(alloc);
    options.uninterpreted_option = statements;
    let mut file = FileDescriptorProto::new(alloc);
    file.name = Some(name);
    file.dependency = dependency;
    file.options = Some(options);
    Ok(file)
}
