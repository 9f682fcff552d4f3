//! The messages of descriptor.proto, as far as a parser of source files fills them in. Each type is
//! named after its message, and each field after the message's field. An optional field is an
//! `Option`, and a repeated one is a list.

ghost use Rattle.std.specs.Prelude.{◌≡◌, [], None, false};
ghost use Rattle.protox_descriptor.specs.declared.descriptor.DescriptorProto.{roll-DescriptorProto};

use crate::values::{Items, Text};
use std::alloc::Global;

pub mod descriptor_proto;
pub mod enum_descriptor_proto;
mod field;
pub mod field_descriptor_proto;
mod options;
pub mod source_code_info;
pub mod uninterpreted_option;

pub use field::FieldDescriptorProto;
pub use options::{
    EnumOptions, EnumValueOptions, ExtensionRangeOptions, FieldOptions, FileOptions,
    MessageOptions, MethodOptions, OneofOptions, ServiceOptions, UninterpretedOption,
};

/// The message `FileDescriptorProto`: one source file.
#[derive(PartialEq, Debug, Drop)]
pub struct FileDescriptorProto {
    /// The name that the file was parsed under.
    pub name: Option<Text>,
    /// The name in the package statement.
    pub package: Option<Text>,
    /// The imported files, in order.
    pub dependency: Items<Text>,
    /// The indices of public imports in `dependency`, from 0.
    pub public_dependency: Items<i32>,
    /// The indices of weak imports in `dependency`, from 0.
    pub weak_dependency: Items<i32>,
    /// The messages of the file, in order. Those of groups in its `extend` blocks are among them.
    pub message_type: Items<DescriptorProto>,
    /// The enums of the file, in order.
    pub enum_type: Items<EnumDescriptorProto>,
    /// The services of the file, in order.
    pub service: Items<ServiceDescriptorProto>,
    /// The fields of the file's `extend` blocks, in order.
    pub extension: Items<FieldDescriptorProto>,
    /// The options of the file, if it has any.
    pub options: Option<FileOptions>,
    /// The place of each part of the file. `parse` always sets it.
    pub source_code_info: Option<SourceCodeInfo>,
    /// `proto3`, or None for proto2.
    pub syntax: Option<Text>,
}

impl FileDescriptorProto {
    /// A message with nothing set. It takes no memory; later growth takes it from `alloc`.
    pub fn new(alloc: Global) -> FileDescriptorProto
        ensures { result ≡ record { name = None; «package» = None; dependency = []; public_dependency = []; weak_dependency = []; message_type = []; enum_type = []; service = []; extension = []; options = None; source_code_info = None; syntax = None } }
    {
        FileDescriptorProto {
            name: None,
            package: None,
            dependency: Items::new(alloc),
            public_dependency: Items::new(alloc),
            weak_dependency: Items::new(alloc),
            message_type: Items::new(alloc),
            enum_type: Items::new(alloc),
            service: Items::new(alloc),
            extension: Items::new(alloc),
            options: None,
            source_code_info: None,
            syntax: None,
        }
    }
}

/// The message `DescriptorProto`: a message type. Drop, `==` and Debug call themselves for each
/// level of `nested_type`. A descriptor from a source has at most 31 levels. A deeper one can only
/// be made by hand.
#[derive(PartialEq, Debug, Drop)]
pub struct DescriptorProto {
    /// Its name, without the package and the messages around it.
    pub name: Option<Text>,
    /// Its fields in order, with those of its oneofs.
    pub field: Items<FieldDescriptorProto>,
    /// The fields of the `extend` blocks in it, in order.
    pub extension: Items<FieldDescriptorProto>,
    /// The messages in it, in order: nested messages, those of groups, and the entries of maps.
    pub nested_type: Items<DescriptorProto>,
    /// The enums in it, in order.
    pub enum_type: Items<EnumDescriptorProto>,
    /// The ranges of numbers that are free for extensions.
    pub extension_range: Items<descriptor_proto::ExtensionRange>,
    /// Its oneofs: first those in the source, then one for each `proto3_optional` field.
    pub oneof_decl: Items<OneofDescriptorProto>,
    /// Its options, if it has any.
    pub options: Option<MessageOptions>,
    /// The ranges of numbers that no field may have.
    pub reserved_range: Items<descriptor_proto::ReservedRange>,
    /// The names that no field may have.
    pub reserved_name: Items<Text>,
}

impl DescriptorProto {
    /// A message with nothing set. It takes no memory; later growth takes it from `alloc`.
    pub fn new(alloc: Global) -> DescriptorProto
        ensures { result ≡ roll-DescriptorProto (record { name = None; field = []; extension = []; nested_type = []; enum_type = []; extension_range = []; oneof_decl = []; options = None; reserved_range = []; reserved_name = [] }) }
    {
        DescriptorProto {
            name: None,
            field: Items::new(alloc),
            extension: Items::new(alloc),
            nested_type: Items::new(alloc),
            enum_type: Items::new(alloc),
            extension_range: Items::new(alloc),
            oneof_decl: Items::new(alloc),
            options: None,
            reserved_range: Items::new(alloc),
            reserved_name: Items::new(alloc),
        }
    }
}

/// The message `OneofDescriptorProto`: a oneof of a message.
#[derive(PartialEq, Debug, Drop)]
pub struct OneofDescriptorProto {
    /// Its name.
    pub name: Option<Text>,
    /// Its options, if it has any.
    pub options: Option<OneofOptions>,
}

impl OneofDescriptorProto {
    /// A message with nothing set. It takes no memory.
    pub fn new(_alloc: Global) -> OneofDescriptorProto
        ensures { result ≡ record { name = None; options = None } }
    {
        OneofDescriptorProto {
            name: None,
            options: None,
        }
    }
}

/// The message `EnumDescriptorProto`: an enum type.
#[derive(PartialEq, Debug, Drop)]
pub struct EnumDescriptorProto {
    /// Its name.
    pub name: Option<Text>,
    /// Its values, in order.
    pub value: Items<EnumValueDescriptorProto>,
    /// Its options, if it has any.
    pub options: Option<EnumOptions>,
    /// The ranges of numbers that no value may have.
    pub reserved_range: Items<enum_descriptor_proto::EnumReservedRange>,
    /// The names that no value may have.
    pub reserved_name: Items<Text>,
}

impl EnumDescriptorProto {
    /// A message with nothing set. It takes no memory; later growth takes it from `alloc`.
    pub fn new(alloc: Global) -> EnumDescriptorProto
        ensures { result ≡ record { name = None; value = []; options = None; reserved_range = []; reserved_name = [] } }
    {
        EnumDescriptorProto {
            name: None,
            value: Items::new(alloc),
            options: None,
            reserved_range: Items::new(alloc),
            reserved_name: Items::new(alloc),
        }
    }
}

/// The message `EnumValueDescriptorProto`: a value of an enum.
#[derive(PartialEq, Debug, Drop)]
pub struct EnumValueDescriptorProto {
    /// Its name.
    pub name: Option<Text>,
    /// Its number.
    pub number: Option<i32>,
    /// Its options, if it has any.
    pub options: Option<EnumValueOptions>,
}

impl EnumValueDescriptorProto {
    /// A message with nothing set. It takes no memory.
    pub fn new(_alloc: Global) -> EnumValueDescriptorProto
        ensures { result ≡ record { name = None; number = None; options = None } }
    {
        EnumValueDescriptorProto {
            name: None,
            number: None,
            options: None,
        }
    }
}

/// The message `ServiceDescriptorProto`: a service.
#[derive(PartialEq, Debug, Drop)]
pub struct ServiceDescriptorProto {
    /// Its name.
    pub name: Option<Text>,
    /// Its methods, in order.
    pub method: Items<MethodDescriptorProto>,
    /// Its options, if it has any.
    pub options: Option<ServiceOptions>,
}

impl ServiceDescriptorProto {
    /// A message with nothing set. It takes no memory; later growth takes it from `alloc`.
    pub fn new(alloc: Global) -> ServiceDescriptorProto
        ensures { result ≡ record { name = None; method = []; options = None } }
    {
        ServiceDescriptorProto {
            name: None,
            method: Items::new(alloc),
            options: None,
        }
    }
}

/// The message `MethodDescriptorProto`: a method of a service.
#[derive(PartialEq, Debug, Drop)]
pub struct MethodDescriptorProto {
    /// Its name.
    pub name: Option<Text>,
    /// The type of the request, as it stands in the source.
    pub input_type: Option<Text>,
    /// The type of the response, as it stands in the source.
    pub output_type: Option<Text>,
    /// Its options, if it has any.
    pub options: Option<MethodOptions>,
    /// True if `stream` stands before the request type, else None.
    pub client_streaming: Option<bool>,
    /// True if `stream` stands before the response type, else None.
    pub server_streaming: Option<bool>,
}

impl MethodDescriptorProto {
    /// A message with nothing set. It takes no memory.
    pub fn new(_alloc: Global) -> MethodDescriptorProto
        ensures { result ≡ record { name = None; input_type = None; output_type = None; options = None; client_streaming = None; server_streaming = None } }
    {
        MethodDescriptorProto {
            name: None,
            input_type: None,
            output_type: None,
            options: None,
            client_streaming: None,
            server_streaming: None,
        }
    }
}

/// The message `SourceCodeInfo`: the place of each part of a descriptor in the source.
#[derive(PartialEq, Debug, Drop)]
pub struct SourceCodeInfo {
    /// The locations, sorted by path.
    pub location: Items<source_code_info::Location>,
}

impl SourceCodeInfo {
    /// A message with nothing set. It takes no memory; later growth takes it from `alloc`.
    pub fn new(alloc: Global) -> SourceCodeInfo
        ensures { result ≡ record { location = [] } }
    {
        SourceCodeInfo {
            location: Items::new(alloc),
        }
    }
}
