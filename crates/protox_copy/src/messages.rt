//! Copies of messages and of what stands in them.

ghost use Rattle.std.specs.Prelude.{◌≡◌, IfOk};

use crate::{CopyIn, copy_lent};
use protox_descriptor::descriptor::descriptor_proto::{ExtensionRange, ReservedRange};
use protox_descriptor::descriptor::{DescriptorProto, FieldDescriptorProto, OneofDescriptorProto};
use protox_descriptor::values::Items;
use std::alloc::{AllocError, Global};

impl CopyIn for ExtensionRange {
    fn copy(&self, alloc: Global) -> Result<ExtensionRange, AllocError> {
        let options = self.options.copy(alloc)?;
        Ok(ExtensionRange {
            start: self.start,
            end: self.end,
            options,
        })
    }
}

impl CopyIn for ReservedRange {
    fn copy(&self, _alloc: Global) -> Result<ReservedRange, AllocError> {
        Ok(ReservedRange {
            start: self.start,
            end: self.end,
        })
    }
}

impl CopyIn for OneofDescriptorProto {
    fn copy(&self, alloc: Global) -> Result<OneofDescriptorProto, AllocError> {
        let name = self.name.copy(alloc)?;
        let options = self.options.copy(alloc)?;
        Ok(OneofDescriptorProto { name, options })
    }
}

impl CopyIn for FieldDescriptorProto {
    fn copy(&self, alloc: Global) -> Result<FieldDescriptorProto, AllocError> {
        let extendee = copy_lent(alloc, self.extendee())?;
        let default_value = copy_lent(alloc, self.default_value())?;
        let json_name = copy_lent(alloc, self.json_name())?;
        let options = copy_lent(alloc, self.options())?;
        let name = self.name.copy(alloc)?;
        let type_name = self.type_name.copy(alloc)?;
        let plain = FieldDescriptorProto::plain(
            name,
            self.number,
            self.label,
            self.field_type,
            type_name,
            self.oneof_index(),
            self.proto3_optional(),
        );
        plain.with_rare_parts(alloc, extendee, default_value, json_name, options)
    }
}

#[cycle(nested)]
fn copy_message(message: &DescriptorProto, alloc: Global) -> Result<DescriptorProto, AllocError>
    ensures { IfOk result (λ made. made ≡ message.now) }
{
    let nested_type = copy_messages(message.nested_type.as_slice(), alloc)?;
    let name = message.name.copy(alloc)?;
    let field = message.field.copy(alloc)?;
    let extension = message.extension.copy(alloc)?;
    let enum_type = message.enum_type.copy(alloc)?;
    let extension_range = message.extension_range.copy(alloc)?;
    let oneof_decl = message.oneof_decl.copy(alloc)?;
    let options = message.options.copy(alloc)?;
    let reserved_range = message.reserved_range.copy(alloc)?;
    let reserved_name = message.reserved_name.copy(alloc)?;
    Ok(DescriptorProto {
        name,
        field,
        extension,
        nested_type,
        enum_type,
        extension_range,
        oneof_decl,
        options,
        reserved_range,
        reserved_name,
    })
}

#[cycle(nested)]
fn copy_messages(
    messages: &[DescriptorProto],
    alloc: Global,
) -> Result<Items<DescriptorProto>, AllocError>
    ensures { IfOk result (λ made. made ≡ messages.now) }
{
    let mut made = Items::with_capacity(alloc, messages.len())?;
    for message in messages {
        made.push(copy_message(message, alloc)?)?;
    }
    Ok(made)
}

impl CopyIn for DescriptorProto {
    fn copy(&self, alloc: Global) -> Result<DescriptorProto, AllocError> {
        copy_message(self, alloc)
    }
}
