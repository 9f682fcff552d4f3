//! How descriptors are encoded.

ghost use Rattle.std.specs.Prelude.{◌≡◌, ◌++◌, Option, OnOk};
ghost use Rattle.std.specs.Option.{option_copied};
ghost use Rattle.protox_descriptor.specs.declared.descriptor.SourceCodeInfo.{SourceCodeInfo};
ghost use Rattle.protox_encode.specs.Pooled.{IsSpelledAs};
ghost use Rattle.protox_encode.specs.Wire.{message, part};
ghost use Rattle.protox_encode.specs.Payloads.{text, each};
ghost use Rattle.protox_encode.specs.Messages as words;
ghost use Rattle.protox_descriptor.specs.declared.descriptor.DescriptorProto.{out-DescriptorProto};

use crate::backward::Backward;
use crate::wire::{
    Message, prepend_each, prepend_flag, prepend_nested, prepend_signed, prepend_signeds,
    prepend_text, prepend_texts,
};
use protox_descriptor::descriptor::descriptor_proto::{ExtensionRange, ReservedRange};
use protox_descriptor::descriptor::enum_descriptor_proto::EnumReservedRange;
use protox_descriptor::descriptor::{
    DescriptorProto, EnumDescriptorProto, EnumValueDescriptorProto, FieldDescriptorProto,
    FileDescriptorProto, MethodDescriptorProto, OneofDescriptorProto, ServiceDescriptorProto,
};
use std::alloc::{AllocError, Global};

// Puts the parts that few fields have in front.
#[tactic(auto, unfolding(crate::specs::Messages::rare_parts))]
fn prepend_rare_parts(
    alloc: Global,
    out: &mut Backward,
    field: &FieldDescriptorProto,
) -> Result<(), AllocError>
    ensures { OnOk result (out.new ≡ message (words.rare_parts field.now) ++ out.old) }
{
    prepend_flag(alloc, out, 17, field.proto3_optional())?;
    prepend_text(alloc, out, 10, field.json_name())?;
    prepend_signed(alloc, out, 9, field.oneof_index())?;
    prepend_nested(alloc, out, 8, field.options())?;
    prepend_text(alloc, out, 7, field.default_value())
}

impl Message for FieldDescriptorProto {
    ghost parts = { words.field_descriptor };

    #[tactic(auto, unfolding(crate::specs::Messages::field_descriptor))]
    fn prepend_to(&self, alloc: Global, out: &mut Backward) -> Result<(), AllocError> {
        prepend_rare_parts(alloc, out, self)?;
        prepend_text(alloc, out, 6, self.type_name.as_ref())?;
        prepend_signed(alloc, out, 5, self.field_type)?;
        prepend_signed(alloc, out, 4, self.label)?;
        prepend_signed(alloc, out, 3, self.number)?;
        prepend_text(alloc, out, 2, self.extendee())?;
        prepend_text(alloc, out, 1, self.name.as_ref())
    }
}

impl Message for OneofDescriptorProto {
    ghost parts = { words.oneof_descriptor };

    #[tactic(auto, unfolding(crate::specs::Messages::oneof_descriptor))]
    fn prepend_to(&self, alloc: Global, out: &mut Backward) -> Result<(), AllocError> {
        prepend_nested(alloc, out, 2, self.options.as_ref())?;
        prepend_text(alloc, out, 1, self.name.as_ref())
    }
}

impl Message for EnumValueDescriptorProto {
    ghost parts = { words.enum_value_descriptor };

    #[tactic(auto, unfolding(crate::specs::Messages::enum_value_descriptor))]
    fn prepend_to(&self, alloc: Global, out: &mut Backward) -> Result<(), AllocError> {
        prepend_nested(alloc, out, 3, self.options.as_ref())?;
        prepend_signed(alloc, out, 2, self.number)?;
        prepend_text(alloc, out, 1, self.name.as_ref())
    }
}

impl Message for EnumReservedRange {
    ghost parts = { words.enum_reserved_range };

    #[tactic(auto, unfolding(crate::specs::Messages::enum_reserved_range))]
    fn prepend_to(&self, alloc: Global, out: &mut Backward) -> Result<(), AllocError> {
        prepend_signed(alloc, out, 2, self.end)?;
        prepend_signed(alloc, out, 1, self.start)
    }
}

impl Message for EnumDescriptorProto {
    ghost parts = { words.enum_descriptor };

    #[tactic(auto, unfolding(crate::specs::Messages::enum_descriptor))]
    fn prepend_to(&self, alloc: Global, out: &mut Backward) -> Result<(), AllocError> {
        prepend_texts(alloc, out, 5, self.reserved_name.as_slice())?;
        prepend_each(alloc, out, 4, &self.reserved_range)?;
        prepend_nested(alloc, out, 3, self.options.as_ref())?;
        prepend_each(alloc, out, 2, &self.value)?;
        prepend_text(alloc, out, 1, self.name.as_ref())
    }
}

impl Message for MethodDescriptorProto {
    ghost parts = { words.method_descriptor };

    #[tactic(auto, unfolding(crate::specs::Messages::method_descriptor))]
    fn prepend_to(&self, alloc: Global, out: &mut Backward) -> Result<(), AllocError> {
        prepend_flag(alloc, out, 6, self.server_streaming)?;
        prepend_flag(alloc, out, 5, self.client_streaming)?;
        prepend_nested(alloc, out, 4, self.options.as_ref())?;
        prepend_text(alloc, out, 3, self.output_type.as_ref())?;
        prepend_text(alloc, out, 2, self.input_type.as_ref())?;
        prepend_text(alloc, out, 1, self.name.as_ref())
    }
}

impl Message for ServiceDescriptorProto {
    ghost parts = { words.service_descriptor };

    #[tactic(auto, unfolding(crate::specs::Messages::service_descriptor))]
    fn prepend_to(&self, alloc: Global, out: &mut Backward) -> Result<(), AllocError> {
        prepend_nested(alloc, out, 3, self.options.as_ref())?;
        prepend_each(alloc, out, 2, &self.method)?;
        prepend_text(alloc, out, 1, self.name.as_ref())
    }
}

impl Message for ExtensionRange {
    ghost parts = { words.extension_range };

    #[tactic(auto, unfolding(crate::specs::Messages::extension_range))]
    fn prepend_to(&self, alloc: Global, out: &mut Backward) -> Result<(), AllocError> {
        prepend_nested(alloc, out, 3, self.options.as_ref())?;
        prepend_signed(alloc, out, 2, self.end)?;
        prepend_signed(alloc, out, 1, self.start)
    }
}

impl Message for ReservedRange {
    ghost parts = { words.reserved_range };

    #[tactic(auto, unfolding(crate::specs::Messages::reserved_range))]
    fn prepend_to(&self, alloc: Global, out: &mut Backward) -> Result<(), AllocError> {
        prepend_signed(alloc, out, 2, self.end)?;
        prepend_signed(alloc, out, 1, self.start)
    }
}

// Puts the fields of a message from 7 on in front.
#[tactic(auto, unfolding(crate::specs::Messages::message_end))]
fn prepend_message_end(
    alloc: Global,
    out: &mut Backward,
    m: &DescriptorProto,
) -> Result<(), AllocError>
    ensures { OnOk result (out.new ≡ message (words.message_end (out-DescriptorProto m.now)) ++ out.old) }
{
    prepend_texts(alloc, out, 10, m.reserved_name.as_slice())?;
    prepend_each(alloc, out, 9, &m.reserved_range)?;
    prepend_each(alloc, out, 8, &m.oneof_decl)?;
    prepend_nested(alloc, out, 7, m.options.as_ref())
}

// Puts the fields of a message from 4 on in front.
#[tactic(auto, unfolding(crate::specs::Messages::message_middle))]
fn prepend_message_middle(
    alloc: Global,
    out: &mut Backward,
    m: &DescriptorProto,
) -> Result<(), AllocError>
    ensures { OnOk result (out.new ≡ message (words.message_middle (out-DescriptorProto m.now)) ++ out.old) }
{
    prepend_message_end(alloc, out, m)?;
    prepend_each(alloc, out, 6, &m.extension)?;
    prepend_each(alloc, out, 5, &m.extension_range)?;
    prepend_each(alloc, out, 4, &m.enum_type)
}

// Puts the fields of a message before its nested messages in front.
fn prepend_message_front(
    alloc: Global,
    out: &mut Backward,
    m: &DescriptorProto,
) -> Result<(), AllocError>
    ensures { OnOk result (out.new ≡ part 1 (text (out-DescriptorProto m.now).name) ++ (part 2 (each words.field_descriptor (out-DescriptorProto m.now).field) ++ out.old)) }
{
    prepend_each(alloc, out, 2, &m.field)?;
    prepend_text(alloc, out, 1, m.name.as_ref())
}

impl Message for DescriptorProto {
    ghost parts = { words.message_descriptor };

    fn prepend_to(&self, alloc: Global, out: &mut Backward) -> Result<(), AllocError> {
        prepend_message_middle(alloc, out, self)?;
        prepend_each(alloc, out, 3, &self.nested_type)?;
        prepend_message_front(alloc, out, self)
    }
}

// Puts the fields of a file from 8 on in front, with the locations of `info`.
#[tactic(auto, unfolding(crate::specs::Messages::file_end))]
fn prepend_file_end<L: Message>(
    alloc: Global,
    out: &mut Backward,
    f: &FileDescriptorProto,
    info: Option<&L>,
) -> Result<(), AllocError>
    ensures { OnOk result ((of : Option SourceCodeInfo) → IsSpelledAs L.parts (option_copied info.entry) of → out.new ≡ message (words.file_end (record f.now { source_code_info = of })) ++ out.old) }
{
    prepend_text(alloc, out, 12, f.syntax.as_ref())?;
    prepend_signeds(alloc, out, 11, f.weak_dependency.as_slice())?;
    prepend_signeds(alloc, out, 10, f.public_dependency.as_slice())?;
    prepend_nested(alloc, out, 9, info)?;
    prepend_nested(alloc, out, 8, f.options.as_ref())
}

// Puts the fields of a file from 4 on in front, with the locations of `info`.
#[tactic(auto, unfolding(crate::specs::Messages::file_definitions))]
fn prepend_file_definitions<L: Message>(
    alloc: Global,
    out: &mut Backward,
    f: &FileDescriptorProto,
    info: Option<&L>,
) -> Result<(), AllocError>
    ensures { OnOk result ((of : Option SourceCodeInfo) → IsSpelledAs L.parts (option_copied info.entry) of → out.new ≡ message (words.file_definitions (record f.now { source_code_info = of })) ++ out.old) }
{
    prepend_file_end(alloc, out, f, info)?;
    prepend_each(alloc, out, 7, &f.extension)?;
    prepend_each(alloc, out, 6, &f.service)?;
    prepend_each(alloc, out, 5, &f.enum_type)?;
    prepend_each(alloc, out, 4, &f.message_type)
}

// Puts the fields of a file in front, with the locations of `info`.
#[tactic(auto, unfolding(crate::specs::Messages::file_descriptor))]
pub(crate) fn prepend_file<L: Message>(
    alloc: Global,
    out: &mut Backward,
    f: &FileDescriptorProto,
    info: Option<&L>,
) -> Result<(), AllocError>
    ensures { OnOk result ((of : Option SourceCodeInfo) → IsSpelledAs L.parts (option_copied info.entry) of → out.new ≡ message (words.file_descriptor (record f.now { source_code_info = of })) ++ out.old) }
{
    prepend_file_definitions(alloc, out, f, info)?;
    prepend_texts(alloc, out, 3, f.dependency.as_slice())?;
    prepend_text(alloc, out, 2, f.package.as_ref())?;
    prepend_text(alloc, out, 1, f.name.as_ref())
}

impl Message for FileDescriptorProto {
    ghost parts = { words.file_descriptor };

    fn prepend_to(&self, alloc: Global, out: &mut Backward) -> Result<(), AllocError> {
        prepend_file(alloc, out, self, self.source_code_info.as_ref())
    }
}
