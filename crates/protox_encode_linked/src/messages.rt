//! How the descriptors of linked files are encoded.

ghost use Rattle.std.specs.Prelude.{◌≡◌, [], ◌∷◌, ◌++◌, OnOk};
ghost use Rattle.protox_encode.specs.Wire.{message, part};
ghost use Rattle.protox_encode.specs.Payloads.{text};
ghost use Rattle.protox_encode_linked.specs.Linked as words;
ghost use Rattle.protox_descriptor.specs.declared.descriptor.DescriptorProto.{out-DescriptorProto};

use crate::option_bytes::OptionBytes;
use crate::wire::{Linked, prepend_each_at, prepend_message_options, prepend_options};
use protox_descriptor::descriptor::descriptor_proto::ExtensionRange;
use protox_descriptor::descriptor::{
    DescriptorProto, EnumDescriptorProto, EnumValueDescriptorProto, FieldDescriptorProto,
    FileDescriptorProto, MethodDescriptorProto, OneofDescriptorProto, ServiceDescriptorProto,
};
use protox_encode::backward::Backward;
use protox_encode::wire::{
    prepend_each, prepend_flag, prepend_nested, prepend_signed, prepend_signeds, prepend_text,
    prepend_texts,
};
use std::alloc::{AllocError, Global};

// Puts the parts that few fields have in front.
#[tactic(auto, unfolding(crate::specs::Linked::rare_parts))]
fn prepend_rare_parts(
    alloc: Global,
    out: &mut Backward,
    field: &FieldDescriptorProto,
    set: &OptionBytes,
    path: &mut Vec<usize>,
) -> Result<(), AllocError>
    ensures bytes { OnOk result (out.new
        ≡ message (words.rare_parts set.now path.old.items field.now) ++ out.old) }
    ensures back { OnOk result (path.new.items ≡ path.old.items) }
{
    prepend_flag(alloc, out, 17, field.proto3_optional())?;
    prepend_text(alloc, out, 10, field.json_name())?;
    prepend_signed(alloc, out, 9, field.oneof_index())?;
    prepend_options(alloc, out, 8, field.options(), set, path)?;
    prepend_text(alloc, out, 7, field.default_value())
}

impl Linked for FieldDescriptorProto {
    ghost parts = { words.field_descriptor };

    #[tactic(auto, unfolding(crate::specs::Linked::field_descriptor))]
    fn prepend_at(
        &self,
        alloc: Global,
        out: &mut Backward,
        set: &OptionBytes,
        path: &mut Vec<usize>,
    ) -> Result<(), AllocError> {
        prepend_rare_parts(alloc, out, self, set, path)?;
        prepend_text(alloc, out, 6, self.type_name.as_ref())?;
        prepend_signed(alloc, out, 5, self.field_type)?;
        prepend_signed(alloc, out, 4, self.label)?;
        prepend_signed(alloc, out, 3, self.number)?;
        prepend_text(alloc, out, 2, self.extendee())?;
        prepend_text(alloc, out, 1, self.name.as_ref())
    }
}

impl Linked for OneofDescriptorProto {
    ghost parts = { words.oneof_descriptor };

    #[tactic(auto, unfolding(crate::specs::Linked::oneof_descriptor))]
    fn prepend_at(
        &self,
        alloc: Global,
        out: &mut Backward,
        set: &OptionBytes,
        path: &mut Vec<usize>,
    ) -> Result<(), AllocError> {
        prepend_options(alloc, out, 2, self.options.as_ref(), set, path)?;
        prepend_text(alloc, out, 1, self.name.as_ref())
    }
}

impl Linked for EnumValueDescriptorProto {
    ghost parts = { words.enum_value_descriptor };

    #[tactic(auto, unfolding(crate::specs::Linked::enum_value_descriptor))]
    fn prepend_at(
        &self,
        alloc: Global,
        out: &mut Backward,
        set: &OptionBytes,
        path: &mut Vec<usize>,
    ) -> Result<(), AllocError> {
        prepend_options(alloc, out, 3, self.options.as_ref(), set, path)?;
        prepend_signed(alloc, out, 2, self.number)?;
        prepend_text(alloc, out, 1, self.name.as_ref())
    }
}

impl Linked for EnumDescriptorProto {
    ghost parts = { words.enum_descriptor };

    #[tactic(auto, unfolding(crate::specs::Linked::enum_descriptor))]
    fn prepend_at(
        &self,
        alloc: Global,
        out: &mut Backward,
        set: &OptionBytes,
        path: &mut Vec<usize>,
    ) -> Result<(), AllocError> {
        prepend_texts(alloc, out, 5, self.reserved_name.as_slice())?;
        prepend_each(alloc, out, 4, &self.reserved_range)?;
        prepend_options(alloc, out, 3, self.options.as_ref(), set, path)?;
        prepend_each_at(alloc, out, 2, &self.value, set, path)?;
        prepend_text(alloc, out, 1, self.name.as_ref())
    }
}

impl Linked for MethodDescriptorProto {
    ghost parts = { words.method_descriptor };

    #[tactic(auto, unfolding(crate::specs::Linked::method_descriptor))]
    fn prepend_at(
        &self,
        alloc: Global,
        out: &mut Backward,
        set: &OptionBytes,
        path: &mut Vec<usize>,
    ) -> Result<(), AllocError> {
        prepend_flag(alloc, out, 6, self.server_streaming)?;
        prepend_flag(alloc, out, 5, self.client_streaming)?;
        prepend_options(alloc, out, 4, self.options.as_ref(), set, path)?;
        prepend_text(alloc, out, 3, self.output_type.as_ref())?;
        prepend_text(alloc, out, 2, self.input_type.as_ref())?;
        prepend_text(alloc, out, 1, self.name.as_ref())
    }
}

impl Linked for ServiceDescriptorProto {
    ghost parts = { words.service_descriptor };

    #[tactic(auto, unfolding(crate::specs::Linked::service_descriptor))]
    fn prepend_at(
        &self,
        alloc: Global,
        out: &mut Backward,
        set: &OptionBytes,
        path: &mut Vec<usize>,
    ) -> Result<(), AllocError> {
        prepend_options(alloc, out, 3, self.options.as_ref(), set, path)?;
        prepend_each_at(alloc, out, 2, &self.method, set, path)?;
        prepend_text(alloc, out, 1, self.name.as_ref())
    }
}

impl Linked for ExtensionRange {
    ghost parts = { words.extension_range };

    #[tactic(auto, unfolding(crate::specs::Linked::extension_range))]
    fn prepend_at(
        &self,
        alloc: Global,
        out: &mut Backward,
        set: &OptionBytes,
        path: &mut Vec<usize>,
    ) -> Result<(), AllocError> {
        prepend_options(alloc, out, 3, self.options.as_ref(), set, path)?;
        prepend_signed(alloc, out, 2, self.end)?;
        prepend_signed(alloc, out, 1, self.start)
    }
}

// Puts the fields of a message from 7 on in front.
#[tactic(auto, unfolding(crate::specs::Linked::message_end))]
fn prepend_message_end(
    alloc: Global,
    out: &mut Backward,
    m: &DescriptorProto,
    set: &OptionBytes,
    path: &mut Vec<usize>,
) -> Result<(), AllocError>
    ensures bytes { OnOk result (out.new
        ≡ message (words.message_end set.now path.old.items (out-DescriptorProto m.now))
        ++ out.old) }
    ensures back { OnOk result (path.new.items ≡ path.old.items) }
{
    prepend_texts(alloc, out, 10, m.reserved_name.as_slice())?;
    prepend_each(alloc, out, 9, &m.reserved_range)?;
    prepend_each_at(alloc, out, 8, &m.oneof_decl, set, path)?;
    prepend_message_options(alloc, out, m.options.as_ref(), set, path)
}

// Puts the fields of a message from 4 on in front.
#[tactic(auto, unfolding(crate::specs::Linked::message_middle))]
fn prepend_message_middle(
    alloc: Global,
    out: &mut Backward,
    m: &DescriptorProto,
    set: &OptionBytes,
    path: &mut Vec<usize>,
) -> Result<(), AllocError>
    ensures bytes { OnOk result (out.new
        ≡ message (words.message_middle set.now path.old.items (out-DescriptorProto m.now))
        ++ out.old) }
    ensures back { OnOk result (path.new.items ≡ path.old.items) }
{
    prepend_message_end(alloc, out, m, set, path)?;
    prepend_each_at(alloc, out, 6, &m.extension, set, path)?;
    prepend_each_at(alloc, out, 5, &m.extension_range, set, path)?;
    prepend_each_at(alloc, out, 4, &m.enum_type, set, path)
}

// Puts the fields of a message before its nested messages in front.
fn prepend_message_front(
    alloc: Global,
    out: &mut Backward,
    m: &DescriptorProto,
    set: &OptionBytes,
    path: &mut Vec<usize>,
) -> Result<(), AllocError>
    ensures bytes { OnOk result (out.new
        ≡ part 1 (text (out-DescriptorProto m.now).name)
        ++ (part 2 (words.each_at (words.field_descriptor set.now) (path.old.items ++ 2 ∷ [])
        (out-DescriptorProto m.now).field) ++ out.old)) }
    ensures back { OnOk result (path.new.items ≡ path.old.items) }
{
    prepend_each_at(alloc, out, 2, &m.field, set, path)?;
    prepend_text(alloc, out, 1, m.name.as_ref())
}

impl Linked for DescriptorProto {
    ghost parts = { words.message_descriptor };

    fn prepend_at(
        &self,
        alloc: Global,
        out: &mut Backward,
        set: &OptionBytes,
        path: &mut Vec<usize>,
    ) -> Result<(), AllocError> {
        prepend_message_middle(alloc, out, self, set, path)?;
        prepend_each_at(alloc, out, 3, &self.nested_type, set, path)?;
        prepend_message_front(alloc, out, self, set, path)
    }
}

// Puts the fields of a file from 8 on in front.
#[tactic(auto, unfolding(crate::specs::Linked::file_end))]
fn prepend_file_end(
    alloc: Global,
    out: &mut Backward,
    f: &FileDescriptorProto,
    set: &OptionBytes,
    path: &mut Vec<usize>,
) -> Result<(), AllocError>
    ensures bytes { OnOk result (out.new
        ≡ message (words.file_end set.now path.old.items f.now) ++ out.old) }
    ensures back { OnOk result (path.new.items ≡ path.old.items) }
{
    prepend_text(alloc, out, 12, f.syntax.as_ref())?;
    prepend_signeds(alloc, out, 11, f.weak_dependency.as_slice())?;
    prepend_signeds(alloc, out, 10, f.public_dependency.as_slice())?;
    prepend_nested(alloc, out, 9, f.source_code_info.as_ref())?;
    prepend_options(alloc, out, 8, f.options.as_ref(), set, path)
}

// Puts the fields of a file from 4 on in front.
#[tactic(auto, unfolding(crate::specs::Linked::file_definitions))]
fn prepend_file_definitions(
    alloc: Global,
    out: &mut Backward,
    f: &FileDescriptorProto,
    set: &OptionBytes,
    path: &mut Vec<usize>,
) -> Result<(), AllocError>
    ensures bytes { OnOk result (out.new
        ≡ message (words.file_definitions set.now path.old.items f.now) ++ out.old) }
    ensures back { OnOk result (path.new.items ≡ path.old.items) }
{
    prepend_file_end(alloc, out, f, set, path)?;
    prepend_each_at(alloc, out, 7, &f.extension, set, path)?;
    prepend_each_at(alloc, out, 6, &f.service, set, path)?;
    prepend_each_at(alloc, out, 5, &f.enum_type, set, path)?;
    prepend_each_at(alloc, out, 4, &f.message_type, set, path)
}

impl Linked for FileDescriptorProto {
    ghost parts = { words.file_at };

    #[tactic(auto, unfolding(crate::specs::Linked::file_at))]
    fn prepend_at(
        &self,
        alloc: Global,
        out: &mut Backward,
        set: &OptionBytes,
        path: &mut Vec<usize>,
    ) -> Result<(), AllocError> {
        prepend_file_definitions(alloc, out, self, set, path)?;
        prepend_texts(alloc, out, 3, self.dependency.as_slice())?;
        prepend_text(alloc, out, 2, self.package.as_ref())?;
        prepend_text(alloc, out, 1, self.name.as_ref())
    }
}
