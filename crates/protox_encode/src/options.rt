//! How options are encoded.

ghost use Rattle.std.specs.Prelude.{◌≡◌, ◌++◌, OnOk};
ghost use Rattle.protox_encode.specs.Wire.{message};
ghost use Rattle.protox_encode.specs.Messages as words;

use crate::backward::Backward;
use crate::wire::{
    Message, prepend_bytes_of, prepend_double, prepend_each, prepend_flag, prepend_long,
    prepend_text, prepend_unsigned,
};
use protox_descriptor::descriptor::uninterpreted_option::NamePart;
use protox_descriptor::descriptor::{
    EnumOptions, EnumValueOptions, ExtensionRangeOptions, FieldOptions, FileOptions,
    MessageOptions, MethodOptions, OneofOptions, ServiceOptions, UninterpretedOption,
};
use std::alloc::{AllocError, Global};

impl Message for NamePart {
    ghost parts = { words.name_part };

    #[tactic(auto, unfolding(crate::specs::Messages::name_part))]
    fn prepend_to(&self, alloc: Global, out: &mut Backward) -> Result<(), AllocError> {
        prepend_flag(alloc, out, 2, Some(self.is_extension))?;
        prepend_text(alloc, out, 1, Some(&self.name_part))
    }
}

impl Message for UninterpretedOption {
    ghost parts = { words.uninterpreted_option };

    #[tactic(auto, unfolding(crate::specs::Messages::uninterpreted_option))]
    fn prepend_to(&self, alloc: Global, out: &mut Backward) -> Result<(), AllocError> {
        prepend_text(alloc, out, 8, self.aggregate_value.as_ref())?;
        prepend_bytes_of(alloc, out, 7, self.string_value.as_ref())?;
        prepend_double(alloc, out, 6, self.double_value.as_ref())?;
        prepend_long(alloc, out, 5, self.negative_int_value)?;
        prepend_unsigned(alloc, out, 4, self.positive_int_value)?;
        prepend_text(alloc, out, 3, self.identifier_value.as_ref())?;
        prepend_each(alloc, out, 2, &self.name)
    }
}

impl Message for FileOptions {
    ghost parts = { words.file_options };

    #[tactic(auto, unfolding(crate::specs::Messages::file_options, crate::specs::Messages::options))]
    fn prepend_to(&self, alloc: Global, out: &mut Backward) -> Result<(), AllocError> {
        prepend_each(alloc, out, 999, &self.uninterpreted_option)
    }
}

impl Message for FieldOptions {
    ghost parts = { words.field_options };

    #[tactic(auto, unfolding(crate::specs::Messages::field_options, crate::specs::Messages::options))]
    fn prepend_to(&self, alloc: Global, out: &mut Backward) -> Result<(), AllocError> {
        prepend_each(alloc, out, 999, &self.uninterpreted_option)
    }
}

impl Message for OneofOptions {
    ghost parts = { words.oneof_options };

    #[tactic(auto, unfolding(crate::specs::Messages::oneof_options, crate::specs::Messages::options))]
    fn prepend_to(&self, alloc: Global, out: &mut Backward) -> Result<(), AllocError> {
        prepend_each(alloc, out, 999, &self.uninterpreted_option)
    }
}

impl Message for EnumOptions {
    ghost parts = { words.enum_options };

    #[tactic(auto, unfolding(crate::specs::Messages::enum_options, crate::specs::Messages::options))]
    fn prepend_to(&self, alloc: Global, out: &mut Backward) -> Result<(), AllocError> {
        prepend_each(alloc, out, 999, &self.uninterpreted_option)
    }
}

impl Message for EnumValueOptions {
    ghost parts = { words.enum_value_options };

    #[tactic(auto, unfolding(crate::specs::Messages::enum_value_options, crate::specs::Messages::options))]
    fn prepend_to(&self, alloc: Global, out: &mut Backward) -> Result<(), AllocError> {
        prepend_each(alloc, out, 999, &self.uninterpreted_option)
    }
}

impl Message for ServiceOptions {
    ghost parts = { words.service_options };

    #[tactic(auto, unfolding(crate::specs::Messages::service_options, crate::specs::Messages::options))]
    fn prepend_to(&self, alloc: Global, out: &mut Backward) -> Result<(), AllocError> {
        prepend_each(alloc, out, 999, &self.uninterpreted_option)
    }
}

impl Message for MethodOptions {
    ghost parts = { words.method_options };

    #[tactic(auto, unfolding(crate::specs::Messages::method_options, crate::specs::Messages::options))]
    fn prepend_to(&self, alloc: Global, out: &mut Backward) -> Result<(), AllocError> {
        prepend_each(alloc, out, 999, &self.uninterpreted_option)
    }
}

impl Message for ExtensionRangeOptions {
    ghost parts = { words.extension_range_options };

    #[tactic(auto, unfolding(crate::specs::Messages::extension_range_options, crate::specs::Messages::options))]
    fn prepend_to(&self, alloc: Global, out: &mut Backward) -> Result<(), AllocError> {
        prepend_each(alloc, out, 999, &self.uninterpreted_option)
    }
}

impl Message for MessageOptions {
    ghost parts = { words.message_options };

    #[tactic(auto, unfolding(crate::specs::Messages::message_options, crate::specs::Messages::options))]
    fn prepend_to(&self, alloc: Global, out: &mut Backward) -> Result<(), AllocError> {
        prepend_each(alloc, out, 999, &self.uninterpreted_option)?;
        prepend_flag(alloc, out, 7, self.map_entry)
    }
}
