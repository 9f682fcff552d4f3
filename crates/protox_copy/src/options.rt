//! Copies of options.

use crate::CopyIn;
use protox_descriptor::descriptor::uninterpreted_option::NamePart;
use protox_descriptor::descriptor::{
    EnumOptions, EnumValueOptions, ExtensionRangeOptions, FieldOptions, FileOptions,
    MessageOptions, MethodOptions, OneofOptions, ServiceOptions, UninterpretedOption,
};
use std::alloc::{AllocError, Global};

impl CopyIn for NamePart {
    fn copy(&self, alloc: Global) -> Result<NamePart, AllocError> {
        let name_part = self.name_part.copy(alloc)?;
        Ok(NamePart {
            name_part,
            is_extension: self.is_extension,
        })
    }
}

impl CopyIn for UninterpretedOption {
    fn copy(&self, alloc: Global) -> Result<UninterpretedOption, AllocError> {
        let name = self.name.copy(alloc)?;
        let identifier_value = self.identifier_value.copy(alloc)?;
        let double_value = self.double_value.copy(alloc)?;
        let string_value = self.string_value.copy(alloc)?;
        let aggregate_value = self.aggregate_value.copy(alloc)?;
        Ok(UninterpretedOption {
            name,
            identifier_value,
            positive_int_value: self.positive_int_value,
            negative_int_value: self.negative_int_value,
            double_value,
            string_value,
            aggregate_value,
        })
    }
}

impl CopyIn for MessageOptions {
    fn copy(&self, alloc: Global) -> Result<MessageOptions, AllocError> {
        let uninterpreted_option = self.uninterpreted_option.copy(alloc)?;
        Ok(MessageOptions {
            map_entry: self.map_entry,
            uninterpreted_option,
        })
    }
}

impl CopyIn for FileOptions {
    fn copy(&self, alloc: Global) -> Result<FileOptions, AllocError> {
        let uninterpreted_option = self.uninterpreted_option.copy(alloc)?;
        Ok(FileOptions {
            uninterpreted_option,
        })
    }
}

impl CopyIn for FieldOptions {
    fn copy(&self, alloc: Global) -> Result<FieldOptions, AllocError> {
        let uninterpreted_option = self.uninterpreted_option.copy(alloc)?;
        Ok(FieldOptions {
            uninterpreted_option,
        })
    }
}

impl CopyIn for OneofOptions {
    fn copy(&self, alloc: Global) -> Result<OneofOptions, AllocError> {
        let uninterpreted_option = self.uninterpreted_option.copy(alloc)?;
        Ok(OneofOptions {
            uninterpreted_option,
        })
    }
}

impl CopyIn for EnumOptions {
    fn copy(&self, alloc: Global) -> Result<EnumOptions, AllocError> {
        let uninterpreted_option = self.uninterpreted_option.copy(alloc)?;
        Ok(EnumOptions {
            uninterpreted_option,
        })
    }
}

impl CopyIn for EnumValueOptions {
    fn copy(&self, alloc: Global) -> Result<EnumValueOptions, AllocError> {
        let uninterpreted_option = self.uninterpreted_option.copy(alloc)?;
        Ok(EnumValueOptions {
            uninterpreted_option,
        })
    }
}

impl CopyIn for ServiceOptions {
    fn copy(&self, alloc: Global) -> Result<ServiceOptions, AllocError> {
        let uninterpreted_option = self.uninterpreted_option.copy(alloc)?;
        Ok(ServiceOptions {
            uninterpreted_option,
        })
    }
}

impl CopyIn for MethodOptions {
    fn copy(&self, alloc: Global) -> Result<MethodOptions, AllocError> {
        let uninterpreted_option = self.uninterpreted_option.copy(alloc)?;
        Ok(MethodOptions {
            uninterpreted_option,
        })
    }
}

impl CopyIn for ExtensionRangeOptions {
    fn copy(&self, alloc: Global) -> Result<ExtensionRangeOptions, AllocError> {
        let uninterpreted_option = self.uninterpreted_option.copy(alloc)?;
        Ok(ExtensionRangeOptions {
            uninterpreted_option,
        })
    }
}
