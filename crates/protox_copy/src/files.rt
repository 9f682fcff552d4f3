//! Copies of files, enums and services.

use crate::CopyIn;
use protox_descriptor::descriptor::enum_descriptor_proto::EnumReservedRange;
use protox_descriptor::descriptor::{
    EnumDescriptorProto, EnumValueDescriptorProto, FileDescriptorProto, MethodDescriptorProto,
    ServiceDescriptorProto,
};
use std::alloc::{AllocError, Global};

impl CopyIn for EnumReservedRange {
    fn copy(&self, _alloc: Global) -> Result<EnumReservedRange, AllocError> {
        Ok(EnumReservedRange {
            start: self.start,
            end: self.end,
        })
    }
}

impl CopyIn for EnumValueDescriptorProto {
    fn copy(&self, alloc: Global) -> Result<EnumValueDescriptorProto, AllocError> {
        let name = self.name.copy(alloc)?;
        let options = self.options.copy(alloc)?;
        Ok(EnumValueDescriptorProto {
            name,
            number: self.number,
            options,
        })
    }
}

impl CopyIn for EnumDescriptorProto {
    fn copy(&self, alloc: Global) -> Result<EnumDescriptorProto, AllocError> {
        let name = self.name.copy(alloc)?;
        let value = self.value.copy(alloc)?;
        let options = self.options.copy(alloc)?;
        let reserved_range = self.reserved_range.copy(alloc)?;
        let reserved_name = self.reserved_name.copy(alloc)?;
        Ok(EnumDescriptorProto {
            name,
            value,
            options,
            reserved_range,
            reserved_name,
        })
    }
}

impl CopyIn for MethodDescriptorProto {
    fn copy(&self, alloc: Global) -> Result<MethodDescriptorProto, AllocError> {
        let name = self.name.copy(alloc)?;
        let input_type = self.input_type.copy(alloc)?;
        let output_type = self.output_type.copy(alloc)?;
        let options = self.options.copy(alloc)?;
        Ok(MethodDescriptorProto {
            name,
            input_type,
            output_type,
            options,
            client_streaming: self.client_streaming,
            server_streaming: self.server_streaming,
        })
    }
}

impl CopyIn for ServiceDescriptorProto {
    fn copy(&self, alloc: Global) -> Result<ServiceDescriptorProto, AllocError> {
        let name = self.name.copy(alloc)?;
        let method = self.method.copy(alloc)?;
        let options = self.options.copy(alloc)?;
        Ok(ServiceDescriptorProto {
            name,
            method,
            options,
        })
    }
}

impl CopyIn for FileDescriptorProto {
    fn copy(&self, alloc: Global) -> Result<FileDescriptorProto, AllocError> {
        let name = self.name.copy(alloc)?;
        let package = self.package.copy(alloc)?;
        let dependency = self.dependency.copy(alloc)?;
        let public_dependency = self.public_dependency.copy(alloc)?;
        let weak_dependency = self.weak_dependency.copy(alloc)?;
        let message_type = self.message_type.copy(alloc)?;
        let enum_type = self.enum_type.copy(alloc)?;
        let service = self.service.copy(alloc)?;
        let extension = self.extension.copy(alloc)?;
        let options = self.options.copy(alloc)?;
        let source_code_info = self.source_code_info.copy(alloc)?;
        let syntax = self.syntax.copy(alloc)?;
        Ok(FileDescriptorProto {
            name,
            package,
            dependency,
            public_dependency,
            weak_dependency,
            message_type,
            enum_type,
            service,
            extension,
            options,
            source_code_info,
            syntax,
        })
    }
}
