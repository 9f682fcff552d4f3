//! What each kind of descriptor declares.

use crate::Symbols;
use crate::declares::{Declares, declare_each};
use protox_descriptor::descriptor::{
    DescriptorProto, EnumDescriptorProto, EnumValueDescriptorProto, FieldDescriptorProto,
    MethodDescriptorProto, OneofDescriptorProto, ServiceDescriptorProto,
};
use protox_descriptor::tag::enum_::VALUE;
use protox_descriptor::tag::message::{ENUM_TYPE, EXTENSION, FIELD, NESTED_TYPE, ONEOF_DECL};
use protox_descriptor::tag::service::METHOD;
use protox_scopes::Kind;
use std::alloc::{AllocError, Global};

impl Declares for FieldDescriptorProto {
    ghost use Rattle.protox_walk.specs.Declarations.{field_at};

    ghost declares = { field_at };

    fn declare(
        &self,
        alloc: Global,
        symbols: &mut Symbols,
        file: usize,
        scope: Option<usize>,
        path: &[i32],
    ) -> Result<(), AllocError> {
        let name = self.name.as_ref();
        symbols.declare_part(alloc, file, scope, path, name, Kind::Member)?;
        Ok(())
    }
}

impl Declares for OneofDescriptorProto {
    ghost use Rattle.protox_walk.specs.Declarations.{oneof_at};

    ghost declares = { oneof_at };

    fn declare(
        &self,
        alloc: Global,
        symbols: &mut Symbols,
        file: usize,
        scope: Option<usize>,
        path: &[i32],
    ) -> Result<(), AllocError> {
        let name = self.name.as_ref();
        symbols.declare_part(alloc, file, scope, path, name, Kind::Member)?;
        Ok(())
    }
}

impl Declares for EnumValueDescriptorProto {
    ghost use Rattle.protox_walk.specs.Declarations.{value_at};

    ghost declares = { value_at };

    fn declare(
        &self,
        alloc: Global,
        symbols: &mut Symbols,
        file: usize,
        scope: Option<usize>,
        path: &[i32],
    ) -> Result<(), AllocError> {
        let name = self.name.as_ref();
        symbols.declare_part(alloc, file, scope, path, name, Kind::Member)?;
        Ok(())
    }
}

impl Declares for EnumDescriptorProto {
    ghost use Rattle.protox_walk.specs.Declarations.{enum_at};

    ghost declares = { enum_at };

    // The values stand beside the enum.
    fn declare(
        &self,
        alloc: Global,
        symbols: &mut Symbols,
        file: usize,
        scope: Option<usize>,
        path: &[i32],
    ) -> Result<(), AllocError> {
        let name = self.name.as_ref();
        symbols.declare_part(alloc, file, scope, path, name, Kind::Enum)?;
        declare_each(alloc, symbols, file, scope, path, VALUE, &self.value)
    }
}

impl Declares for MethodDescriptorProto {
    ghost use Rattle.protox_walk.specs.Declarations.{method_at};

    ghost declares = { method_at };

    fn declare(
        &self,
        alloc: Global,
        symbols: &mut Symbols,
        file: usize,
        scope: Option<usize>,
        path: &[i32],
    ) -> Result<(), AllocError> {
        let name = self.name.as_ref();
        symbols.declare_part(alloc, file, scope, path, name, Kind::Member)?;
        Ok(())
    }
}

impl Declares for ServiceDescriptorProto {
    ghost use Rattle.protox_walk.specs.Declarations.{service_at};

    ghost declares = { service_at };

    fn declare(
        &self,
        alloc: Global,
        symbols: &mut Symbols,
        file: usize,
        scope: Option<usize>,
        path: &[i32],
    ) -> Result<(), AllocError> {
        let name = self.name.as_ref();
        let found = symbols.declare_part(alloc, file, scope, path, name, Kind::Service)?;
        // without its scope, nothing that is in it can stand
        let Some(inner) = found else {
            return Ok(());
        };
        declare_each(alloc, symbols, file, inner, path, METHOD, &self.method)
    }
}

impl Declares for DescriptorProto {
    ghost use Rattle.protox_walk.specs.Declarations.{message_at};

    ghost declares = { message_at };

    fn declare(
        &self,
        alloc: Global,
        symbols: &mut Symbols,
        file: usize,
        scope: Option<usize>,
        path: &[i32],
    ) -> Result<(), AllocError> {
        let name = self.name.as_ref();
        let found = symbols.declare_part(alloc, file, scope, path, name, Kind::Message)?;
        // without its scope, nothing that is in it can stand
        let Some(inner) = found else {
            return Ok(());
        };
        let messages = &self.nested_type;
        let enums = &self.enum_type;
        let extensions = &self.extension;
        let oneofs = &self.oneof_decl;
        declare_each(alloc, symbols, file, inner, path, FIELD, &self.field)?;
        declare_each(alloc, symbols, file, inner, path, NESTED_TYPE, messages)?;
        declare_each(alloc, symbols, file, inner, path, ENUM_TYPE, enums)?;
        declare_each(alloc, symbols, file, inner, path, EXTENSION, extensions)?;
        declare_each(alloc, symbols, file, inner, path, ONEOF_DECL, oneofs)
    }
}
