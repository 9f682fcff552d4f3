//! What each kind of descriptor declares.

use crate::each::{Declares, name_in, walk_each};
use crate::{Part, Visit};
use protox_descriptor::descriptor::{
    EnumDescriptorProto, EnumValueDescriptorProto, FieldDescriptorProto, MethodDescriptorProto,
    OneofDescriptorProto, ServiceDescriptorProto,
};
use protox_descriptor::tag::{enum_, service};
use std::alloc::Global;

impl<'a, V: Visit<'a>> Declares<'a, V> for FieldDescriptorProto {
    ghost use Rattle.protox_walk.specs.Declarations.{field_at};

    ghost declares = { field_at };

    fn walk(
        &'a self,
        alloc: Global,
        visitor: &mut V,
        scope: &str,
        path: &[i32],
    ) -> Result<(), V::Error> {
        let name = name_in(alloc, scope, self.name.as_ref())?;
        visitor.visit(path, name.as_str(), Part::Field(self))
    }
}

impl<'a, V: Visit<'a>> Declares<'a, V> for OneofDescriptorProto {
    ghost use Rattle.protox_walk.specs.Declarations.{oneof_at};

    ghost declares = { oneof_at };

    fn walk(
        &'a self,
        alloc: Global,
        visitor: &mut V,
        scope: &str,
        path: &[i32],
    ) -> Result<(), V::Error> {
        let name = name_in(alloc, scope, self.name.as_ref())?;
        visitor.visit(path, name.as_str(), Part::Oneof(self))
    }
}

impl<'a, V: Visit<'a>> Declares<'a, V> for EnumValueDescriptorProto {
    ghost use Rattle.protox_walk.specs.Declarations.{value_at};

    ghost declares = { value_at };

    fn walk(
        &'a self,
        alloc: Global,
        visitor: &mut V,
        scope: &str,
        path: &[i32],
    ) -> Result<(), V::Error> {
        let name = name_in(alloc, scope, self.name.as_ref())?;
        visitor.visit(path, name.as_str(), Part::Value(self))
    }
}

impl<'a, V: Visit<'a>> Declares<'a, V> for EnumDescriptorProto {
    ghost use Rattle.protox_walk.specs.Declarations.{enum_at};

    ghost declares = { enum_at };

    fn walk(
        &'a self,
        alloc: Global,
        visitor: &mut V,
        scope: &str,
        path: &[i32],
    ) -> Result<(), V::Error> {
        let name = name_in(alloc, scope, self.name.as_ref())?;
        visitor.visit(path, name.as_str(), Part::Enum(self))?;
        walk_each(alloc, visitor, scope, path, enum_::VALUE, &self.value)
    }
}

impl<'a, V: Visit<'a>> Declares<'a, V> for MethodDescriptorProto {
    ghost use Rattle.protox_walk.specs.Declarations.{method_at};

    ghost declares = { method_at };

    fn walk(
        &'a self,
        alloc: Global,
        visitor: &mut V,
        scope: &str,
        path: &[i32],
    ) -> Result<(), V::Error> {
        let name = name_in(alloc, scope, self.name.as_ref())?;
        visitor.visit(path, name.as_str(), Part::Method(self))
    }
}

impl<'a, V: Visit<'a>> Declares<'a, V> for ServiceDescriptorProto {
    ghost use Rattle.protox_walk.specs.Declarations.{service_at};

    ghost declares = { service_at };

    fn walk(
        &'a self,
        alloc: Global,
        visitor: &mut V,
        scope: &str,
        path: &[i32],
    ) -> Result<(), V::Error> {
        let name = name_in(alloc, scope, self.name.as_ref())?;
        visitor.visit(path, name.as_str(), Part::Service(self))?;
        walk_each(
            alloc,
            visitor,
            name.as_str(),
            path,
            service::METHOD,
            &self.method,
        )
    }
}
