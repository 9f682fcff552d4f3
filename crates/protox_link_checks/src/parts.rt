//! What is wrong with each kind of descriptor.

use crate::defaults::check_default;
use crate::each::{Checked, check_each};
use crate::file_view::FileView;
use crate::itself::{check_enum_itself, check_message_itself};
use crate::name::{check_name, inside};
use crate::numbers::check_number;
use crate::uses::{check_message, check_type};
use protox_descriptor::descriptor::{
    DescriptorProto, EnumDescriptorProto, EnumValueDescriptorProto, FieldDescriptorProto,
    MethodDescriptorProto, OneofDescriptorProto, ServiceDescriptorProto,
};
use protox_descriptor::tag::enum_::VALUE;
use protox_descriptor::tag::field::{EXTENDEE, TYPE_NAME};
use protox_descriptor::tag::message::{ENUM_TYPE, EXTENSION, FIELD, NESTED_TYPE, ONEOF_DECL};
use protox_descriptor::tag::method::{INPUT_TYPE, OUTPUT_TYPE};
use protox_descriptor::tag::service::METHOD;
use protox_link_fault::LinkFault;
use std::alloc::{AllocError, Global};

impl Checked for FieldDescriptorProto {
    ghost use Rattle.protox_walk.specs.Declarations.{field_at};

    ghost declares = { field_at };

    fn check(
        &self,
        alloc: Global,
        of: &FileView<'_>,
        scope: Option<Option<usize>>,
        path: &[i32],
        near: &mut usize,
        faults: &mut Vec<LinkFault>,
    ) -> Result<(), AllocError> {
        let name = self.name.as_ref();
        let Some(scope) = check_name(alloc, of, scope, path, name, near, faults)? else {
            return Ok(());
        };
        check_number(alloc, of.number, path, self, faults)?;
        let of_type = self.type_name.as_ref();
        check_type(
            alloc, of.view, of.number, scope, path, TYPE_NAME, of_type, faults,
        )?;
        let extendee = self.extendee();
        check_message(
            alloc, of.view, of.number, scope, path, EXTENDEE, extendee, faults,
        )?;
        let default = self.default_value();
        check_default(
            alloc, of.view, of.number, scope, path, of_type, default, faults,
        )
    }
}

impl Checked for OneofDescriptorProto {
    ghost use Rattle.protox_walk.specs.Declarations.{oneof_at};

    ghost declares = { oneof_at };

    fn check(
        &self,
        alloc: Global,
        of: &FileView<'_>,
        scope: Option<Option<usize>>,
        path: &[i32],
        near: &mut usize,
        faults: &mut Vec<LinkFault>,
    ) -> Result<(), AllocError> {
        let name = self.name.as_ref();
        check_name(alloc, of, scope, path, name, near, faults)?;
        Ok(())
    }
}

impl Checked for EnumValueDescriptorProto {
    ghost use Rattle.protox_walk.specs.Declarations.{value_at};

    ghost declares = { value_at };

    fn check(
        &self,
        alloc: Global,
        of: &FileView<'_>,
        scope: Option<Option<usize>>,
        path: &[i32],
        near: &mut usize,
        faults: &mut Vec<LinkFault>,
    ) -> Result<(), AllocError> {
        let name = self.name.as_ref();
        check_name(alloc, of, scope, path, name, near, faults)?;
        Ok(())
    }
}

impl Checked for EnumDescriptorProto {
    ghost use Rattle.protox_walk.specs.Declarations.{enum_at};

    ghost declares = { enum_at };

    // The values stand beside the enum.
    fn check(
        &self,
        alloc: Global,
        of: &FileView<'_>,
        scope: Option<Option<usize>>,
        path: &[i32],
        near: &mut usize,
        faults: &mut Vec<LinkFault>,
    ) -> Result<(), AllocError> {
        check_enum_itself(alloc, of, scope, path, self, near, faults)?;
        check_each(alloc, of, scope, path, VALUE, &self.value, near, faults)
    }
}

impl Checked for MethodDescriptorProto {
    ghost use Rattle.protox_walk.specs.Declarations.{method_at};

    ghost declares = { method_at };

    fn check(
        &self,
        alloc: Global,
        of: &FileView<'_>,
        scope: Option<Option<usize>>,
        path: &[i32],
        near: &mut usize,
        faults: &mut Vec<LinkFault>,
    ) -> Result<(), AllocError> {
        let name = self.name.as_ref();
        let Some(scope) = check_name(alloc, of, scope, path, name, near, faults)? else {
            return Ok(());
        };
        let input = self.input_type.as_ref();
        check_message(
            alloc, of.view, of.number, scope, path, INPUT_TYPE, input, faults,
        )?;
        let output = self.output_type.as_ref();
        check_message(
            alloc,
            of.view,
            of.number,
            scope,
            path,
            OUTPUT_TYPE,
            output,
            faults,
        )
    }
}

impl Checked for ServiceDescriptorProto {
    ghost use Rattle.protox_walk.specs.Declarations.{service_at};

    ghost declares = { service_at };

    fn check(
        &self,
        alloc: Global,
        of: &FileView<'_>,
        scope: Option<Option<usize>>,
        path: &[i32],
        near: &mut usize,
        faults: &mut Vec<LinkFault>,
    ) -> Result<(), AllocError> {
        let name = self.name.as_ref();
        check_name(alloc, of, scope, path, name, near, faults)?;
        let inner = inside(of.view, scope, name, near.saturating_sub(1));
        check_each(alloc, of, inner, path, METHOD, &self.method, near, faults)
    }
}

impl Checked for DescriptorProto {
    ghost use Rattle.protox_walk.specs.Declarations.{message_at};

    ghost declares = { message_at };

    fn check(
        &self,
        alloc: Global,
        of: &FileView<'_>,
        scope: Option<Option<usize>>,
        path: &[i32],
        near: &mut usize,
        faults: &mut Vec<LinkFault>,
    ) -> Result<(), AllocError> {
        check_message_itself(alloc, of, scope, path, self, near, faults)?;
        let inner = inside(of.view, scope, self.name.as_ref(), near.saturating_sub(1));
        let messages = &self.nested_type;
        let enums = &self.enum_type;
        let extensions = &self.extension;
        let oneofs = &self.oneof_decl;
        check_each(alloc, of, inner, path, FIELD, &self.field, near, faults)?;
        check_each(alloc, of, inner, path, NESTED_TYPE, messages, near, faults)?;
        check_each(alloc, of, inner, path, ENUM_TYPE, enums, near, faults)?;
        check_each(alloc, of, inner, path, EXTENSION, extensions, near, faults)?;
        check_each(alloc, of, inner, path, ONEOF_DECL, oneofs, near, faults)
    }
}
