//! Lists of fields and of methods, with their names resolved.

ghost use Rattle.std.specs.Prelude.{◌≡◌, OnOk, map};
ghost use Rattle.protox_names.specs.Tree.{name_of_place};
ghost use Rattle.protox_linked.specs.Linked.{linked_field, linked_method};

use crate::Names;
use crate::field::{link_field, link_name};
use protox_descriptor::descriptor::{FieldDescriptorProto, MethodDescriptorProto};
use protox_descriptor::values::Items;
use protox_scopes::Wanted;
use std::alloc::{AllocError, Global};
use std::mem::replace;

/// Resolves the names of fields, or of extensions, that stand in one scope. After an `AllocError`
/// the list is empty.
pub(crate) fn link_fields<N: Names>(
    alloc: Global,
    names: &N,
    scope: Option<usize>,
    fields: &mut Items<FieldDescriptorProto>,
) -> Result<(), AllocError>
    ensures { OnOk result (fields.new ≡ map (linked_field (N.meaning names.now)
        (name_of_place (N.name_of names.now) scope)) fields.old) }
{
    let mut list = replace(fields, Items::new(alloc)).into_vec();
    for field in list.iter_mut() {
        link_field(alloc, names, scope, field)?;
    }
    *fields = Items::from_vec(list);
    Ok(())
}

fn link_method<N: Names>(
    alloc: Global,
    names: &N,
    scope: Option<usize>,
    method: &mut MethodDescriptorProto,
) -> Result<(), AllocError>
    ensures { OnOk result (method.new ≡ linked_method (N.meaning names.now)
        (name_of_place (N.name_of names.now) scope) method.old) }
{
    let input = method.input_type.take();
    let input = link_name(alloc, names, Wanted::Anything, scope, input)?;
    method.input_type = input;
    let output = method.output_type.take();
    let output = link_name(alloc, names, Wanted::Anything, scope, output)?;
    method.output_type = output;
    Ok(())
}

/// Resolves the names of a service's methods. After an `AllocError` the list is empty.
pub(crate) fn link_methods<N: Names>(
    alloc: Global,
    names: &N,
    scope: Option<usize>,
    methods: &mut Items<MethodDescriptorProto>,
) -> Result<(), AllocError>
    ensures { OnOk result (methods.new ≡ map (linked_method (N.meaning names.now)
        (name_of_place (N.name_of names.now) scope)) methods.old) }
{
    let mut list = replace(methods, Items::new(alloc)).into_vec();
    for method in list.iter_mut() {
        link_method(alloc, names, scope, method)?;
    }
    *methods = Items::from_vec(list);
    Ok(())
}
