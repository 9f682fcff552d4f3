//! Services, with their names resolved.

ghost use Rattle.std.specs.Prelude.{◌≡◌, OnOk, map, true};
ghost use Rattle.std.specs.List.{AllPass};
ghost use Rattle.protox_names.specs.Tree.{name_of_place};
ghost use Rattle.protox_linked.specs.Linked.{linked_service, service_stands};

use crate::Names;
use crate::field::text_of;
use crate::lists::link_methods;
use protox_descriptor::descriptor::ServiceDescriptorProto;
use protox_descriptor::values::Items;
use std::alloc::{AllocError, Global};
use std::mem::replace;

fn link_service<N: Names>(
    alloc: Global,
    names: &N,
    scope: Option<usize>,
    service: &mut ServiceDescriptorProto,
) -> Result<(), AllocError>
    requires { service_stands (N.stands names.now)
        (name_of_place (N.name_of names.now) scope) service.old ≡ true }
    ensures { OnOk result (service.new ≡ linked_service (N.meaning names.now)
        (name_of_place (N.name_of names.now) scope) service.old) }
{
    let Some(inside) = names.inside(scope, text_of(service.name.as_ref())) else {
        return Ok(());
    };
    link_methods(alloc, names, Some(inside), &mut service.method)
}

/// Resolves the names in services that stand in one scope. After an `AllocError` the list is empty.
pub(crate) fn link_services<N: Names>(
    alloc: Global,
    names: &N,
    scope: Option<usize>,
    services: &mut Items<ServiceDescriptorProto>,
) -> Result<(), AllocError>
    requires { AllPass (service_stands (N.stands names.now)
        (name_of_place (N.name_of names.now) scope)) services.old }
    ensures { OnOk result (services.new ≡ map (linked_service (N.meaning names.now)
        (name_of_place (N.name_of names.now) scope)) services.old) }
{
    let mut list = replace(services, Items::new(alloc)).into_vec();
    for service in list.iter_mut() {
        link_service(alloc, names, scope, service)?;
    }
    *services = Items::from_vec(list);
    Ok(())
}
