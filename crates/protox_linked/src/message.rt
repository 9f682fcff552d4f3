//! Messages, with their names resolved, and those in them.

ghost use Rattle.std.specs.Prelude.{◌≡◌, OnOk, map, true};
ghost use Rattle.std.specs.List.{AllPass};
ghost use Rattle.protox_names.specs.Tree.{name_of_place};
ghost use Rattle.protox_linked.specs.Linked.{linked_message, message_stands};

use crate::Names;
use crate::field::text_of;
use crate::lists::link_fields;
use protox_descriptor::descriptor::DescriptorProto;
use protox_descriptor::values::Items;
use std::alloc::{AllocError, Global};
use std::mem::replace;

/// Resolves the names in a message. After an `AllocError` some of it may be done, and a list in the
/// message may be empty.
#[cycle(nested)]
fn link_message<N: Names>(
    alloc: Global,
    names: &N,
    scope: Option<usize>,
    message: &mut DescriptorProto,
) -> Result<(), AllocError>
    requires { message_stands (N.stands names.now)
        (name_of_place (N.name_of names.now) scope) message.old ≡ true }
    ensures { OnOk result (message.new ≡ linked_message (N.meaning names.now)
        (name_of_place (N.name_of names.now) scope) message.old) }
{
    let Some(inside) = names.inside(scope, text_of(message.name.as_ref())) else {
        return Ok(());
    };
    link_messages(alloc, names, Some(inside), &mut message.nested_type)?;
    link_fields(alloc, names, Some(inside), &mut message.field)?;
    link_fields(alloc, names, Some(inside), &mut message.extension)
}

/// Resolves the names in messages that stand in one scope. After an `AllocError` the list is empty.
#[cycle(nested)]
pub(crate) fn link_messages<N: Names>(
    alloc: Global,
    names: &N,
    scope: Option<usize>,
    messages: &mut Items<DescriptorProto>,
) -> Result<(), AllocError>
    requires { AllPass (message_stands (N.stands names.now)
        (name_of_place (N.name_of names.now) scope)) messages.old }
    ensures { OnOk result (messages.new ≡ map (linked_message (N.meaning names.now)
        (name_of_place (N.name_of names.now) scope)) messages.old) }
{
    let mut list = replace(messages, Items::new(alloc)).into_vec();
    for message in list.iter_mut() {
        link_message(alloc, names, scope, message)?;
    }
    *messages = Items::from_vec(list);
    Ok(())
}
