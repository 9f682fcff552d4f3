//! Files, with their names resolved.

ghost use Rattle.std.specs.Prelude.{◌≡◌, OnOk, true};
ghost use Rattle.protox_names.specs.Tree.{name_of_place};
ghost use Rattle.protox_linked.specs.Linked.{file_stands, linked_file, text_of};

use crate::Names;
use crate::lists::link_fields;
use crate::message::link_messages;
use crate::service::link_services;
use protox_descriptor::descriptor::FileDescriptorProto;
use std::alloc::{AllocError, Global};

/// Resolves the names that a file uses: each becomes a dot and the full name of what it stands for.
/// A name that stands for nothing stays as it is. A field whose type is a name gets the type of a
/// message or of an enum, and each field gets a name in JSON, if it has none. All else stays.
///
/// It needs the number of the file's package, and that the messages and the services of the file
/// have numbers too. After an `AllocError` some of the file may be resolved, and some of its lists
/// may be empty, so let go of it.
pub fn link_file<N: Names>(
    alloc: Global,
    names: &N,
    package: Option<usize>,
    file: &mut FileDescriptorProto,
) -> Result<(), AllocError>
    requires package { name_of_place (N.name_of names.now) «package» ≡ text_of file.old.«package» }
    requires stands { file_stands (N.stands names.now) file.old ≡ true }
    ensures { OnOk result (file.new ≡ linked_file (N.meaning names.now) file.old) }
{
    link_messages(alloc, names, package, &mut file.message_type)?;
    link_services(alloc, names, package, &mut file.service)?;
    link_fields(alloc, names, package, &mut file.extension)
}
