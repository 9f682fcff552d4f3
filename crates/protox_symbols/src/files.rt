//! The table of a list of files.

ghost use Rattle.std.specs.Prelude.{◌≡◌, fold, IfOk, OnOk};
ghost use Rattle.protox_symbols.specs.Things.{file_entries, package_entries, table_of, with_entry};
ghost use Rattle.protox_symbols.specs.Scopes.{IsFoundScope};

use crate::declares::{declare_each, text_of};
use crate::{Symbols, Thing};
use protox_descriptor::descriptor::{DescriptorProto, EnumDescriptorProto, FileDescriptorProto};
use protox_descriptor::tag::file::{ENUM_TYPE, EXTENSION, MESSAGE_TYPE, SERVICE};
use protox_descriptor::values::Numbers;
use protox_scopes::Kind;
use std::alloc::{AllocError, Global};

// About how many full names enums declare: their own, and those of their values.
fn room_of_enums(enums: &[EnumDescriptorProto]) -> usize {
    let mut room: usize = 0;
    for declared in enums {
        room = room.saturating_add(declared.value.len()).saturating_add(1);
    }
    room
}

// About how many full names messages declare: their own, and those of what stands in them.
#[cycle(nested)]
fn room_of_messages(messages: &[DescriptorProto]) -> usize {
    let mut room: usize = 0;
    for message in messages {
        room = room.saturating_add(message.field.len()).saturating_add(1);
        room = room.saturating_add(room_of_enums(message.enum_type.as_slice()));
        room = room.saturating_add(room_of_messages(message.nested_type.as_slice()));
    }
    room
}

// About how many full names a file declares. Each dot in the name of its package ends a part, which
// is declared too.
fn room_of(file: &FileDescriptorProto) -> usize {
    let package = text_of(file.package.as_ref());
    let parts = package.split('.').count();
    let messages = room_of_messages(file.message_type.as_slice());
    let enums = room_of_enums(file.enum_type.as_slice());
    parts.saturating_add(messages).saturating_add(enums)
}

// About how many full names files declare.
fn room_for(files: &[FileDescriptorProto]) -> usize {
    let mut room: usize = 1;
    for file in files {
        room = room.saturating_add(room_of(file));
    }
    room
}

impl Symbols {
    // Adds the package with this full name, and those around it, from the outside in. It returns
    // the package's scope, or None if that can't stand in the table.
    fn declare_package(
        &mut self,
        alloc: Global,
        file: usize,
        name: &str,
    ) -> Result<Option<Option<usize>>, AllocError>
        ensures declared { OnOk result
            (self.new ≡ fold with_entry self.old (package_entries file name.now)) }
        ensures scope { IfOk result (λ found. IsFoundScope self.new name.now found) }
    {
        if name.is_empty() {
            return Ok(Some(None));
        }
        let mut scope = None;
        let mut rest = name;
        while let Some((part, more)) = rest.split_once('.') {
            let path = Numbers::new();
            let thing = Thing { file, path };
            let Some(number) = self.declare_in(alloc, scope, part, Kind::Package, thing)? else {
                return Ok(None);
            };
            scope = Some(number);
            rest = more;
        }
        let path = Numbers::new();
        let thing = Thing { file, path };
        match self.declare_in(alloc, scope, rest, Kind::Package, thing)? {
            Some(number) => Ok(Some(Some(number))),
            None => Ok(None),
        }
    }

    // Adds the packages and the declarations of a file.
    fn declare_file(
        &mut self,
        alloc: Global,
        number: usize,
        file: &FileDescriptorProto,
    ) -> Result<(), AllocError>
        ensures { OnOk result (self.new ≡ fold with_entry self.old (file_entries number file.now)) }
    {
        let package = text_of(file.package.as_ref());
        // without its scope, nothing that is in the package can stand
        let Some(scope) = self.declare_package(alloc, number, package)? else {
            return Ok(());
        };
        let messages = &file.message_type;
        declare_each(alloc, self, number, scope, &[], MESSAGE_TYPE, messages)?;
        declare_each(alloc, self, number, scope, &[], ENUM_TYPE, &file.enum_type)?;
        declare_each(alloc, self, number, scope, &[], SERVICE, &file.service)?;
        declare_each(alloc, self, number, scope, &[], EXTENSION, &file.extension)
    }

    /// The table of all that is declared in a list of files: packages, messages, fields, oneofs,
    /// enums and their values, services, methods and extensions. Files are numbered from 0.
    ///
    /// It is what `declare` makes of their full names, one after another: of each file first the
    /// packages, from the outside in, and then the declarations, in the order of their paths. So of
    /// two with one full name the first stays. What can't stand in the table, as its name is no
    /// identifier, is passed by, and so is what is in it. The values of an enum stand beside the
    /// enum, and what is in a message without a name, outside of all scopes, stands there too.
    ///
    /// No full name is made as a text, so a scope with a long name costs no more than another.
    ///
    /// # Errors
    /// `AllocError` where memory runs out, or where a list has more than 2,147,483,648 parts: no
    /// path can count them.
    pub fn of(alloc: Global, files: &[FileDescriptorProto]) -> Result<Symbols, AllocError>
        ensures { IfOk result (λ made. made ≡ table_of files.now) }
    {
        let mut symbols = Symbols::with_room(alloc, room_for(files));
        for (number, file) in files.iter().enumerate() {
            symbols.declare_file(alloc, number, file)?;
        }
        Ok(symbols)
    }
}
