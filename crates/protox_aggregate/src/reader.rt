//! What is read, and how it changes.

ghost use Rattle.std.specs.Prelude.{◌≡◌, OnOk, string_bytes};
ghost use Rattle.protox_aggregate.specs.Aggregates as words;
ghost use Rattle.protox_aggregate.specs.Reading.{reading_of};

use crate::fields::{is_group, is_implicit, is_packed, is_zero, wire_number};
use crate::level::{AnyFields, Level, Named, Typed};
use protox_descriptor::descriptor::FieldDescriptorProto;
use protox_descriptor::values::Items;
use protox_message_bytes::Entry;
use protox_values::SettingValue;
use std::alloc::{AllocError, Global};
use std::mem;

// What is read: the innermost message, those around it, and what was said so far.
#[derive(Drop)]
pub(crate) struct Reader {
    pub(crate) level: Level,
    pub(crate) outer: Vec<Level>,
    pub(crate) entries: Vec<Entry>,
}

impl Reader {
    // A type is named in a message `Any` with these fields, by its address.
    pub(crate) fn say_type(
        &mut self,
        colon: bool,
        fields: AnyFields,
        message: usize,
        address: String,
    ) -> Result<(), AllocError>
        ensures { OnOk result (reading_of self.new ≡ words.naming_type (reading_of self.old) colon
            fields message (string_bytes address)) }
    {
        let value = SettingValue::Bytes(Items::from_vec(address.into_bytes()));
        self.entries.push(Entry::Value(1, false, value))?;
        self.level.field = Some(Named {
            number: fields.value,
            colon,
            typed: Some(Typed {
                message,
                fields,
                start: 0,
            }),
        });
        Ok(())
    }

    // A field has a value that is no message. What sets nothing isn't said.
    pub(crate) fn say(
        &mut self,
        named: Named,
        in_proto3: bool,
        field: &FieldDescriptorProto,
        value: SettingValue,
    ) -> Result<(), AllocError>
        ensures { OnOk result (reading_of self.new
            ≡ words.said_of (reading_of self.old) named in_proto3 field.now value) }
    {
        if is_implicit(field, in_proto3) && is_zero(&value) {
            return Ok(());
        }
        let entry = Entry::Value(wire_number(field), is_packed(field, in_proto3), value);
        self.entries.push(entry)?;
        self.level.tell(named, field)
    }

    // The value of the field that was named is a message of this type, which begins.
    pub(crate) fn enter(
        &mut self,
        alloc: Global,
        named: Named,
        field: &FieldDescriptorProto,
        message: usize,
    ) -> Result<(), AllocError>
        ensures { OnOk result (reading_of self.new
            ≡ words.into (reading_of self.old) named field.now message) }
    {
        self.entries
            .push(Entry::Open(wire_number(field), is_group(field)))?;
        self.level.tell(named, field)?;
        let unread = Level::unread(alloc, message);
        let level = mem::replace(&mut self.level, unread);
        self.outer.push(level)?;
        Ok(())
    }

    // The message of a type that was named in an `Any` begins.
    pub(crate) fn enter_typed(
        &mut self,
        alloc: Global,
        named: Named,
        typed: Typed,
    ) -> Result<(), AllocError>
        ensures { OnOk result (reading_of self.new
            ≡ words.into_typed (reading_of self.old) named typed) }
    {
        let start = self.entries.len();
        self.entries.push(Entry::Open(2, false))?;
        self.level.field = Some(Named {
            typed: Some(Typed { start, ..typed }),
            ..named
        });
        let unread = Level::unread(alloc, typed.message);
        let level = mem::replace(&mut self.level, unread);
        self.outer.push(level)?;
        Ok(())
    }

    // Goes back to a message `Any`, of which the value ends.
    pub(crate) fn leave_value(
        &mut self,
        in_proto3: bool,
        around: Level,
        typed: Typed,
    ) -> Result<(), AllocError>
        ensures { OnOk result (reading_of self.new ≡ words.any_ends in_proto3 around typed
            (reading_of self.old).outer (reading_of self.old).entries) }
    {
        self.level = around;
        self.level.tell_alone(typed.fields.url)?;
        if in_proto3 && self.entries.len().saturating_sub(typed.start) == 1 {
            self.entries.truncate(typed.start);
            return Ok(());
        }
        self.level.tell_alone(typed.fields.value)?;
        self.entries.push(Entry::Close)?;
        Ok(())
    }
}
