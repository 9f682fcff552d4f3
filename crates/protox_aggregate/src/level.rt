//! Messages that are read.

ghost use Rattle.std.specs.Prelude.{◌≡◌, ◌++◌, ◌∷◌, [], OnOk};
ghost use Rattle.protox_aggregate.specs.Aggregates.{lacking, told};
ghost use Rattle.protox_aggregate.specs.Levels as words;

use crate::complete::is_told;
use crate::fault::AggregateFaultKind;
use protox_descriptor::descriptor::FieldDescriptorProto;
use protox_settings::is_repeated;
use std::alloc::{AllocError, Global};
use std::marker::Model;

// The fields of a message `Any`, by their numbers in the table: that for the name of a type, and
// that for the value.
#[derive(Clone, Copy)]
pub(crate) struct AnyFields {
    pub(crate) url: usize,
    pub(crate) value: usize,
}

// A type that was named in a message `Any`, by its number in the table; the fields of that message;
// and, once the value has begun, how many entries stand in front of it.
#[derive(Clone, Copy)]
pub(crate) struct Typed {
    pub(crate) message: usize,
    pub(crate) fields: AnyFields,
    pub(crate) start: usize,
}

// A field that was named, by its number in the table, and whether a colon stands behind the name.
// If the name is that of a type, in a message `Any`, it is the field for the value.
#[derive(Clone, Copy)]
pub(crate) struct Named {
    pub(crate) number: usize,
    pub(crate) colon: bool,
    pub(crate) typed: Option<Typed>,
}

// A field that isn't repeated and has a value, and the index of the oneof that it is of.
#[derive(Clone, Copy)]
pub(crate) struct Told {
    pub(crate) number: usize,
    pub(crate) oneof: Option<i32>,
}

// A message that is read: its number in the table; the field that was named last in it; those of
// its fields that have a value; and the first field, if there is one, that has no value, which a
// message needs that has ended in it.
#[derive(Drop)]
pub(crate) struct Level {
    pub(crate) message: usize,
    pub(crate) field: Option<Named>,
    pub(crate) told: Vec<Told>,
    pub(crate) missing: Option<usize>,
}

impl Model for Level {
    ghost use Rattle.protox_aggregate.specs.Levels as seen;

    ghost Value = { seen.Level };

    ghost view = { λ l. record {
      message = l.message;
      field = l.field;
      told = l.told.items;
      missing = l.missing;
    } };
}

impl Level {
    // Nothing was read of the message.
    pub(crate) fn unread(alloc: Global, message: usize) -> Level
        ensures { result ≡ words.unread message }
    {
        Level {
            message,
            field: None,
            told: Vec::new(alloc),
            missing: None,
        }
    }

    // The field that was named has a value.
    pub(crate) fn tell(
        &mut self,
        named: Named,
        field: &FieldDescriptorProto,
    ) -> Result<(), AllocError>
        ensures { OnOk result (self.new ≡ told self.old named field.now) }
    {
        if !is_repeated(field) {
            self.told.push(Told {
                number: named.number,
                oneof: field.oneof_index(),
            })?;
        }
        Ok(())
    }

    // A field that is of no oneof has a value.
    pub(crate) fn tell_alone(&mut self, number: usize) -> Result<(), AllocError>
        ensures { OnOk result (self.new ≡ record self.old {
          told = self.old.told ++ words.told_alone number ∷ [];
        }) }
    {
        self.told.push(Told {
            number,
            oneof: None,
        })?;
        Ok(())
    }

    // A message in this one has ended, and may need a field that has no value.
    pub(crate) fn lack(&mut self, missing: Option<usize>)
        ensures { self.new ≡ lacking self.old missing }
    {
        if self.missing.is_none() {
            self.missing = missing;
        }
    }

    // The type that was named last in a message `Any`.
    pub(crate) fn typed(&self) -> Option<Typed>
        ensures { result ≡ words.typed_in self.now }
    {
        match self.field {
            Some(named) => named.typed,
            None => None,
        }
    }
}

// The field that has a value and is of the same oneof.
fn told_along(told: &[Told], oneof: Option<i32>) -> Option<Told>
    ensures { result ≡ words.told_along told.now oneof }
{
    let index = oneof?;
    for other in told {
        if other.oneof == Some(index) {
            return Some(*other);
        }
    }
    None
}

// What is wrong with naming a field, if anything: a field that isn't repeated has one value, and of
// a oneof one field has one.
pub(crate) fn wrong_with_naming(
    told: &[Told],
    number: usize,
    field: &FieldDescriptorProto,
) -> Option<AggregateFaultKind>
    ensures { result ≡ words.wrong_with_naming told.now number field.now }
{
    if is_repeated(field) {
        return None;
    }
    if is_told(told, number) {
        return Some(AggregateFaultKind::Again(number));
    }
    match told_along(told, field.oneof_index()) {
        Some(other) => Some(AggregateFaultKind::Along(number, other.number)),
        None => None,
    }
}
