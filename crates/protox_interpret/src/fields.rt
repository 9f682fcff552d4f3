//! The fields that the name of a statement goes through.

ghost use Rattle.std.specs.Prelude.{◌≡◌, IfOk};
ghost use Rattle.std.specs.Option.{option_copied};
ghost use Rattle.protox_interpret.specs.Statements as words;

use crate::site::Site;
use protox_aggregate::{is_group, wire_number};
use protox_descriptor::descriptor::FieldDescriptorProto;
use protox_setting_bytes::Step;
use protox_settings::field_numbered;
use std::alloc::{AllocError, Global};

// The field as it stands on the wire.
fn step_of(field: Option<&FieldDescriptorProto>) -> Step
    ensures { result ≡ words.step_of (option_copied field.entry) }
{
    match field {
        Some(field) => Step {
            number: wire_number(field),
            is_group: is_group(field),
        },
        None => Step {
            number: 0,
            is_group: false,
        },
    }
}

// The fields as they stand on the wire.
pub(crate) fn steps_of(
    alloc: Global,
    here: Site<'_>,
    fields: &[usize],
) -> Result<Vec<Step>, AllocError>
    ensures { IfOk result (λ steps. steps.items ≡ words.steps_of here.entry fields.now) }
{
    let mut steps = Vec::with_capacity(alloc, fields.len())?;
    for number in fields {
        steps.push(step_of(field_numbered(here.view.symbols, here.files, *number)))?;
    }
    Ok(steps)
}

// The numbers of the fields.
pub(crate) fn numbers_of(
    alloc: Global,
    here: Site<'_>,
    fields: &[usize],
) -> Result<Vec<u32>, AllocError>
    ensures { IfOk result (λ numbers. numbers.items
        ≡ words.numbers_of (words.steps_of here.entry fields.now)) }
{
    let mut numbers = Vec::with_capacity(alloc, fields.len())?;
    for number in fields {
        let step = step_of(field_numbered(here.view.symbols, here.files, *number));
        numbers.push(step.number)?;
    }
    Ok(numbers)
}

// Whether the first of the fields is no extension.
pub(crate) fn is_standard(here: Site<'_>, fields: &[usize]) -> bool
    ensures { result ≡ words.is_standard here.entry fields.now }
{
    match fields {
        [] => false,
        [first, ..] => match field_numbered(here.view.symbols, here.files, *first) {
            Some(field) => field.extendee().is_none(),
            None => false,
        },
    }
}
