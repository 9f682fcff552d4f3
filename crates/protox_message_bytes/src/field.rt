//! Fields on the wire.

ghost use Rattle.std.specs.Prelude.{◌≡◌, ◌<◌, ◌++◌, [], length, IfOk, IsOk, OnOk};
ghost use Rattle.std.specs.List.{flat_map};
ghost use Rattle.protox_message_bytes.specs.Bytes as words;
ghost use Rattle.protox_message_bytes.specs.inner.Runs.{begins, start_of};
ghost use Rattle.protox_setting_bytes.specs.Bytes.{value_bytes};

use protox_encode::backward::Backward;
use protox_encode::wire::{prepend_bytes, prepend_varint};
use protox_setting_bytes::prepend_setting;
use protox_values::SettingValue;
use std::alloc::{AllocError, Global};
use std::marker::Model;

/// A field on the wire.
#[derive(Drop)]
pub struct Field {
    /// The number of the field.
    pub number: u32,
    /// Whether the values of the field stand behind one header.
    pub packed: bool,
    /// The bytes of the field. Of one that is packed they are those of its value, without a header.
    pub bytes: Vec<u8>,
}

impl Model for Field {
    ghost use Rattle.protox_message_bytes.specs.Bytes as seen;

    ghost Value = { seen.Field };

    ghost view = { λ f. record { number = f.number; packed = f.packed; bytes = f.bytes.items } };
}

// The bytes of a value without a header.
fn bare_bytes(alloc: Global, value: &SettingValue) -> Result<Vec<u8>, AllocError>
    ensures { IfOk result (λ bytes. bytes.items ≡ words.bare_bytes value.now) }
{
    let mut out = Backward::new(alloc);
    match value {
        SettingValue::Varint(n) => prepend_varint(alloc, &mut out, *n)?,
        SettingValue::Eight(n) => out.prepend(alloc, &n.to_le_bytes())?,
        SettingValue::Four(n) => out.prepend(alloc, &n.to_le_bytes())?,
        SettingValue::Bytes(bytes) => {
            out.prepend(alloc, bytes.as_slice())?;
            prepend_varint(alloc, &mut out, bytes.len() as u64)?;
        }
    }
    Ok(out.into_vec())
}

// The bytes of a value behind the header of its field.
fn whole_bytes(alloc: Global, number: u32, value: &SettingValue) -> Result<Vec<u8>, AllocError>
    ensures { IfOk result (λ bytes. bytes.items ≡ value_bytes number value.now) }
{
    let mut out = Backward::new(alloc);
    prepend_setting(alloc, &mut out, &[], number, value)?;
    Ok(out.into_vec())
}

// The field with a value.
pub(crate) fn value_field(
    alloc: Global,
    number: u32,
    packed: bool,
    value: &SettingValue,
) -> Result<Field, AllocError>
    ensures { IfOk result (λ field. field ≡ words.value_field number packed value.now) }
{
    let bytes = if packed {
        bare_bytes(alloc, value)
    } else {
        whole_bytes(alloc, number, value)
    }?;
    Ok(Field {
        number,
        packed,
        bytes,
    })
}

// Whether the field at an index begins a run: those of a packed field stand behind one header.
fn begins_run(fields: &[Field], at: usize) -> bool
    requires { at < length fields.now }
    ensures { result ≡ begins at fields.now }
{
    if at == 0 {
        return true;
    }
    let before = &fields[at - 1];
    let here = &fields[at];
    !(before.packed && here.packed && before.number == here.number)
}

// Puts the header of a packed field in front of its values, which take so many bytes.
fn prepend_start(
    alloc: Global,
    out: &mut Backward,
    field: &Field,
    long: usize,
) -> Result<(), AllocError>
    ensures { OnOk result (out.new ≡ start_of field.now long ++ out.old) }
{
    if !field.packed {
        return Ok(());
    }
    prepend_varint(alloc, out, long as u64)?;
    prepend_varint(alloc, out, 8 * (field.number as u64) + 2)
}

// Puts fields in front that are in the order of their numbers.
fn prepend_all(alloc: Global, out: &mut Backward, fields: &[Field]) -> Result<(), AllocError>
    ensures bytes { OnOk result (out.new
        ≡ flat_map words.field_bytes (words.joined fields.now) ++ out.old) }
    ensures free { fields.now ≡ [] → IsOk result }
{
    let mut behind = out.len();
    let mut i = fields.len();
    while i > 0 {
        i -= 1;
        let field = &fields[i];
        out.prepend(alloc, field.bytes.as_slice())?;
        if begins_run(fields, i) {
            let long = out.len().saturating_sub(behind);
            prepend_start(alloc, out, field, long)?;
            behind = out.len();
        }
    }
    Ok(())
}

// Sorts fields by their numbers.
fn sort_fields(fields: &mut Vec<Field>) -> Result<(), AllocError>
    ensures order { OnOk result (fields.new.items ≡ words.by_number fields.old.items) }
    ensures free { fields.old.items ≡ [] → IsOk result }
{
    fields.sort_by(|a, b| a.number.cmp(&b.number))
}

/// The bytes of a message that holds these fields. They stand in the order of their numbers, and
/// those of one number in the order in which they are given. Packed ones of one number stand behind
/// one header.
///
/// # Errors
/// `AllocError` where memory runs out. The fields may be in another order then. No field takes no
/// memory.
pub fn in_order(alloc: Global, fields: &mut Vec<Field>) -> Result<Vec<u8>, AllocError>
    ensures bytes { IfOk result (λ bytes. bytes.items ≡ words.in_order fields.old.items) }
    ensures free { fields.old.items ≡ [] → IsOk result }
{
    sort_fields(fields)?;
    let mut out = Backward::new(alloc);
    prepend_all(alloc, &mut out, fields.as_slice())?;
    Ok(out.into_vec())
}

// The field whose value is a message with these bytes.
pub(crate) fn message_field(
    alloc: Global,
    number: u32,
    group: bool,
    inside: &[u8],
) -> Result<Field, AllocError>
    ensures { IfOk result (λ field. field ≡ words.message_field number group inside.now) }
{
    let mut out = Backward::new(alloc);
    if group {
        prepend_varint(alloc, &mut out, 8 * (number as u64) + 4)?;
        out.prepend(alloc, inside)?;
        prepend_varint(alloc, &mut out, 8 * (number as u64) + 3)?;
    } else {
        prepend_bytes(alloc, &mut out, number, inside)?;
    }
    Ok(Field {
        number,
        packed: false,
        bytes: out.into_vec(),
    })
}
