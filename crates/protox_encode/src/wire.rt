//! How fields are encoded. Each function puts bytes in front of what is written already. On
//! `AllocError` the buffer may hold a part of them.

ghost use Rattle.std.specs.Prelude.{◌≡◌, ◌+◌, ◌*◌, ◌<◌, ◌^◌, ◌++◌, ℕ, List, length, map, OnOk};
ghost use Rattle.std.specs.Int.{w64, to_le_bytes, cast_unsigned};
ghost use Rattle.std.specs.List.{flat_map};
ghost use Rattle.std.specs.Option.{option_copied};
ghost use Rattle.protox_encode.specs.Wire.{Payload, Number, Eight, Bytes, Parts, varint, header, field, part, message};
ghost use Rattle.protox_encode.specs.Messages.{file_set};
ghost use Rattle.protox_encode.specs.Payloads.{text, texts, signed, signeds, unsigned, double, flag, packed, nested, each};

use crate::backward::Backward;
use protox_descriptor::descriptor::FileDescriptorProto;
use protox_descriptor::values::{Items, Text};
use std::alloc::{AllocError, Global};

/// A message that can be encoded.
pub trait Message {
    /// The numbers of its fields in order, each with its payloads.
    ghost parts: { Self → Parts };

    /// Puts the bytes of the message in front.
    fn prepend_to(&self, alloc: Global, out: &mut Backward) -> Result<(), AllocError>
        ensures { OnOk result (out.new ≡ message (parts self.now) ++ out.old) };
}

// Puts a number in front, in as many groups of seven bits as it has.
#[inline(never)]
#[tactic(auto, using(crate::proofs::Varint::one_group, crate::proofs::Varint::more_groups))]
fn prepend_groups(alloc: Global, out: &mut Backward, n: u64) -> Result<(), AllocError>
    ensures { OnOk result (out.new ≡ varint n ++ out.old) }
{
    if n < 128 {
        return out.prepend_byte(alloc, n as u8);
    }
    if n / 128 < 128 {
        out.prepend_byte(alloc, (n / 128) as u8)?;
        return out.prepend_byte(alloc, (128 + n % 128) as u8);
    }
    prepend_groups(alloc, out, n / 128)?;
    out.prepend_byte(alloc, (128 + n % 128) as u8)
}

/// Puts a number in front, in groups of seven bits.
// Most numbers have one group, so that this is the part that is inlined.
#[inline(always)]
#[tactic(auto, using(crate::proofs::Varint::one_group))]
pub fn prepend_varint(alloc: Global, out: &mut Backward, n: u64) -> Result<(), AllocError>
    ensures { OnOk result (out.new ≡ varint n ++ out.old) }
{
    if n < 128 {
        return out.prepend_byte(alloc, n as u8);
    }
    prepend_groups(alloc, out, n)
}

fn prepend_header(
    alloc: Global,
    out: &mut Backward,
    number: u32,
    kind: u32,
) -> Result<(), AllocError>
    requires { kind < 8 }
    ensures { OnOk result (out.new ≡ header number kind ++ out.old) }
{
    prepend_varint(alloc, out, 8 * (number as u64) + kind as u64)
}

/// Puts a field with a number in front.
pub fn prepend_number(
    alloc: Global,
    out: &mut Backward,
    number: u32,
    n: u64,
) -> Result<(), AllocError>
    ensures { OnOk result (out.new ≡ field number (Number n) ++ out.old) }
{
    prepend_varint(alloc, out, n)?;
    prepend_header(alloc, out, number, 0)
}

// Puts the header and the length of a field in front of the `len` bytes that it holds.
fn prepend_length(
    alloc: Global,
    out: &mut Backward,
    number: u32,
    len: usize,
) -> Result<(), AllocError>
    ensures { OnOk result (out.new ≡ header number 2 ++ (varint len ++ out.old)) }
{
    prepend_varint(alloc, out, len as u64)?;
    prepend_header(alloc, out, number, 2)
}

/// Puts a field of bytes in front.
pub fn prepend_bytes(
    alloc: Global,
    out: &mut Backward,
    number: u32,
    bytes: &[u8],
) -> Result<(), AllocError>
    ensures { OnOk result (out.new ≡ field number (Bytes bytes.now) ++ out.old) }
{
    out.prepend(alloc, bytes)?;
    prepend_length(alloc, out, number, bytes.len())
}

/// Puts a text in front as a field, if there is one.
pub fn prepend_text(
    alloc: Global,
    out: &mut Backward,
    number: u32,
    value: Option<&Text>,
) -> Result<(), AllocError>
    ensures { OnOk result (out.new ≡ part number (text (option_copied value.entry)) ++ out.old) }
{
    match value {
        Some(value) => prepend_bytes(alloc, out, number, value.as_str().as_bytes()),
        None => Ok(()),
    }
}

/// Puts texts in front, each as a field of its own.
pub fn prepend_texts(
    alloc: Global,
    out: &mut Backward,
    number: u32,
    values: &[Text],
) -> Result<(), AllocError>
    ensures { OnOk result (out.new ≡ part number (texts values.now) ++ out.old) }
{
    let mut i = values.len();
    while i > 0 {
        i -= 1;
        prepend_bytes(alloc, out, number, values[i].as_str().as_bytes())?;
    }
    Ok(())
}

/// Puts a signed number in front as a field, if there is one.
pub fn prepend_signed(
    alloc: Global,
    out: &mut Backward,
    number: u32,
    value: Option<i32>,
) -> Result<(), AllocError>
    ensures { OnOk result (out.new ≡ part number (signed value) ++ out.old) }
{
    match value {
        Some(value) => prepend_number(alloc, out, number, i64::from(value).cast_unsigned()),
        None => Ok(()),
    }
}

/// Puts signed numbers in front, each as a field of its own.
pub fn prepend_signeds(
    alloc: Global,
    out: &mut Backward,
    number: u32,
    values: &[i32],
) -> Result<(), AllocError>
    ensures { OnOk result (out.new ≡ part number (signeds values.now) ++ out.old) }
{
    let mut i = values.len();
    while i > 0 {
        i -= 1;
        prepend_number(alloc, out, number, i64::from(values[i]).cast_unsigned())?;
    }
    Ok(())
}

/// Puts a signed number of 64 bits in front as a field, if there is one.
pub fn prepend_long(
    alloc: Global,
    out: &mut Backward,
    number: u32,
    value: Option<i64>,
) -> Result<(), AllocError>
    ensures { OnOk result (out.new ≡ part number (signed value) ++ out.old) }
{
    match value {
        Some(value) => prepend_number(alloc, out, number, value.cast_unsigned()),
        None => Ok(()),
    }
}

/// Puts an unsigned number in front as a field, if there is one.
pub fn prepend_unsigned(
    alloc: Global,
    out: &mut Backward,
    number: u32,
    value: Option<u64>,
) -> Result<(), AllocError>
    ensures { OnOk result (out.new ≡ part number (unsigned value) ++ out.old) }
{
    match value {
        Some(value) => prepend_number(alloc, out, number, value),
        None => Ok(()),
    }
}

// Puts a field of eight bytes in front. `n` has these bytes, the lowest first.
fn prepend_eight(alloc: Global, out: &mut Backward, number: u32, n: u64) -> Result<(), AllocError>
    ensures { OnOk result (out.new ≡ field number (Eight n) ++ out.old) }
{
    out.prepend(alloc, &n.to_le_bytes())?;
    prepend_header(alloc, out, number, 1)
}

/// Puts the float that a text stands for in front as a field, if there is one. A text that is not a
/// float is left out; callers check this before.
pub fn prepend_double(
    alloc: Global,
    out: &mut Backward,
    number: u32,
    value: Option<&Text>,
) -> Result<(), AllocError>
    ensures { OnOk result (out.new ≡ part number (double (option_copied value.entry)) ++ out.old) }
{
    let Some(value) = value else {
        return Ok(());
    };
    match fast_float::parse::<f64, _>(value.as_str()) {
        Ok(x) => {
            let bits = if x.is_nan() {
                0x7ff8_0000_0000_0000
            } else {
                x.to_bits()
            };
            prepend_eight(alloc, out, number, bits)
        }
        Err(_) => Ok(()),
    }
}

/// Puts bytes in front as a field, if there are some.
pub fn prepend_bytes_of(
    alloc: Global,
    out: &mut Backward,
    number: u32,
    value: Option<&Items<u8>>,
) -> Result<(), AllocError>
    ensures { OnOk result (out.new ≡ part number (text (option_copied value.entry)) ++ out.old) }
{
    match value {
        Some(value) => prepend_bytes(alloc, out, number, value.as_slice()),
        None => Ok(()),
    }
}

/// Puts a flag in front as a field, if there is one.
pub fn prepend_flag(
    alloc: Global,
    out: &mut Backward,
    number: u32,
    value: Option<bool>,
) -> Result<(), AllocError>
    ensures { OnOk result (out.new ≡ part number (flag value) ++ out.old) }
{
    match value {
        Some(value) => prepend_number(alloc, out, number, value as u64),
        None => Ok(()),
    }
}

/// Puts signed numbers in front, all in one field. Without a number there is no field.
pub fn prepend_packed(
    alloc: Global,
    out: &mut Backward,
    number: u32,
    values: &[i32],
) -> Result<(), AllocError>
    ensures { OnOk result (out.new ≡ part number (packed values.now) ++ out.old) }
{
    if values.is_empty() {
        return Ok(());
    }
    let behind = out.len();
    let mut i = values.len();
    while i > 0 {
        i -= 1;
        prepend_varint(alloc, out, i64::from(values[i]).cast_unsigned())?;
    }
    let len = out.len() - behind;
    prepend_length(alloc, out, number, len)
}

/// Puts a message in front as a field, if there is one.
pub fn prepend_nested<M: Message>(
    alloc: Global,
    out: &mut Backward,
    number: u32,
    value: Option<&M>,
) -> Result<(), AllocError>
    ensures { OnOk result (out.new ≡ part number (nested M.parts (option_copied value.entry)) ++ out.old) }
{
    match value {
        Some(value) => {
            let behind = out.len();
            value.prepend_to(alloc, out)?;
            let len = out.len() - behind;
            prepend_length(alloc, out, number, len)
        }
        None => Ok(()),
    }
}

/// Puts messages in front, each as a field of its own.
pub fn prepend_each<M: Message>(
    alloc: Global,
    out: &mut Backward,
    number: u32,
    values: &Items<M>,
) -> Result<(), AllocError>
    ensures { OnOk result (out.new ≡ part number (each M.parts values.now) ++ out.old) }
{
    let items = values.as_slice();
    let mut i = items.len();
    while i > 0 {
        i -= 1;
        prepend_nested(alloc, out, number, Some(&items[i]))?;
    }
    Ok(())
}

/// Puts the fields of a `FileDescriptorSet` in front, one for each file.
#[tactic(auto, unfolding(crate::specs::Messages::file_set))]
pub fn prepend_files(
    alloc: Global,
    out: &mut Backward,
    files: &[FileDescriptorProto],
) -> Result<(), AllocError>
    ensures { OnOk result (out.new ≡ message (file_set files.now) ++ out.old) }
{
    let mut i = files.len();
    while i > 0 {
        i -= 1;
        prepend_nested(alloc, out, 1, Some(&files[i]))?;
    }
    Ok(())
}
