//! The bytes of what a statement sets. They are written backward, so the length of what lies in a
//! field is known when its header is written.

ghost use Rattle.std.specs.Prelude.{◌≡◌, ◌+◌, ◌*◌, ◌<◌, ◌≤◌, ◌^◌, ◌++◌, ℕ, List, length, OnOk};
ghost use Rattle.protox_encode.specs.Wire.{header, varint};
ghost use Rattle.protox_setting_bytes.specs.Bytes as words;
ghost use Rattle.protox_setting_bytes.specs.inner.Ends.{end_of, ends_of};

use crate::step::Step;
use protox_encode::backward::Backward;
use protox_encode::wire::{prepend_bytes, prepend_number, prepend_varint};
use protox_values::SettingValue;
use std::alloc::{AllocError, Global};

fn prepend_header(
    alloc: Global,
    out: &mut Backward,
    number: u32,
    kind: u32,
) -> Result<(), AllocError>
    requires { kind < 8 }
    ensures { OnOk result (out.new ≡ header number kind ++ out.old) }
{
    prepend_varint(alloc, out, 8 * (number as u64) + kind as u64)
}

// Puts a value in front, behind the header of its field.
fn prepend_value(
    alloc: Global,
    out: &mut Backward,
    number: u32,
    value: &SettingValue,
) -> Result<(), AllocError>
    ensures { OnOk result (out.new ≡ words.value_bytes number value.now ++ out.old) }
{
    match value {
        SettingValue::Varint(n) => prepend_number(alloc, out, number, *n),
        SettingValue::Bytes(bytes) => prepend_bytes(alloc, out, number, bytes.as_slice()),
        SettingValue::Eight(n) => {
            out.prepend(alloc, &n.to_le_bytes())?;
            prepend_header(alloc, out, number, 1)
        }
        SettingValue::Four(n) => {
            out.prepend(alloc, &n.to_le_bytes())?;
            prepend_header(alloc, out, number, 5)
        }
    }
}

// How many bytes the groups of a number take.
#[tactic(auto, using(protox_encode::proofs::Lemmas::one_group, protox_encode::proofs::Lemmas::more_groups))]
fn varint_len(n: u64) -> usize
    ensures value { result ≡ length (varint n) }
    ensures within { result ≤ n + 1 }
{
    if n < 128 { 1 } else { 1 + varint_len(n / 128) }
}

// The mark of a group's end.
fn prepend_end(alloc: Global, out: &mut Backward, step: Step) -> Result<(), AllocError>
    ensures { OnOk result (out.new ≡ end_of step ++ out.old) }
{
    if step.is_group {
        prepend_header(alloc, out, step.number, 4)
    } else {
        Ok(())
    }
}

// How many bytes it takes.
fn end_len(step: Step) -> usize
    ensures { result ≡ length (end_of step) }
{
    if step.is_group {
        varint_len(8 * (step.number as u64) + 4)
    } else {
        0
    }
}

// The ends of all groups, that of the innermost first.
fn prepend_ends(alloc: Global, out: &mut Backward, steps: &[Step]) -> Result<(), AllocError>
    ensures { OnOk result (out.new ≡ ends_of steps.now ++ out.old) }
{
    for step in steps {
        prepend_end(alloc, out, *step)?;
    }
    Ok(())
}

// The beginning of a field, in front of what lies in it: `inside` bytes.
fn prepend_start(
    alloc: Global,
    out: &mut Backward,
    step: Step,
    inside: usize,
) -> Result<(), AllocError>
    ensures { (bytes behind : List ℕ) → out.old ≡ bytes ++ (end_of step ++ behind)
        → inside ≡ length bytes → OnOk result (out.new ≡ words.around step bytes ++ behind) }
{
    if step.is_group {
        return prepend_header(alloc, out, step.number, 3);
    }
    prepend_varint(alloc, out, inside as u64)?;
    prepend_header(alloc, out, step.number, 2)
}

// The beginnings of all fields, in front of what lies in them. Behind that are `behind` bytes: the
// ends of the groups among the fields, and what was written before.
fn prepend_starts(
    alloc: Global,
    out: &mut Backward,
    steps: &[Step],
    behind: usize,
) -> Result<(), AllocError>
    ensures { (bytes rest : List ℕ) → out.old ≡ bytes ++ (ends_of steps.now ++ rest)
        → behind ≡ length (ends_of steps.now ++ rest)
        → OnOk result (out.new ≡ words.around_all steps.now bytes ++ rest) }
{
    let mut behind = behind;
    let mut i = steps.len();
    while i > 0 {
        i -= 1;
        let inside = out.len().saturating_sub(behind);
        prepend_start(alloc, out, steps[i], inside)?;
        behind = behind.saturating_sub(end_len(steps[i]));
    }
    Ok(())
}

/// Puts the bytes of what a statement sets in front: the value of the field with a number, in
/// fields within one another, the outermost first.
///
/// # Errors
/// `AllocError` where memory runs out. The buffer may hold a part of the bytes then.
pub fn prepend_setting(
    alloc: Global,
    out: &mut Backward,
    steps: &[Step],
    number: u32,
    value: &SettingValue,
) -> Result<(), AllocError>
    ensures { OnOk result (out.new
        ≡ words.setting_bytes steps.now number value.now ++ out.old) }
{
    prepend_ends(alloc, out, steps)?;
    let behind = out.len();
    prepend_value(alloc, out, number, value)?;
    prepend_starts(alloc, out, steps, behind)
}

/// Puts bytes in front as what lies in fields within one another, the outermost first.
///
/// # Errors
/// `AllocError` where memory runs out. The buffer may hold a part of the bytes then.
pub fn prepend_within(
    alloc: Global,
    out: &mut Backward,
    steps: &[Step],
    inside: &[u8],
) -> Result<(), AllocError>
    ensures { OnOk result (out.new ≡ words.around_all steps.now inside.now ++ out.old) }
{
    prepend_ends(alloc, out, steps)?;
    let behind = out.len();
    out.prepend(alloc, inside)?;
    prepend_starts(alloc, out, steps, behind)
}
