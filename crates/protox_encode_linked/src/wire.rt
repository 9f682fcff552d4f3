//! How the fields of linked files are encoded. Each function puts bytes in front of what is written
//! already, and gets the path of the thing that it writes. It lengthens the path for the things
//! within, and shortens it again. On `AllocError` the buffer may hold a part of the bytes, and the
//! path may be longer.

ghost use Rattle.std.specs.Prelude.{◌≡◌, [], ◌∷◌, ◌++◌, OnOk};
ghost use Rattle.std.specs.Option.{option_copied};
ghost use Rattle.protox_encode.specs.Wire.{Bytes, Parts, varint, header, field, part, message};
ghost use Rattle.protox_encode_linked.specs.Linked as words;
ghost use Rattle.protox_encode_linked.specs.Setting.{Path, OptionsSet};

use crate::option_bytes::OptionBytes;
use protox_descriptor::descriptor::MessageOptions;
use protox_descriptor::values::Items;
use protox_encode::backward::Backward;
use protox_encode::wire::{prepend_bytes, prepend_flag, prepend_varint};
use std::alloc::{AllocError, Global};

/// A part of a file that has options, or in which there are parts that have some.
pub(crate) trait Linked {
    /// The numbers of its fields in order, each with its payloads, given what is set in the file
    /// and the path of the part.
    ghost parts: { OptionsSet → Path → Self → Parts };

    /// Puts the bytes of the part in front.
    fn prepend_at(
        &self,
        alloc: Global,
        out: &mut Backward,
        set: &OptionBytes,
        path: &mut Vec<usize>,
    ) -> Result<(), AllocError>
        ensures bytes { OnOk result (out.new
            ≡ message (parts set.now path.old.items self.now) ++ out.old) }
        ensures back { OnOk result (path.new.items ≡ path.old.items) };
}

// Puts the header and the length of a field in front of the `len` bytes that it holds.
fn prepend_length(
    alloc: Global,
    out: &mut Backward,
    number: u32,
    len: usize,
) -> Result<(), AllocError>
    ensures { OnOk result (out.new ≡ header number 2 ++ (varint len ++ out.old)) }
{
    prepend_varint(alloc, out, len as u64)?;
    prepend_varint(alloc, out, 8 * (number as u64) + 2)
}

/// Puts an options message in front as a field, if there is one. It holds what is set.
pub(crate) fn prepend_options<O>(
    alloc: Global,
    out: &mut Backward,
    number: u32,
    options: Option<&O>,
    set: &OptionBytes,
    path: &mut Vec<usize>,
) -> Result<(), AllocError>
    ensures bytes { OnOk result (out.new
        ≡ part number (words.options set.now (path.old.items ++ number ∷ [])
        (option_copied options.entry)) ++ out.old) }
    ensures back { OnOk result (path.new.items ≡ path.old.items) }
{
    if options.is_none() {
        return Ok(());
    }
    let depth = path.len();
    path.push(number as usize)?;
    prepend_bytes(alloc, out, number, set.get(path.as_slice()))?;
    path.truncate(depth);
    Ok(())
}

/// Puts the options of a message in front as a field, if there are some. They hold whether the
/// message is the entry of a map, and what is set.
pub(crate) fn prepend_message_options(
    alloc: Global,
    out: &mut Backward,
    options: Option<&MessageOptions>,
    set: &OptionBytes,
    path: &mut Vec<usize>,
) -> Result<(), AllocError>
    ensures bytes { OnOk result (out.new
        ≡ part 7 (words.message_options set.now (path.old.items ++ 7 ∷ [])
        (option_copied options.entry)) ++ out.old) }
    ensures back { OnOk result (path.new.items ≡ path.old.items) }
{
    let Some(options) = options else {
        return Ok(());
    };
    let depth = path.len();
    path.push(7)?;
    let behind = out.len();
    out.prepend(alloc, set.get(path.as_slice()))?;
    path.truncate(depth);
    prepend_flag(alloc, out, 7, options.map_entry)?;
    let len = out.len() - behind;
    prepend_length(alloc, out, 7, len)
}

/// Puts a message with this path in front as a field.
pub(crate) fn prepend_nested_at<M: Linked>(
    alloc: Global,
    out: &mut Backward,
    number: u32,
    value: &M,
    set: &OptionBytes,
    path: &mut Vec<usize>,
) -> Result<(), AllocError>
    ensures bytes { OnOk result (out.new
        ≡ field number (Bytes (message (M.parts set.now path.old.items value.now))) ++ out.old) }
    ensures back { OnOk result (path.new.items ≡ path.old.items) }
{
    let behind = out.len();
    value.prepend_at(alloc, out, set, path)?;
    let len = out.len() - behind;
    prepend_length(alloc, out, number, len)
}

// Puts a message of a list in front as a field. The path is that of the list.
fn prepend_item<M: Linked>(
    alloc: Global,
    out: &mut Backward,
    number: u32,
    value: &M,
    index: usize,
    set: &OptionBytes,
    path: &mut Vec<usize>,
) -> Result<(), AllocError>
    ensures bytes { OnOk result (out.new
        ≡ field number (Bytes (message (M.parts set.now (path.old.items ++ index ∷ []) value.now)))
        ++ out.old) }
    ensures back { OnOk result (path.new.items ≡ path.old.items) }
{
    let depth = path.len();
    path.push(index)?;
    prepend_nested_at(alloc, out, number, value, set, path)?;
    path.truncate(depth);
    Ok(())
}

// Puts the messages of a list in front, each as a field of its own. The path is that of the list.
fn prepend_items<M: Linked>(
    alloc: Global,
    out: &mut Backward,
    number: u32,
    items: &[M],
    set: &OptionBytes,
    path: &mut Vec<usize>,
) -> Result<(), AllocError>
    ensures bytes { OnOk result (out.new
        ≡ part number (words.each_at (M.parts set.now) path.old.items items.now) ++ out.old) }
    ensures back { OnOk result (path.new.items ≡ path.old.items) }
{
    let mut i = items.len();
    while i > 0 {
        i -= 1;
        prepend_item(alloc, out, number, &items[i], i, set, path)?;
    }
    Ok(())
}

/// Puts messages in front, each as a field of its own. The path is that of the message that they
/// are in.
pub(crate) fn prepend_each_at<M: Linked>(
    alloc: Global,
    out: &mut Backward,
    number: u32,
    values: &Items<M>,
    set: &OptionBytes,
    path: &mut Vec<usize>,
) -> Result<(), AllocError>
    ensures bytes { OnOk result (out.new
        ≡ part number (words.each_at (M.parts set.now) (path.old.items ++ number ∷ []) values.now)
        ++ out.old) }
    ensures back { OnOk result (path.new.items ≡ path.old.items) }
{
    if values.is_empty() {
        return Ok(());
    }
    let depth = path.len();
    path.push(number as usize)?;
    prepend_items(alloc, out, number, values.as_slice(), set, path)?;
    path.truncate(depth);
    Ok(())
}
