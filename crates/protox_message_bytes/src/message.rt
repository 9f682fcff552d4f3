//! Messages on the wire.

ghost use Rattle.std.specs.Prelude.{◌≡◌, [], IfOk, IsOk, OnOk};
ghost use Rattle.protox_message_bytes.specs.Bytes as words;
ghost use Rattle.protox_message_bytes.specs.Parts.{Parts, steps};
ghost use Rattle.protox_message_bytes.specs.inner.Frames as state;
ghost use Rattle.protox_message_bytes.specs.inner.Writing.{state_of};

use crate::entry::Entry;
use crate::field::{Field, in_order, message_field, value_field};
use std::alloc::{AllocError, Global};
use std::marker::Model;
use std::mem;

// A message that is open: the field whose value it is, and what the message around it holds so far.
#[derive(Drop)]
struct Frame {
    number: u32,
    group: bool,
    outer: Vec<Field>,
}

impl Model for Frame {
    ghost use Rattle.protox_message_bytes.specs.inner.Frames as seen;

    ghost Value = { seen.Frame };

    ghost view = { λ f. record { number = f.number; group = f.group; outer = f.outer.items } };
}

// What the innermost message holds so far, and the messages that are open.
#[derive(Drop)]
struct Writer {
    fields: Vec<Field>,
    frames: Vec<Frame>,
}

// A message ends that holds these fields. The message around holds it then.
fn close(alloc: Global, frame: Frame, inside: &mut Vec<Field>) -> Result<Vec<Field>, AllocError>
    ensures { IfOk result (λ fields. fields.items ≡ state.held frame inside.old.items) }
{
    let bytes = in_order(alloc, inside)?;
    let field = message_field(alloc, frame.number, frame.group, bytes.as_slice())?;
    let mut fields = frame.outer;
    fields.push(field)?;
    Ok(fields)
}

impl Writer {
    // A message begins that is the value of the field with this number.
    fn open(&mut self, alloc: Global, number: u32, group: bool) -> Result<(), AllocError>
        ensures { OnOk result (state_of self.new ≡ state.opened number group (state_of self.old)) }
    {
        let outer = mem::replace(&mut self.fields, Vec::new(alloc));
        self.frames.push(Frame {
            number,
            group,
            outer,
        })?;
        Ok(())
    }

    // The innermost message ends.
    fn close(&mut self, alloc: Global) -> Result<(), AllocError>
        ensures { OnOk result (state_of self.new
            ≡ state.closed (state_of self.old).fields (state_of self.old).frames) }
    {
        if let Some(frame) = self.frames.pop() {
            self.fields = close(alloc, frame, &mut self.fields)?;
        }
        Ok(())
    }

    // Takes one step.
    fn take(&mut self, alloc: Global, entry: &Entry) -> Result<(), AllocError>
        ensures { OnOk result (state_of self.new ≡ state.taken (state_of self.old) entry.now) }
    {
        match entry {
            Entry::Value(number, packed, value) => {
                let field = value_field(alloc, *number, *packed, value)?;
                self.fields.push(field)?;
                Ok(())
            }
            Entry::Open(number, group) => self.open(alloc, *number, *group),
            Entry::Close => self.close(alloc),
        }
    }
}

// Takes all steps.
fn take_all(alloc: Global, writer: &mut Writer, entries: &[Entry]) -> Result<(), AllocError>
    ensures told { OnOk result (state_of writer.new
        ≡ state.all_taken (state_of writer.old) entries.now) }
    ensures free { entries.now ≡ [] → IsOk result }
{
    for entry in entries {
        writer.take(alloc, entry)?;
    }
    Ok(())
}

/// The bytes of a message of which these steps tell what it holds: its fields in the order of their
/// numbers, and those of one number in the order in which they were told. The values of a packed
/// field stand behind one header. Each message that begins is to end, and none ends that didn't
/// begin.
///
/// # Errors
/// `AllocError` where memory runs out. An empty message takes none.
pub fn message_bytes(alloc: Global, entries: &[Entry]) -> Result<Vec<u8>, AllocError>
    ensures bytes { (parts : Parts) → entries.now ≡ steps parts
        → IfOk result (λ bytes. bytes.items ≡ words.message_bytes parts) }
    ensures free { entries.now ≡ [] → IsOk result }
{
    let mut writer = Writer {
        fields: Vec::new(alloc),
        frames: Vec::new(alloc),
    };
    take_all(alloc, &mut writer, entries)?;
    in_order(alloc, &mut writer.fields)
}
