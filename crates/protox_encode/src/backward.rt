//! A buffer that grows at the front.

ghost use Rattle.std.specs.Prelude.{◌≡◌, ◌+◌, [], ◌∷◌, ◌++◌, length, drop, IfOk, OnOk, OnErr};

use std::alloc::{AllocError, Global};
use std::marker::Model;

/// A buffer that grows at the front. The inside of a message is written before its length, since
/// only then the length is known. Contracts see the list of the bytes.
#[derive(Drop)]
pub struct Backward {
    buffer: Vec<u8>,
    start: usize,
}

impl Model for Backward {
    ghost use Rattle.std.specs.Prelude.{List, ℕ, drop, length, ◌≤◌};

    ghost Value = { List ℕ };

    ghost view = { λ bytes. drop bytes.start bytes.buffer.items };

    ghost invariant = { λ bytes. bytes.start ≤ length bytes.buffer.items };
}

// The bytes, with `room` zeros in front.
fn widened(alloc: Global, room: usize, bytes: &[u8]) -> Result<Vec<u8>, AllocError>
    ensures { IfOk result (λ whole. (length whole.items ≡ room + length bytes.now) × (drop room whole.items ≡ bytes.now)) }
{
    let mut whole = Vec::with_capacity(alloc, room.saturating_add(bytes.len()))?;
    whole.resize(room, 0u8)?;
    whole.extend_from_slice(bytes)?;
    Ok(whole)
}

impl Backward {
    /// An empty buffer. It takes no memory.
    pub fn new(alloc: Global) -> Backward
        ensures { result ≡ [] }
    {
        Backward {
            buffer: Vec::new(alloc),
            start: 0,
        }
    }

    /// The bytes, borrowed.
    pub fn as_slice(&self) -> &[u8]
        ensures { result.now ≡ self.now }
    {
        &self.buffer[self.start..]
    }

    /// The number of bytes.
    pub fn len(&self) -> usize
        ensures { result ≡ length self.now }
    {
        self.buffer.len() - self.start
    }

    /// Drops all bytes and keeps the memory.
    pub fn clear(&mut self)
        ensures { self.new ≡ [] }
    {
        self.start = self.buffer.len();
    }

    /// The bytes, moved to the front of the buffer's memory. It takes no new memory.
    pub fn into_vec(self) -> Vec<u8>
        ensures { result.items ≡ self }
    {
        let len = self.len();
        let start = self.start;
        let mut bytes = self.buffer;
        bytes.copy_within(start.., 0);
        bytes.truncate(len);
        bytes
    }

    /// Puts `bytes` in front. On `AllocError` the buffer is unchanged.
    pub fn prepend(&mut self, alloc: Global, bytes: &[u8]) -> Result<(), AllocError>
        ensures ok { OnOk result (self.new ≡ bytes.now ++ self.old) }
        ensures err { OnErr result (self.new ≡ self.old) }
    {
        if self.start < bytes.len() {
            let room = bytes.len().max(self.len());
            let wider = widened(alloc, room, self.as_slice())?;
            self.buffer = wider;
            self.start = room;
        }
        let start = self.start - bytes.len();
        self.buffer[start..self.start].copy_from_slice(bytes);
        self.start = start;
        Ok(())
    }

    /// Puts one byte in front. On `AllocError` the buffer is unchanged.
    #[inline(always)]
    pub fn prepend_byte(&mut self, alloc: Global, byte: u8) -> Result<(), AllocError>
        ensures ok { OnOk result (self.new ≡ byte ∷ self.old) }
        ensures err { OnErr result (self.new ≡ self.old) }
    {
        if self.start == 0 {
            return self.prepend(alloc, &[byte]);
        }
        let start = self.start - 1;
        self.buffer[start] = byte;
        self.start = start;
        Ok(())
    }
}
