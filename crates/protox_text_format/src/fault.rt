//! Why a text spells no message.

use protox_fault::error::Span;

/// Why a text isn't cut into pieces.
#[derive(Clone, PartialEq, Debug, Drop)]
pub enum PieceFailure {
    /// What stands at this place, in byte offsets, is no token, or has a fault as a token.
    Fault(Span),
    /// Memory ran out.
    OutOfMemory,
}

/// What is wrong with a piece, or is missing behind the last one.
#[derive(Clone, Copy, PartialEq, Debug)]
pub enum TextFaultKind {
    /// A word is wanted: a name, or a part of one.
    NoWord,
    /// This mark is wanted.
    NoMark(u8),
    /// A value is wanted.
    NoValue,
    /// A message would stand here in too many others.
    TooDeep,
}

/// What is wrong with a text.
#[derive(Clone, Copy, PartialEq, Debug)]
pub struct TextFault {
    /// The index of the piece, from 0. Behind the last piece it is their number.
    pub piece: usize,
    /// What is wrong there.
    pub kind: TextFaultKind,
}

/// Why pieces spell no message.
#[derive(Clone, Copy, PartialEq, Debug)]
pub enum TextFailure {
    /// No message begins with the pieces up to this one.
    Fault(TextFault),
    /// Memory ran out.
    OutOfMemory,
}
