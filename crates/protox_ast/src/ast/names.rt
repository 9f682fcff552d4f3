//! Making names, and their texts and spans.

ghost use Rattle.std.specs.Prelude.{◌≡◌, ◌<◌, [], ◌∷◌, ◌++◌, length, flat_map, IfOk, OnOk};
ghost use Rattle.std.specs.String.{string_bytes};
ghost use Rattle.protox_ast.specs.Names.{name_span, type_name_span, dotted_part, name_text, type_name_text};

use super::{FullIdent, Ident, TypeName};
use protox_descriptor::values::{Items, Text};
use protox_fault::error::Span;
use std::alloc::{AllocError, Global};

impl Ident {
    /// The identifier with this text and this span.
    pub fn new(value: String, span: Span) -> Ident
        ensures { result ≡ record { value = string_bytes value; span = span } }
    {
        Ident {
            value: Text::from_string(value),
            span,
        }
    }
}

// How many bytes the parts take with dots between them, and one more.
fn room(parts: &[Ident]) -> usize {
    let mut room: usize = 0;
    for part in parts {
        room = room.saturating_add(part.value.len()).saturating_add(1);
    }
    room
}

// Appends the parts, each with a dot in front.
fn push_dotted(text: &mut String, parts: &[Ident]) -> Result<(), AllocError>
    ensures { OnOk result (string_bytes text.new ≡ string_bytes text.old ++ flat_map dotted_part parts.now) }
{
    for part in parts {
        text.push_str(".")?;
        text.push_str(part.value.as_str())?;
    }
    Ok(())
}

impl FullIdent {
    /// The name with this one part, or `AllocError`.
    pub fn from_ident(alloc: Global, part: Ident) -> Result<FullIdent, AllocError>
        ensures { IfOk result (λ name. name ≡ part ∷ []) }
    {
        let mut parts = Items::with_capacity(alloc, 1)?;
        parts.push(part)?;
        Ok(FullIdent { parts })
    }

    /// The name with these parts. There must be at least one.
    pub fn from_parts(parts: Vec<Ident>) -> FullIdent
        requires { 0 < length parts.items }
        ensures { result ≡ parts.items }
    {
        FullIdent {
            parts: Items::from_vec(parts),
        }
    }

    /// The parts. There is at least one.
    pub fn parts(&self) -> &[Ident]
        ensures value { result.now ≡ self.now }
        ensures some { 0 < length self.now }
    {
        self.parts.as_slice()
    }

    /// The text of the name as it is written, with dots between the parts, or `AllocError`.
    pub fn text(&self, alloc: Global) -> Result<Text, AllocError>
        ensures { IfOk result (λ text. text ≡ name_text self.now) }
    {
        match self.parts() {
            [only] => Text::copy(alloc, only.value.as_str()),
            [first, others @ ..] => {
                let mut whole = String::with_capacity(alloc, room(self.parts()))?;
                whole.push_str(first.value.as_str())?;
                push_dotted(&mut whole, others)?;
                Ok(Text::from_string(whole))
            }
            [] => unreachable!(),
        }
    }

    /// The span of the name: from its first part to its last.
    pub fn span(&self) -> Span
        ensures { result ≡ name_span self.now }
    {
        match self.parts.as_slice() {
            [first, .., last] => first.span.start..last.span.end,
            [only] => only.span.start..only.span.end,
            [] => unreachable!(),
        }
    }
}

impl TypeName {
    /// The text of the name as it is written, with its leading dot if there is one, or
    /// `AllocError`.
    pub fn text(&self, alloc: Global) -> Result<Text, AllocError>
        ensures { IfOk result (λ text. text ≡ type_name_text self.now) }
    {
        let name = self.name.text(alloc)?;
        match &self.leading_dot {
            Some(_) => Text::joined(alloc, ".", name.as_str()),
            None => Ok(name),
        }
    }

    /// The span of the name: from its leading dot, or without one from its first part, to its last
    /// part.
    pub fn span(&self) -> Span
        ensures { result ≡ type_name_span self.now }
    {
        let name = self.name.span();
        match &self.leading_dot {
            Some(dot) => dot.start..name.end,
            None => name,
        }
    }
}
