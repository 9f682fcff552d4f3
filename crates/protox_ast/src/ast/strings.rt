//! Strings as texts.

ghost use Rattle.std.specs.Prelude.{◌≡◌, ◌↔◌, IsOk, IfOk, IfErr, IsUtf8};
ghost use Rattle.std.specs.String.{string_bytes};

use super::String;
use protox_descriptor::values::Items;
use protox_fault::error::Span;

impl String {
    /// The text and the span if the bytes are UTF-8, else the string as it was. This takes no
    /// memory.
    pub fn into_utf8(self) -> Result<(std::string::String, Span), String>
        ensures exact { IsOk result ↔ IsUtf8 self.value }
        ensures text { IfOk result (λ text. string_bytes text.0 ≡ self.value) }
        ensures span { IfOk result (λ text. text.1 ≡ self.span) }
        ensures back { IfErr result (λ string. string ≡ self) }
    {
        let String { value, span } = self;
        match std::string::String::from_utf8(value.into_vec()) {
            Ok(text) => Ok((text, span)),
            Err(error) => Err(String {
                value: Items::from_vec(error.into_bytes()),
                span,
            }),
        }
    }
}
