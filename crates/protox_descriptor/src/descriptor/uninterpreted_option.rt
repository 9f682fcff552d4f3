//! The message inside `UninterpretedOption`.

ghost use Rattle.std.specs.Prelude.{◌≡◌, [], false};

use crate::values::Text;
use std::alloc::Global;

/// The message `UninterpretedOption.NamePart`: a part of an option's name.
#[derive(PartialEq, Debug, Drop)]
pub struct NamePart {
    /// The text of the part. The name of an extension has no parentheses here.
    pub name_part: Text,
    /// Whether the part is the name of an extension, which stands in parentheses.
    pub is_extension: bool,
}

impl NamePart {
    /// A message with nothing set. It takes no memory; later growth takes it from `alloc`.
    pub fn new(alloc: Global) -> NamePart
        ensures { result ≡ record { name_part = []; is_extension = false } }
    {
        NamePart {
            name_part: Text::new(alloc),
            is_extension: false,
        }
    }
}
