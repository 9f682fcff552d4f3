//! How locations are encoded.

ghost use Rattle.std.specs.Prelude.{◌≡◌, ◌++◌, OnOk};
ghost use Rattle.protox_encode.specs.Wire.{message};
ghost use Rattle.protox_encode.specs.Messages as words;

use crate::backward::Backward;
use crate::wire::{Message, prepend_each, prepend_packed, prepend_text, prepend_texts};
use protox_descriptor::descriptor::SourceCodeInfo;
use protox_descriptor::descriptor::source_code_info::Location;
use std::alloc::{AllocError, Global};

impl Message for Location {
    ghost parts = { words.location };

    #[tactic(auto, unfolding(crate::specs::Messages::location))]
    fn prepend_to(&self, alloc: Global, out: &mut Backward) -> Result<(), AllocError> {
        prepend_texts(alloc, out, 6, self.leading_detached_comments())?;
        prepend_text(alloc, out, 4, self.trailing_comments())?;
        prepend_text(alloc, out, 3, self.leading_comments())?;
        prepend_packed(alloc, out, 2, self.span.as_slice())?;
        prepend_packed(alloc, out, 1, self.path.as_slice())
    }
}

impl Message for SourceCodeInfo {
    ghost parts = { words.source_code_info };

    #[tactic(auto, unfolding(crate::specs::Messages::source_code_info))]
    fn prepend_to(&self, alloc: Global, out: &mut Backward) -> Result<(), AllocError> {
        prepend_each(alloc, out, 1, &self.location)
    }
}
