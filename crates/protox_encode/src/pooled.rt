//! How files whose locations are in a pool are encoded.

ghost use Rattle.std.specs.Prelude.{◌≡◌, ◌++◌, Some, OnOk};
ghost use Rattle.protox_encode.specs.Messages as words;
ghost use Rattle.protox_encode.specs.Pooled.{with_pool};
ghost use Rattle.protox_encode.specs.Wire.{message};

use crate::backward::Backward;
use crate::messages::prepend_file;
use crate::wire::{Message, prepend_nested, prepend_packed, prepend_text, prepend_texts};
use protox_descriptor::descriptor::FileDescriptorProto;
use protox_pool::{LocationPool, PooledLocation};
use std::alloc::{AllocError, Global};

impl Message for PooledLocation<'_> {
    ghost parts = { words.location };

    #[tactic(auto, unfolding(crate::specs::Messages::location), using(crate::proofs::PooledLocations::path_of, crate::proofs::PooledLocations::span_of))]
    fn prepend_to(&self, alloc: Global, out: &mut Backward) -> Result<(), AllocError> {
        prepend_texts(alloc, out, 6, self.leading_detached_comments())?;
        prepend_text(alloc, out, 4, self.trailing_comments())?;
        prepend_text(alloc, out, 3, self.leading_comments())?;
        prepend_packed(alloc, out, 2, self.span)?;
        prepend_packed(alloc, out, 1, self.path)
    }
}

impl Message for LocationPool {
    ghost parts = { λ locations. words.source_code_info (record { location = locations }) };

    #[tactic(auto, unfolding(crate::specs::Messages::source_code_info))]
    fn prepend_to(&self, alloc: Global, out: &mut Backward) -> Result<(), AllocError> {
        let mut i = self.len();
        while i > 0 {
            i -= 1;
            let location = self.get(i);
            prepend_nested(alloc, out, 1, location.as_ref())?;
        }
        Ok(())
    }
}

/// A file, and its locations in a pool.
#[derive(Drop)]
pub(crate) struct FileWithPool<'a> {
    pub(crate) file: &'a FileDescriptorProto,
    pub(crate) locations: &'a LocationPool,
}

impl Message for FileWithPool<'_> {
    ghost parts = { λ f. words.file_descriptor (with_pool f.file.now f.locations.now) };

    fn prepend_to(&self, alloc: Global, out: &mut Backward) -> Result<(), AllocError> {
        prepend_file(alloc, out, self.file, Some(self.locations))
    }
}
