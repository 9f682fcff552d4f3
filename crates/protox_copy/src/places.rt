//! Copies of locations.

ghost use Rattle.std.specs.Prelude.{◌≡◌, IfOk};

use crate::{CopyIn, copy_lent};
use protox_descriptor::descriptor::SourceCodeInfo;
use protox_descriptor::descriptor::source_code_info::Location;
use protox_descriptor::values::{Items, Text};
use std::alloc::{AllocError, Global};

fn copy_texts(alloc: Global, texts: &[Text]) -> Result<Items<Text>, AllocError>
    ensures { IfOk result (λ made. made ≡ texts.now) }
{
    let mut made = Items::with_capacity(alloc, texts.len())?;
    for text in texts {
        made.push(text.copy(alloc)?)?;
    }
    Ok(made)
}

impl CopyIn for Location {
    fn copy(&self, alloc: Global) -> Result<Location, AllocError> {
        let path = self.path.copy(alloc)?;
        let span = self.span.copy(alloc)?;
        let leading = copy_lent(alloc, self.leading_comments())?;
        let trailing = copy_lent(alloc, self.trailing_comments())?;
        let detached = copy_texts(alloc, self.leading_detached_comments())?;
        Location::commented(alloc, path, span, leading, trailing, detached)
    }
}

impl CopyIn for SourceCodeInfo {
    fn copy(&self, alloc: Global) -> Result<SourceCodeInfo, AllocError> {
        let location = self.location.copy(alloc)?;
        Ok(SourceCodeInfo { location })
    }
}
