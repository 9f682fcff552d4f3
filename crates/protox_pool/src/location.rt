//! A location that a pool lends.

ghost use Rattle.std.specs.Prelude.{◌≡◌, IfOk};
ghost use Rattle.std.specs.Option.{option_copied};

use crate::comments::LocationComments;
use protox_copy::CopyIn;
use protox_descriptor::descriptor::source_code_info::Location;
use protox_descriptor::values::{Numbers, Text};
use std::alloc::{AllocError, Global};
use std::marker::Model;

/// The place of one part of a descriptor, as `SourceCodeInfo.Location`, borrowed from a pool.
#[derive(Drop)]
pub struct PooledLocation<'a> {
    /// The way from the file's descriptor to the part: field numbers, and indices in lists from 0.
    pub path: &'a [i32],
    /// Three numbers: start line, start column, end column. Or four: start line, start column, end
    /// line, end column. All count from 0, columns in bytes. The end is after the last byte.
    pub span: &'a [i32],
    pub(crate) comments: Option<&'a LocationComments>,
}

impl<'a> Model for PooledLocation<'a> {
    ghost use Rattle.std.specs.Option.{option_copied};
    ghost use Rattle.protox_descriptor.specs.Location as seen;
    ghost use Rattle.protox_pool.specs.Pool.{location};

    ghost Value = { seen.Location };

    ghost view = { λ l. location l.path.now l.span.now (option_copied l.comments) };
}

impl PooledLocation<'_> {
    /// The comment that leads the declaration.
    pub fn leading_comments(&self) -> Option<&Text>
        ensures { option_copied result ≡ self.now.leading_comments }
    {
        self.comments?.leading.as_ref()
    }

    /// The comment that trails the declaration.
    pub fn trailing_comments(&self) -> Option<&Text>
        ensures { option_copied result ≡ self.now.trailing_comments }
    {
        self.comments?.trailing.as_ref()
    }

    /// The detached comments before the declaration, in order.
    pub fn leading_detached_comments(&self) -> &[Text]
        ensures { result.now ≡ self.now.leading_detached_comments }
    {
        match self.comments {
            Some(comments) => comments.detached.as_slice(),
            None => &[],
        }
    }

    /// A `Location` that says the same, and owns its memory.
    ///
    /// # Errors
    /// `AllocError` where memory runs out.
    pub fn to_location(&self, alloc: Global) -> Result<Location, AllocError>
        ensures { IfOk result (λ made. made ≡ self.now) }
    {
        let path = Numbers::from_slice(alloc, self.path)?;
        let span = Numbers::from_slice(alloc, self.span)?;
        let Some(comments) = self.comments else {
            return Ok(Location::bare(path, span));
        };
        let leading = comments.leading.copy(alloc)?;
        let trailing = comments.trailing.copy(alloc)?;
        let detached = comments.detached.copy(alloc)?;
        Location::commented(alloc, path, span, leading, trailing, detached)
    }
}
