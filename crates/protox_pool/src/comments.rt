//! The comments of a location.

ghost use Rattle.std.specs.Prelude.{◌≡◌, IfOk};
ghost use Rattle.std.specs.Option.{option_copied};
ghost use Rattle.protox_pool.specs.Pool.{location};

use protox_copy::CopyIn;
use protox_descriptor::descriptor::source_code_info::Location;
use protox_descriptor::values::{Items, Text};
use std::alloc::{AllocError, Global};

/// The comments of a location.
#[derive(Drop)]
pub struct LocationComments {
    /// The comment that leads the declaration.
    pub leading: Option<Text>,
    /// The comment that trails it.
    pub trailing: Option<Text>,
    /// The detached comments before it, in order.
    pub detached: Items<Text>,
}

// A copy of a comment, if there is one.
fn copied(alloc: Global, comment: Option<&Text>) -> Result<Option<Text>, AllocError>
    ensures { IfOk result (λ made. made ≡ option_copied comment.entry) }
{
    match comment {
        Some(comment) => Ok(Some(comment.copy(alloc)?)),
        None => Ok(None),
    }
}

// Copies of comments.
fn copied_all(alloc: Global, comments: &[Text]) -> Result<Items<Text>, AllocError>
    ensures { IfOk result (λ made. made ≡ comments.now) }
{
    let mut made = Items::with_capacity(alloc, comments.len())?;
    for comment in comments {
        made.push(comment.copy(alloc)?)?;
    }
    Ok(made)
}

impl LocationComments {
    /// A copy of the comments of a location. None if it has none.
    ///
    /// # Errors
    /// `AllocError` where memory runs out.
    pub fn of(alloc: Global, from: &Location) -> Result<Option<LocationComments>, AllocError>
        ensures { IfOk result (λ comments. from.now ≡ location from.now.path from.now.span comments) }
    {
        let leading = copied(alloc, from.leading_comments())?;
        let trailing = copied(alloc, from.trailing_comments())?;
        let detached = copied_all(alloc, from.leading_detached_comments())?;
        if leading.is_none() && trailing.is_none() && detached.is_empty() {
            return Ok(None);
        }
        Ok(Some(LocationComments {
            leading,
            trailing,
            detached,
        }))
    }
}
