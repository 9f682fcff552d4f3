//! The message inside `SourceCodeInfo`.

ghost use Rattle.std.specs.Prelude.{◌≡◌, ◌≢◌, ◌==◌, [], None, IsOk, IsSome, IfOk, OnOk, OnErr};
ghost use Rattle.std.specs.Option.{option_copied, option_eq};
ghost use Rattle.std.specs.Ordering.{int_eq, on, eq_of_both};
ghost use Rattle.std.specs.Cmp.Lexicographic.{pointwise};
ghost use Rattle.std.specs.Cmp.Rules.{comparing};
ghost use Rattle.std.proofs.Common.{rules};
ghost use Rattle.protox_descriptor.specs.inner.HeldComments.{leading, trailing, detached};
ghost use Rattle.protox_descriptor.specs.Spans.{start_of, end_of, is_within};

use crate::values::{Items, Numbers, Text};
use std::alloc::{AllocError, Global};
use std::boxed::Box;
use std::marker::Model;
use std::{fmt, mem};

// The comments of a location. There is at least one.
#[derive(Drop)]
struct LocationComments {
    leading: Option<Text>,
    trailing: Option<Text>,
    detached: Items<Text>,
}

// Puts the comments of a location into a box. Without comments there is no box.
fn comments_of(
    alloc: Global,
    leading_comments: Option<Text>,
    trailing_comments: Option<Text>,
    leading_detached_comments: Items<Text>,
) -> Result<Option<Box<LocationComments>>, AllocError>
    ensures leading { IfOk result (λ made. leading made ≡ leading_comments) }
    ensures trailing { IfOk result (λ made. trailing made ≡ trailing_comments) }
    ensures detached { IfOk result (λ made. detached made ≡ leading_detached_comments) }
    ensures free { leading_comments ≡ None → trailing_comments ≡ None → leading_detached_comments ≡ [] → IsOk result }
{
    if leading_comments.is_none()
        && trailing_comments.is_none()
        && leading_detached_comments.is_empty()
    {
        return Ok(None);
    }
    let comments = Box::new(
        alloc,
        LocationComments {
            leading: leading_comments,
            trailing: trailing_comments,
            detached: leading_detached_comments,
        },
    )?;
    Ok(Some(comments))
}

/// The message `SourceCodeInfo.Location`: the place of one part of a descriptor. Most locations
/// have no comments, so that comments are held in a box, and only if there are some. Functions with
/// the names of the message's fields read them.
#[derive(Drop)]
pub struct Location {
    /// The way from the file's descriptor to the part: field numbers, and indices in lists from 0.
    pub path: Numbers,
    /// Three numbers: start line, start column, end column. Or four: start line, start column, end
    /// line, end column. All count from 0, columns in bytes. The end is after the last byte.
    pub span: Numbers,
    comments: Option<Box<LocationComments>>,
}

// The size counts: there is about one location for 13 bytes of a source.
const _: () = prove!(size_of::<Location>() == 80);

impl Model for Location {
    ghost use Rattle.protox_descriptor.specs.Location as seen;

    ghost Value = { seen.Location };

    ghost use Rattle.protox_descriptor.specs.inner.HeldComments.{location_of};

    ghost view = { location_of };
}

impl Location {
    /// A message with nothing set. It takes no memory.
    pub fn new(_alloc: Global) -> Location
        ensures { result ≡ record { path = []; span = []; leading_comments = None; trailing_comments = None; leading_detached_comments = [] } }
    {
        Location::bare(Numbers::new(), Numbers::new())
    }

    /// A location without comments. It takes no memory.
    pub fn bare(path: Numbers, span: Numbers) -> Location
        ensures { result ≡ record { path = path; span = span; leading_comments = None; trailing_comments = None; leading_detached_comments = [] } }
    {
        Location {
            path,
            span,
            comments: None,
        }
    }

    /// A location with these comments, or `AllocError`. Without comments it takes no memory.
    pub fn commented(
        alloc: Global,
        path: Numbers,
        span: Numbers,
        leading_comments: Option<Text>,
        trailing_comments: Option<Text>,
        leading_detached_comments: Items<Text>,
    ) -> Result<Location, AllocError>
        ensures value { IfOk result (λ made. made ≡ record { path = path; span = span; leading_comments = leading_comments; trailing_comments = trailing_comments; leading_detached_comments = leading_detached_comments }) }
        ensures free { leading_comments ≡ None → trailing_comments ≡ None → leading_detached_comments ≡ [] → IsOk result }
    {
        let comments = comments_of(
            alloc,
            leading_comments,
            trailing_comments,
            leading_detached_comments,
        )?;
        Ok(Location {
            path,
            span,
            comments,
        })
    }

    /// The comment that leads the declaration.
    pub fn leading_comments(&self) -> Option<&Text>
        ensures { option_copied result ≡ self.now.leading_comments }
    {
        match &self.comments {
            Some(comments) => comments.leading.as_ref(),
            None => None,
        }
    }

    /// The comment that trails the declaration.
    pub fn trailing_comments(&self) -> Option<&Text>
        ensures { option_copied result ≡ self.now.trailing_comments }
    {
        match &self.comments {
            Some(comments) => comments.trailing.as_ref(),
            None => None,
        }
    }

    /// The detached comments before the declaration, in order.
    pub fn leading_detached_comments(&self) -> &[Text]
        ensures { result.now ≡ self.now.leading_detached_comments }
    {
        match &self.comments {
            Some(comments) => comments.detached.as_slice(),
            None => &[],
        }
    }

    // Gives back the box of the comments if none of them is left.
    fn settle(&mut self)
        ensures { self.new ≡ self.old }
    {
        if let Some(comments) = &self.comments {
            if comments.leading.is_none()
                && comments.trailing.is_none()
                && comments.detached.is_empty()
            {
                self.comments = None;
            }
        }
    }

    /// Sets the comment that leads the declaration. None removes it. On `AllocError` the location
    /// is unchanged, and `leading_comments` is dropped. It takes memory only if the location has no
    /// comment yet.
    pub fn set_leading_comments(
        &mut self,
        alloc: Global,
        leading_comments: Option<Text>,
    ) -> Result<(), AllocError>
        ensures ok { OnOk result (self.new ≡ record self.old { leading_comments = leading_comments }) }
        ensures err { OnErr result (self.new ≡ self.old) }
        ensures free { leading_comments ≡ None → IsOk result }
        ensures in_place { IsSome self.old.leading_comments → IsOk result }
    {
        match &mut self.comments {
            Some(comments) => comments.leading = leading_comments,
            None => {
                let comments = comments_of(alloc, leading_comments, None, Items::new(alloc))?;
                self.comments = comments;
            }
        }
        self.settle();
        Ok(())
    }

    /// Sets the comment that trails the declaration. None removes it. On `AllocError` the location
    /// is unchanged, and `trailing_comments` is dropped. It takes memory only if the location has
    /// no comment yet.
    pub fn set_trailing_comments(
        &mut self,
        alloc: Global,
        trailing_comments: Option<Text>,
    ) -> Result<(), AllocError>
        ensures ok { OnOk result (self.new ≡ record self.old { trailing_comments = trailing_comments }) }
        ensures err { OnErr result (self.new ≡ self.old) }
        ensures free { trailing_comments ≡ None → IsOk result }
        ensures in_place { IsSome self.old.trailing_comments → IsOk result }
    {
        match &mut self.comments {
            Some(comments) => comments.trailing = trailing_comments,
            None => {
                let comments = comments_of(alloc, None, trailing_comments, Items::new(alloc))?;
                self.comments = comments;
            }
        }
        self.settle();
        Ok(())
    }

    /// Sets the detached comments before the declaration. On `AllocError` the location is
    /// unchanged, and `leading_detached_comments` is dropped. It takes memory only if the location
    /// has no comment yet.
    pub fn set_leading_detached_comments(
        &mut self,
        alloc: Global,
        leading_detached_comments: Items<Text>,
    ) -> Result<(), AllocError>
        ensures ok { OnOk result (self.new ≡ record self.old { leading_detached_comments = leading_detached_comments }) }
        ensures err { OnErr result (self.new ≡ self.old) }
        ensures free { leading_detached_comments ≡ [] → IsOk result }
        ensures in_place { self.old.leading_detached_comments ≢ [] → IsOk result }
    {
        match &mut self.comments {
            Some(comments) => comments.detached = leading_detached_comments,
            None => {
                let comments = comments_of(alloc, None, None, leading_detached_comments)?;
                self.comments = comments;
            }
        }
        self.settle();
        Ok(())
    }

    /// Takes out the comment that leads the declaration.
    pub fn take_leading_comments(&mut self) -> Option<Text>
        ensures value { result ≡ self.old.leading_comments }
        ensures rest { self.new ≡ record self.old { leading_comments = None } }
    {
        let taken = match &mut self.comments {
            Some(comments) => comments.leading.take(),
            None => None,
        };
        self.settle();
        taken
    }

    /// Takes out the comment that trails the declaration.
    pub fn take_trailing_comments(&mut self) -> Option<Text>
        ensures value { result ≡ self.old.trailing_comments }
        ensures rest { self.new ≡ record self.old { trailing_comments = None } }
    {
        let taken = match &mut self.comments {
            Some(comments) => comments.trailing.take(),
            None => None,
        };
        self.settle();
        taken
    }

    /// Takes out the detached comments before the declaration. It takes no memory; later growth of
    /// the list takes it from `alloc`.
    pub fn take_leading_detached_comments(&mut self, alloc: Global) -> Items<Text>
        ensures value { result ≡ self.old.leading_detached_comments }
        ensures rest { self.new ≡ record self.old { leading_detached_comments = [] } }
    {
        let taken = match &mut self.comments {
            Some(comments) => mem::replace(&mut comments.detached, Items::new(alloc)),
            None => Items::new(alloc),
        };
        self.settle();
        taken
    }

    /// Where the declaration starts: line and column, both from 0, the column in bytes. None if the
    /// span has neither three nor four numbers; `parse` always gives three or four.
    pub fn start(&self) -> Option<(i32, i32)>
        ensures { result ≡ start_of self.now.span }
    {
        match self.span.as_slice() {
            [line, column, _] => Some((*line, *column)),
            [line, column, _, _] => Some((*line, *column)),
            _ => None,
        }
    }

    /// Where the declaration ends: line and column after its last byte, both from 0, the column in
    /// bytes. None if the span has neither three nor four numbers; `parse` always gives three or
    /// four.
    pub fn end(&self) -> Option<(i32, i32)>
        ensures { result ≡ end_of self.now.span }
    {
        match self.span.as_slice() {
            [line, _, column] => Some((*line, *column)),
            [_, _, line, column] => Some((*line, *column)),
            _ => None,
        }
    }

    /// Whether the place is in the span: at or after its start, and before its end. Line and column
    /// are counted from 0, the column in bytes. A span without a byte holds no place.
    ///
    /// ```
    /// // The second byte of the fourth line.
    /// location.holds(3, 1)
    /// ```
    pub fn holds(&self, line: i32, column: i32) -> bool
        ensures { result ≡ is_within (line, column) (start_of self.now.span) (end_of self.now.span) }
    {
        let place = (line, column);
        match (self.start(), self.end()) {
            (Some(start), Some(end)) => start.cmp(&place).is_le() && place.cmp(&end).is_lt(),
            _ => false,
        }
    }
}

pub(super) fn are_equal(first: Option<&Text>, second: Option<&Text>) -> bool
    ensures { result ≡ option_eq (pointwise ◌==◌) (option_copied first.entry) (option_copied second.entry) }
{
    match (first, second) {
        (Some(first), Some(second)) => first == second,
        (None, None) => true,
        _ => false,
    }
}

impl PartialEq for Location {
    ghost eq = { eq_of_both (on (λ l. l.path) (pointwise int_eq)) (eq_of_both (on (λ l. l.span) (pointwise int_eq)) (eq_of_both (on (λ l. l.leading_comments) (option_eq (pointwise ◌==◌))) (eq_of_both (on (λ l. l.trailing_comments) (option_eq (pointwise ◌==◌))) (on (λ l. l.leading_detached_comments) (pointwise (pointwise ◌==◌)))))) };

    ghost laws = { Prim.search (comparing, rules) depth 12 };

    fn eq(&self, other: &Location) -> bool {
        self.path == other.path
            && self.span == other.span
            && are_equal(self.leading_comments(), other.leading_comments())
            && are_equal(self.trailing_comments(), other.trailing_comments())
            && self.leading_detached_comments() == other.leading_detached_comments()
    }
}

impl fmt::Debug for Location {
    fn fmt<W: fmt::Write>(&self, f: &mut fmt::Formatter<W>) -> fmt::Result {
        f.debug_struct("Location")
            .field("path", &self.path)
            .field("span", &self.span)
            .field("leading_comments", &self.leading_comments())
            .field("trailing_comments", &self.trailing_comments())
            .field(
                "leading_detached_comments",
                &self.leading_detached_comments(),
            )
            .finish()
    }
}
