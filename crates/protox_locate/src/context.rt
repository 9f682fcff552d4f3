//! The position in the tree while it is walked, and the locations so far.

ghost use Rattle.std.specs.Prelude.{◌≡◌, ◌≤◌, ◌+◌, ◌++◌, ◌∷◌, [], true, None, ℤ, pos, length, IfOk, OnOk, List};
ghost use Rattle.protox_places.specs.Lines.{numbers_at};
ghost use Rattle.protox_locate.specs.LocationWords.{bare, commented, part};
ghost use Rattle.protox_locate.specs.inner.Walk.{Emits};

use crate::location_list::{LocationList, copied_comments};
use protox_ast::ast::Comments;
use protox_descriptor::values::{Items, Numbers};
use protox_fault::error::Span;
use protox_places::lines::LineResolver;
use std::alloc::{AllocError, Global};

/// The path to the current part, the locations so far, and the line in which the last of them
/// starts. The next one is looked for there first.
#[derive(Drop)]
pub(crate) struct Context {
    pub path: Items<i32>,
    pub locations: LocationList,
    near: usize,
}

fn copied_span(span: &Span) -> Span
    ensures { result ≡ span.now }
{
    span.start..span.end
}

/// An index as a number of a path. `AllocError` if it is beyond an `i32`. No source within the
/// limit has so many siblings.
#[inline(always)]
pub(crate) fn index_number(index: usize) -> Result<i32, AllocError>
    ensures number { IfOk result (λ number. number ≡ pos index) }
    ensures counted { OnOk result (index ≤ 2147483647) }
{
    if index > 2147483647 {
        return Err(AllocError);
    }
    Ok(index as i32)
}

/// The index behind that of a part that has no location. `AllocError` as for `index_number`.
#[inline(always)]
pub(crate) fn next_index(index: usize) -> Result<usize, AllocError>
    ensures { IfOk result (λ next. next ≡ index + 1) }
{
    index_number(index)?;
    Ok(index + 1)
}

/// The numbers of a span, which is looked for in the line `near` first. `AllocError` if an offset is
/// beyond an `i32`. No source within the limit is so long.
#[inline(always)]
pub(crate) fn numbers_of(
    lines: &LineResolver,
    near: &mut usize,
    span: &Span,
) -> Result<Numbers, AllocError>
    ensures { IfOk result (λ numbers. numbers ≡ numbers_at lines.now span.now) }
{
    if span.start > 2147483647 || span.end > 2147483647 {
        return Err(AllocError);
    }
    Ok(lines.numbers_near(near, copied_span(span)))
}

// Whether there are no comments, as at most declarations.
fn is_bare(comments: &Comments) -> bool
    ensures leading { result ≡ true → comments.now.leading_comment ≡ None }
    ensures trailing { result ≡ true → comments.now.trailing_comment ≡ None }
    ensures detached { result ≡ true → comments.now.leading_detached_comments ≡ [] }
{
    comments.leading_comment().is_none()
        && comments.trailing_comment().is_none()
        && comments.leading_detached_comments().is_empty()
}

impl Context {
    /// The path of a file (empty), and these locations.
    pub fn new(alloc: Global, locations: LocationList) -> Context
        ensures path { result.path ≡ [] }
        ensures locations { result.locations ≡ locations }
    {
        Context {
            path: Items::new(alloc),
            locations,
            near: 0,
        }
    }

    /// The locations.
    pub fn into_locations(self) -> LocationList
        ensures { result ≡ self.locations }
    {
        self.locations
    }

    /// Adds a location without comments. Its path is the current one and then `tags`.
    pub fn add(
        &mut self,
        alloc: Global,
        lines: &LineResolver,
        tags: &[i32],
        span: &Span,
    ) -> Result<(), AllocError>
        ensures { OnOk result (Emits self.old self.new (bare (numbers_at lines.now) (self.old.path ++ tags.now) span.now ∷ [])) }
    {
        self.locations.add(
            alloc,
            self.path.as_slice(),
            tags,
            lines,
            &mut self.near,
            span,
        )
    }

    /// Adds the location of a declaration with its comments. Its path is the current one and then
    /// `tags`.
    pub fn add_with(
        &mut self,
        alloc: Global,
        lines: &LineResolver,
        tags: &[i32],
        span: &Span,
        comments: &Comments,
    ) -> Result<(), AllocError>
        ensures { OnOk result (Emits self.old self.new (commented (numbers_at lines.now) (self.old.path ++ tags.now) span.now comments.now ∷ [])) }
    {
        if is_bare(comments) {
            return self.add(alloc, lines, tags, span);
        }
        let copies = copied_comments(alloc, comments)?;
        let span = numbers_of(lines, &mut self.near, span)?;
        self.locations
            .add_commented(alloc, self.path.as_slice(), tags, span, copies)
    }

    /// Goes down to a child: its field number, and its index among its siblings. `AllocError` as
    /// for `index_number`, and if memory runs out.
    pub fn enter(&mut self, tag: i32, index: usize) -> Result<(), AllocError>
        ensures path { OnOk result (self.new.path ≡ self.old.path ++ tag ∷ pos index ∷ []) }
        ensures locations { self.new.locations ≡ self.old.locations }
        ensures counted { OnOk result (index ≤ 2147483647) }
    {
        let number = index_number(index)?;
        self.path.push(tag)?;
        self.path.push(number)
    }

    /// Goes back up from a child.
    pub fn leave(&mut self)
        requires { 2 ≤ length self.old.path }
        ensures path { (front : List ℤ) (tag index : ℤ) → self.old.path ≡ front ++ tag ∷ index ∷ [] → self.new.path ≡ front }
        ensures locations { self.new.locations ≡ self.old.locations }
    {
        let len = self.path.len();
        self.path.truncate(len - 2);
    }

    /// Goes down to a part that has no siblings.
    pub fn enter_part(&mut self, tag: i32) -> Result<(), AllocError>
        ensures path { OnOk result (self.new.path ≡ part self.old.path tag) }
        ensures locations { self.new.locations ≡ self.old.locations }
    {
        self.path.push(tag)
    }

    /// Goes back up from such a part.
    pub fn leave_part(&mut self)
        requires { 1 ≤ length self.old.path }
        ensures path { (front : List ℤ) (tag : ℤ) → self.old.path ≡ part front tag → self.new.path ≡ front }
        ensures locations { self.new.locations ≡ self.old.locations }
    {
        let len = self.path.len();
        self.path.truncate(len - 1);
    }
}
