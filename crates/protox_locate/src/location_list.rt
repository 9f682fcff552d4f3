//! The locations that a walk has added: a list of them, or a pool.

ghost use Rattle.std.specs.Prelude.{◌≡◌, ◌++◌, ◌∷◌, [], Some, drop, IfOk, OnOk};
ghost use Rattle.std.specs.Option.{option_copied};
ghost use Rattle.protox_locate.specs.LocationWords.{bare};
ghost use Rattle.protox_places.specs.Lines.{numbers_at};
ghost use Rattle.protox_pool.specs.Pool.{location};

use crate::context::numbers_of;
use crate::lists::{fronted, joined as joined_lists};
use protox_ast::ast::Comments;
use protox_descriptor::descriptor::SourceCodeInfo;
use protox_descriptor::descriptor::source_code_info::Location;
use protox_descriptor::values::{Items, Numbers, Text};
use protox_fault::error::Span;
use protox_places::lines::LineResolver;
use protox_pool::{LocationComments, LocationPool};
use std::alloc::{AllocError, Global};
use std::marker::Model;

// So many numbers take no memory.
const FEW: usize = 7;

#[derive(Drop)]
enum Kept {
    Listed(Items<Location>),
    Pooled(LocationPool),
}

/// Locations in a list or in a pool. Contracts see the list of them.
#[derive(Drop)]
pub(crate) struct LocationList {
    kept: Kept,
}

impl Model for LocationList {
    ghost use Rattle.std.specs.Prelude.{List};
    ghost use Rattle.protox_descriptor.specs.Location as seen;
    ghost use Rattle.protox_locate.specs.inner.Kept.{locations_of};

    ghost Value = { List seen.Location };

    ghost view = { λ l. locations_of l.kept };
}

fn copied_option(alloc: Global, text: Option<&Text>) -> Result<Option<Text>, AllocError>
    ensures { IfOk result (λ copy. copy ≡ option_copied text.entry) }
{
    match text {
        None => Ok(None),
        Some(text) => Ok(Some(Text::copy(alloc, text.as_str())?)),
    }
}

fn copied(alloc: Global, texts: &[Text]) -> Result<Items<Text>, AllocError>
    ensures { IfOk result (λ copies. copies ≡ texts.now) }
{
    let mut copies = Vec::with_capacity(alloc, texts.len())?;
    for text in texts {
        copies.push(Text::copy(alloc, text.as_str())?)?;
    }
    Ok(Items::from_vec(copies))
}

// A long path and one tag behind it. The tag is pushed: it is not worth a copy of its own.
fn pushed(alloc: Global, path: &[i32], tag: i32) -> Result<Numbers, AllocError>
    ensures { IfOk result (λ made. made ≡ path.now ++ tag ∷ []) }
{
    let mut numbers = Vec::with_capacity(alloc, path.len() + 1)?;
    numbers.extend_from_slice(path)?;
    numbers.push(tag)?;
    Ok(Numbers::from_vec(numbers))
}

// A copy of a path.
fn copied_path(alloc: Global, path: &[i32]) -> Result<Numbers, AllocError>
    ensures { IfOk result (λ made. made ≡ path.now) }
{
    if path.len() <= FEW {
        return Numbers::from_slice(alloc, path);
    }
    Ok(Numbers::from_vec(Vec::from_slice(alloc, path)?))
}

// A path and one tag behind it. Paths of usual lengths are taken apart, so that nothing is called.
#[inline(always)]
fn tagged(alloc: Global, path: &[i32], tag: i32) -> Result<Numbers, AllocError>
    ensures { IfOk result (λ made. made ≡ path.now ++ tag ∷ []) }
{
    match path {
        [a, b] => Ok(Numbers::few(&[*a, *b, tag])),
        [a, b, c, d] => Ok(Numbers::few(&[*a, *b, *c, *d, tag])),
        _ if path.len() < FEW => Numbers::joined(alloc, path, &[tag]),
        _ => pushed(alloc, path, tag),
    }
}

// A copy of a path, in the same way.
#[inline(always)]
fn untagged(alloc: Global, path: &[i32]) -> Result<Numbers, AllocError>
    ensures { IfOk result (λ made. made ≡ path.now) }
{
    match path {
        [a, b] => Ok(Numbers::few(&[*a, *b])),
        [a, b, c, d] => Ok(Numbers::few(&[*a, *b, *c, *d])),
        _ => copied_path(alloc, path),
    }
}

// A path and then tags.
#[inline(always)]
fn joined(alloc: Global, path: &[i32], tags: &[i32]) -> Result<Numbers, AllocError>
    ensures { IfOk result (λ made. made ≡ path.now ++ tags.now) }
{
    match tags {
        [] => untagged(alloc, path),
        [tag] => tagged(alloc, path, *tag),
        _ => Numbers::joined(alloc, path, tags),
    }
}

/// A copy of the comments of a declaration.
pub(crate) fn copied_comments(
    alloc: Global,
    comments: &Comments,
) -> Result<LocationComments, AllocError>
    ensures leading { IfOk result (λ copies. copies.leading ≡ comments.now.leading_comment) }
    ensures trailing { IfOk result (λ copies. copies.trailing ≡ comments.now.trailing_comment) }
    ensures detached { IfOk result (λ copies. copies.detached ≡ comments.now.leading_detached_comments) }
{
    let leading = copied_option(alloc, comments.leading_comment())?;
    let trailing = copied_option(alloc, comments.trailing_comment())?;
    let detached = copied(alloc, comments.leading_detached_comments())?;
    Ok(LocationComments {
        leading,
        trailing,
        detached,
    })
}

// Adds a location with comments to a list.
fn push_commented(
    alloc: Global,
    list: &mut Items<Location>,
    path: &[i32],
    tags: &[i32],
    span: Numbers,
    comments: LocationComments,
) -> Result<(), AllocError>
    ensures { OnOk result (list.new ≡ list.old ++ location (path.now ++ tags.now) span (Some comments) ∷ []) }
{
    let path = joined(alloc, path, tags)?;
    let LocationComments {
        leading,
        trailing,
        detached,
    } = comments;
    let location = Location::commented(alloc, path, span, leading, trailing, detached)?;
    list.push(location)
}

impl LocationList {
    /// The locations of a list.
    pub fn listed(locations: Items<Location>) -> LocationList
        ensures { result ≡ locations }
    {
        LocationList {
            kept: Kept::Listed(locations),
        }
    }

    /// The locations of a pool.
    pub fn pooled(locations: LocationPool) -> LocationList
        ensures { result ≡ locations }
    {
        LocationList {
            kept: Kept::Pooled(locations),
        }
    }

    /// An empty list. There is room for `room` locations, if memory allows.
    pub fn list_with_room(alloc: Global, room: usize) -> LocationList
        ensures { result ≡ [] }
    {
        LocationList::listed(match Items::with_capacity(alloc, room) {
            Ok(locations) => locations,
            Err(_) => Items::new(alloc),
        })
    }

    /// An empty pool. There is room for `room` locations, if memory allows.
    pub fn pool_with_room(alloc: Global, room: usize) -> LocationList
        ensures { result ≡ [] }
    {
        LocationList::pooled(LocationPool::with_room(alloc, room))
    }

    /// Adds a location without comments. Its path is `path` and then `tags`. Its span is looked for in
    /// the line `near` first.
    #[inline(always)]
    pub fn add(
        &mut self,
        alloc: Global,
        path: &[i32],
        tags: &[i32],
        lines: &LineResolver,
        near: &mut usize,
        span: &Span,
    ) -> Result<(), AllocError>
        ensures { OnOk result (self.new ≡ self.old ++ bare (numbers_at lines.now) (path.now ++ tags.now) span.now ∷ []) }
    {
        match &mut self.kept {
            Kept::Listed(list) => {
                let path = joined(alloc, path, tags)?;
                let span = numbers_of(lines, near, span)?;
                list.push(Location::bare(path, span))
            }
            Kept::Pooled(pool) => {
                let span = numbers_of(lines, near, span)?;
                pool.push(path, tags, span.as_slice())
            }
        }
    }

    /// Adds a location with comments. Its path is `path` and then `tags`.
    pub fn add_commented(
        &mut self,
        alloc: Global,
        path: &[i32],
        tags: &[i32],
        span: Numbers,
        comments: LocationComments,
    ) -> Result<(), AllocError>
        ensures { OnOk result (self.new ≡ self.old ++ location (path.now ++ tags.now) span (Some comments) ∷ []) }
    {
        match &mut self.kept {
            Kept::Listed(list) => push_commented(alloc, list, path, tags, span, comments),
            Kept::Pooled(pool) => pool.push_commented(path, tags, span.as_slice(), comments),
        }
    }

    /// These locations as a list. From a pool each is copied.
    pub fn into_items(self, alloc: Global) -> Result<Items<Location>, AllocError>
        ensures { IfOk result (λ list. list ≡ self) }
    {
        match self.kept {
            Kept::Listed(list) => Ok(list),
            Kept::Pooled(pool) => Ok(pool.to_source_code_info(alloc)?.location),
        }
    }

    /// These locations as a pool. From a list each is copied.
    pub fn into_pool(self, alloc: Global) -> Result<LocationPool, AllocError>
        ensures { IfOk result (λ pool. pool ≡ self) }
    {
        match self.kept {
            Kept::Listed(list) => {
                LocationPool::from_source_code_info(alloc, &SourceCodeInfo { location: list })
            }
            Kept::Pooled(pool) => Ok(pool),
        }
    }
}

/// The locations of one list or pool, and behind them those of another. They are kept as the first
/// are.
pub(crate) fn one_behind_other(
    alloc: Global,
    front: LocationList,
    back: LocationList,
) -> Result<LocationList, AllocError>
    ensures { IfOk result (λ all. all ≡ front ++ back) }
{
    match front.kept {
        Kept::Listed(front) => {
            let more = back.into_items(alloc)?;
            Ok(LocationList::listed(joined_lists(front, more)?))
        }
        Kept::Pooled(front) => {
            let more = back.into_pool(alloc)?;
            Ok(LocationList::pooled(front.joined(more)?))
        }
    }
}

/// The locations with those of the front in place of the first `reserved`.
pub(crate) fn with_front(
    alloc: Global,
    front: LocationList,
    locations: LocationList,
    reserved: usize,
) -> Result<LocationList, AllocError>
    ensures { IfOk result (λ all. all ≡ front ++ drop reserved locations) }
{
    if reserved == 0 {
        return one_behind_other(alloc, front, locations);
    }
    let first = front.into_items(alloc)?;
    let all = locations.into_items(alloc)?;
    Ok(LocationList::listed(fronted(first, all, reserved)?))
}
