//! Locations in a pool.

ghost use Rattle.std.specs.Prelude.{◌≡◌, ◌+◌, ◌++◌, ◌∷◌, ◌==◌, ◌≤◌, ◌^◌, [], None, Some, true, drop, length, slice_get, slice_range, IfOk, OnOk, OnErr};
ghost use Rattle.std.specs.Option.{option_copied};
ghost use Rattle.std.specs.Vec.{vec_capacity, vec_len};
ghost use Rattle.protox_pool.specs.Pool.{location};
ghost use Rattle.protox_pool.specs.inner.Ends.{Adds, AreEnds, comments_at, locations_from};

use crate::comments::LocationComments;
use crate::ends::{Ends, start_at};
use crate::joined::{count_before, moved_ends, with_behind, with_front};
use crate::location::PooledLocation;
use crate::locations::Locations;
use protox_descriptor::descriptor::SourceCodeInfo;
use protox_descriptor::descriptor::source_code_info::Location;
use protox_descriptor::values::Items;
use std::alloc::{AllocError, Global};
use std::marker::Model;

// A path mostly has four or five numbers, and a span three.
const NUMBERS: usize = 8;

/// Locations, one behind another. Contracts see the list of them, as `SourceCodeInfo` has it. The
/// numbers of all paths and spans stand in one list, so a location takes 12 bytes and 4 for each
/// number; a `Location` takes 80.
#[derive(Drop)]
pub struct LocationPool {
    numbers: Vec<i32>,
    ends: Vec<Ends>,
    comments: Vec<LocationComments>,
}

impl Model for LocationPool {
    ghost use Rattle.std.specs.Prelude.{List, length};
    ghost use Rattle.protox_descriptor.specs.Location as seen;
    ghost use Rattle.protox_pool.specs.inner.Ends.{AreEnds, locations_from};

    ghost Value = { List seen.Location };

    ghost view = { λ p. locations_from p.numbers.items p.comments.items 0 p.ends.items };

    ghost invariant = { λ p. AreEnds (length p.comments.items) (length p.numbers.items) 0 p.ends.items };
}

// An empty vector with room for so many elements, if memory allows.
fn with_room<T>(alloc: Global, room: usize) -> Vec<T>
    ensures { result.items ≡ [] }
{
    match Vec::with_capacity(alloc, room) {
        Ok(made) => made,
        Err(_) => Vec::new(alloc),
    }
}

// The comments with a number, counted from 1. None at zero.
fn comments_at(comments: &[LocationComments], number: u32) -> Option<&LocationComments>
    ensures { option_copied result ≡ comments_at comments.now number }
{
    if number == 0 {
        return None;
    }
    comments.get(number as usize - 1)
}

// The numbers from one place to before another.
fn part(numbers: &[i32], start: usize, end: usize) -> &[i32]
    requires order { start ≤ end }
    requires within { end ≤ length numbers.now }
    ensures { result.now ≡ slice_range numbers.now start end }
{
    &numbers[start..end]
}

// The location at an index.
#[tactic(auto, using(crate::proofs::Places::path_within, crate::proofs::Places::span_within, crate::proofs::Places::end_within))]
fn location_at<'a>(
    numbers: &'a [i32],
    comments: &'a [LocationComments],
    ends: &[Ends],
    index: usize,
) -> Option<PooledLocation<'a>>
    requires { AreEnds (length comments.now) (length numbers.now) 0 ends.now }
    ensures { result ≡ slice_get (locations_from numbers.now comments.now 0 ends.now) index }
{
    if index >= ends.len() {
        return None;
    }
    let start = start_at(ends, index);
    let end = ends[index];
    Some(PooledLocation {
        path: part(numbers, start, end.path as usize),
        span: part(numbers, end.path as usize, end.span as usize),
        comments: comments_at(comments, end.comments),
    })
}

// Whether a path, in two parts, and a span have lengths as those of parts of a field in a message.
#[inline(always)]
fn is_usual(path: &[i32], tags: &[i32], span: &[i32]) -> bool
    ensures path { result ≡ true → length path.now ≡ 4 }
    ensures tags { result ≡ true → length tags.now ≤ 1 }
    ensures span { result ≡ true → length span.now ≡ 3 }
{
    path.len() == 4 && tags.len() <= 1 && span.len() == 3
}

// Adds the numbers of a path, in two parts, and of a span, for which there is room. Those of usual
// lengths are taken apart, so that nothing is called.
#[inline(always)]
fn add_numbers(numbers: &mut Vec<i32>, path: &[i32], tags: &[i32], span: &[i32])
    requires { vec_len numbers.old + (length path.now + length tags.now + length span.now) ≤ vec_capacity numbers.old }
    ensures { numbers.new.items ≡ numbers.old.items ++ (path.now ++ tags.now ++ span.now) }
{
    // There is room, so no error is possible.
    let _ = if !is_usual(path, tags, span) {
        add_parts(numbers, path, tags, span)
    } else if tags.is_empty() {
        numbers.extend_from_slice(&[
            path[0], path[1], path[2], path[3], span[0], span[1], span[2],
        ])
    } else {
        numbers.extend_from_slice(&[
            path[0], path[1], path[2], path[3], tags[0], span[0], span[1], span[2],
        ])
    };
}

// Adds numbers of three lists.
fn add_parts(
    numbers: &mut Vec<i32>,
    path: &[i32],
    tags: &[i32],
    span: &[i32],
) -> Result<(), AllocError>
    requires { vec_len numbers.old + (length path.now + length tags.now + length span.now) ≤ vec_capacity numbers.old }
    ensures { numbers.new.items ≡ numbers.old.items ++ (path.now ++ tags.now ++ span.now) }
{
    numbers.extend_from_slice(path)?;
    numbers.extend_from_slice(tags)?;
    numbers.extend_from_slice(span)
}

// Adds a location whose comments have this number. On `AllocError` nothing is added.
fn add_location(
    numbers: &mut Vec<i32>,
    ends: &mut Vec<Ends>,
    path: &[i32],
    tags: &[i32],
    span: &[i32],
    comments: u32,
) -> Result<(), AllocError>
    ensures ok { OnOk result (Adds (path.now ++ tags.now) span.now comments
        numbers.old.items ends.old.items numbers.new.items ends.new.items) }
    ensures numbers { OnErr result (numbers.new.items ≡ numbers.old.items) }
    ensures ends { OnErr result (ends.new.items ≡ ends.old.items) }
{
    let path_end = numbers.len() + path.len() + tags.len();
    let span_end = path_end + span.len();
    if span_end > 4294967295 {
        return Err(AllocError);
    }
    ends.reserve(1)?;
    numbers.reserve(path.len() + tags.len() + span.len())?;
    add_numbers(numbers, path, tags, span);
    ends.push_reserved(Ends {
        path: path_end as u32,
        span: span_end as u32,
        comments,
    });
    Ok(())
}

// The locations of a pool, and those of another behind them.
fn with_pool_behind(pool: LocationPool, back: LocationPool) -> Result<LocationPool, AllocError>
    ensures { IfOk result (λ all. all ≡ pool ++ back) }
{
    let numbers_before = count_before(pool.numbers.len(), back.numbers.len())?;
    let comments_before = count_before(pool.comments.len(), back.comments.len())?;
    let LocationPool {
        numbers,
        ends,
        mut comments,
    } = pool;
    let LocationPool {
        numbers: more_numbers,
        ends: more_ends,
        comments: mut more_comments,
    } = back;
    let moved = moved_ends(more_ends, numbers_before, comments_before);
    comments.append(&mut more_comments)?;
    let numbers = with_behind(numbers, &more_numbers)?;
    let ends = with_behind(ends, &moved)?;
    Ok(LocationPool {
        numbers,
        ends,
        comments,
    })
}

// The locations of a pool, and those of another in front of them. Its comments stand behind, so that
// none moves.
fn with_pool_in_front(pool: LocationPool, front: LocationPool) -> Result<LocationPool, AllocError>
    ensures { IfOk result (λ all. all ≡ front ++ pool) }
{
    let numbers_before = count_before(front.numbers.len(), pool.numbers.len())?;
    let comments_before = count_before(pool.comments.len(), front.comments.len())?;
    let LocationPool {
        numbers,
        ends,
        mut comments,
    } = pool;
    let LocationPool {
        numbers: first_numbers,
        ends: first_ends,
        comments: mut first_comments,
    } = front;
    let first_moved = moved_ends(first_ends, 0, comments_before);
    let moved = moved_ends(ends, numbers_before, 0);
    comments.append(&mut first_comments)?;
    let numbers = with_front(numbers, &first_numbers)?;
    let ends = with_front(moved, &first_moved)?;
    Ok(LocationPool {
        numbers,
        ends,
        comments,
    })
}

impl LocationPool {
    /// No locations. It takes no memory; later growth takes it from `alloc`.
    pub fn new(alloc: Global) -> LocationPool
        ensures { result ≡ [] }
    {
        LocationPool {
            numbers: Vec::new(alloc),
            ends: Vec::new(alloc),
            comments: Vec::new(alloc),
        }
    }

    /// No locations, with room for `room` of them of eight numbers each, if memory allows.
    pub fn with_room(alloc: Global, room: usize) -> LocationPool
        ensures { result ≡ [] }
    {
        LocationPool {
            numbers: with_room(alloc, room.saturating_mul(NUMBERS)),
            ends: with_room(alloc, room),
            comments: Vec::new(alloc),
        }
    }

    /// Gives back the room that no location takes, as far as the allocator allows.
    pub fn shrink_to_fit(&mut self)
        ensures { self.new ≡ self.old }
    {
        self.numbers.shrink_to_fit();
        self.ends.shrink_to_fit();
        self.comments.shrink_to_fit();
    }

    /// The number of locations.
    pub fn len(&self) -> usize
        ensures { result ≡ length self.now }
    {
        self.ends.as_slice().len()
    }

    /// Whether there are no locations.
    pub fn is_empty(&self) -> bool
        ensures { result ≡ (length self.now == 0) }
    {
        self.len() == 0
    }

    /// The location at `index`, counted from 0. None at or after the end.
    pub fn get(&self, index: usize) -> Option<PooledLocation<'_>>
        ensures { result ≡ slice_get self.now index }
    {
        location_at(&self.numbers, &self.comments, &self.ends, index)
    }

    /// The locations, borrowed, in order.
    pub fn iter(&self) -> Locations<'_>
        ensures { drop result.next result.pool.now ≡ self.now }
    {
        Locations {
            pool: self,
            next: 0,
        }
    }

    /// A pool with the locations of a descriptor.
    ///
    /// # Errors
    /// `AllocError` where memory runs out, or where there are more than 4,294,967,295 numbers.
    pub fn from_source_code_info(
        alloc: Global,
        info: &SourceCodeInfo,
    ) -> Result<LocationPool, AllocError>
        ensures { IfOk result (λ pool. pool ≡ info.now.location) }
    {
        let mut pool = LocationPool::with_room(alloc, info.location.len());
        for location in info.location.as_slice() {
            pool.push_location(alloc, location)?;
        }
        Ok(pool)
    }

    /// A list of these locations, as a descriptor has it. Each has memory of its own.
    ///
    /// # Errors
    /// `AllocError` where memory runs out.
    pub fn to_source_code_info(&self, alloc: Global) -> Result<SourceCodeInfo, AllocError>
        ensures { IfOk result (λ info. info.location ≡ self.now) }
    {
        let mut made = Items::with_capacity(alloc, self.len())?;
        for location in self.iter() {
            made.push(location.to_location(alloc)?)?;
        }
        Ok(SourceCodeInfo { location: made })
    }

    /// Adds a location without comments. Its path is `path` and then `tags`.
    ///
    /// # Errors
    /// `AllocError` where memory runs out, or where there are more than 4,294,967,295 numbers. Nothing
    /// is added then.
    pub fn push(&mut self, path: &[i32], tags: &[i32], span: &[i32]) -> Result<(), AllocError>
        ensures ok { OnOk result (self.new ≡ self.old ++ location (path.now ++ tags.now) span.now None ∷ []) }
        ensures err { OnErr result (self.new ≡ self.old) }
    {
        add_location(&mut self.numbers, &mut self.ends, path, tags, span, 0)?;
        Ok(())
    }

    /// Adds a location with comments. Its path is `path` and then `tags`.
    ///
    /// # Errors
    /// As for `push`. The comments are dropped then.
    pub fn push_commented(
        &mut self,
        path: &[i32],
        tags: &[i32],
        span: &[i32],
        comments: LocationComments,
    ) -> Result<(), AllocError>
        ensures ok { OnOk result (self.new ≡ self.old ++ location (path.now ++ tags.now) span.now (Some comments) ∷ []) }
        ensures err { OnErr result (self.new ≡ self.old) }
    {
        let Ok(number) = u32::try_from(self.comments.as_slice().len() + 1) else {
            return Err(AllocError);
        };
        self.comments.reserve(1)?;
        add_location(&mut self.numbers, &mut self.ends, path, tags, span, number)?;
        self.comments.push_reserved(comments);
        Ok(())
    }

    /// Adds a copy of a location.
    ///
    /// # Errors
    /// As for `push`, and where memory for the comments runs out.
    pub fn push_location(&mut self, alloc: Global, location: &Location) -> Result<(), AllocError>
        ensures ok { OnOk result (self.new ≡ self.old ++ location.now ∷ []) }
        ensures err { OnErr result (self.new ≡ self.old) }
    {
        let path = location.path.as_slice();
        let span = location.span.as_slice();
        match LocationComments::of(alloc, location)? {
            None => self.push(path, &[], span),
            Some(comments) => self.push_commented(path, &[], span, comments),
        }
    }

    /// The locations of this pool, and behind them those of another. The shorter of the two moves,
    /// and the ends of what stands behind.
    ///
    /// # Errors
    /// `AllocError` where memory runs out, or where there are more than 4,294,967,295 numbers.
    pub fn joined(self, more: LocationPool) -> Result<LocationPool, AllocError>
        ensures { IfOk result (λ all. all ≡ self ++ more) }
    {
        if self.numbers.len() < more.numbers.len() {
            with_pool_in_front(more, self)
        } else {
            with_pool_behind(self, more)
        }
    }
}
