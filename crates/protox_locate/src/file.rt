//! The locations of a file: those in front of its items, each item's, and those behind the items.

ghost use Rattle.std.specs.Prelude.{◌≡◌, ◌≤◌, ◌∷◌, ◌++◌, ℤ, List, [], length, IfOk, OnOk};
ghost use Rattle.protox_ast.specs.Siblings.{FileStands};
ghost use Rattle.protox_ast.specs.declared.ast.File as file_type;
ghost use Rattle.protox_ast.specs.declared.ast.FileItem as item_type;
ghost use Rattle.protox_fault.specs.Faults as faults;
ghost use Rattle.protox_locate.specs.inner.Draft.{IsDraft, file_end, file_front};
ghost use Rattle.protox_places.specs.Lines.{numbers_at, span_numbers};
ghost use Rattle.protox_places.specs.Order.{AreByPath, InOrder, StartsBefore};
ghost use Rattle.protox_locate.specs.Locations.{file_at, file_locations, package_locations, syntax_locations};
ghost use Rattle.protox_locate.specs.inner.Walk.{Emits};

use crate::context::Context;
use crate::declarations::{blocks_of, enums_of, extensions_of, messages_of, services_of};
use crate::imports::{locate_imports, locate_public_words, locate_weak_words};
use crate::lists::trimmed;
use crate::location_list::{LocationList, one_behind_other, with_front};
use crate::options::locate_options;
use protox_ast::ast::{Comments, File, FileItem, Opt, Package};
use protox_descriptor::descriptor::SourceCodeInfo;
use protox_descriptor::descriptor::source_code_info::Location;
use protox_descriptor::tag::file::{OPTIONS, PACKAGE, SYNTAX};
use protox_descriptor::values::Items;
use protox_fault::error::Span;
use protox_places::lines::LineResolver;
use protox_pool::LocationPool;
use std::alloc::{AllocError, Global};

/// The locations of a file while its items are located one by one: a list or a pool for each kind of
/// parts, and the index of the next part of this kind.
#[derive(Drop)]
pub struct LocationDraft {
    alloc: Global,
    // The first list begins with so many empty locations. At the end those in front of the items
    // take their places.
    reserved: usize,
    messages: Context,
    next_message: usize,
    enums: Context,
    next_enum: usize,
    services: Context,
    next_service: usize,
    // The `extend` statements have no index.
    blocks: Context,
    extensions: Context,
    next_extension: usize,
}

fn add_front(
    alloc: Global,
    lines: &LineResolver,
    context: &mut Context,
    ast: &File,
) -> Result<(), AllocError>
    ensures { OnOk result (Emits context.old context.new (file_front (numbers_at lines.now) ast.now context.old.path)) }
{
    context.add(alloc, lines, &[], &ast.span)?;
    locate_package(alloc, lines, context, &ast.package)?;
    locate_imports(alloc, lines, context, ast.imports.as_slice())
}

/// How many locations `locate_front` makes for a file with this head, if its imports are no more
/// than an `i32` counts.
pub fn front_len(head: &File) -> usize
    ensures { (numbers : faults.Span → List ℤ) → length head.now.imports ≤ 2147483647 → result ≡ length (file_front numbers head.now []) }
{
    let imports = head.imports.len();
    match &head.package {
        Some(_) => imports.saturating_add(2),
        None => imports.saturating_add(1),
    }
}

// The locations in front of a file's items, behind these.
fn front_behind(
    alloc: Global,
    lines: &LineResolver,
    ast: &File,
    locations: LocationList,
) -> Result<LocationList, AllocError>
    ensures { IfOk result (λ front. front ≡ locations ++ file_front (numbers_at lines.now) ast.now []) }
{
    let mut context = Context::new(alloc, locations);
    add_front(alloc, lines, &mut context, ast)?;
    Ok(context.into_locations())
}

/// The locations that come before those of a file's items: those of the file itself, of its package
/// and of its imports. Lines and columns are from 0; columns count bytes.
///
/// `AllocError` if memory runs out, or if a path or a span would need a number beyond
/// 2,147,483,647. No tree of a source within the limit does.
pub fn locate_front(
    alloc: Global,
    lines: &LineResolver,
    ast: &File,
) -> Result<Items<Location>, AllocError>
    ensures { IfOk result (λ front. front ≡ file_front (numbers_at lines.now) ast.now []) }
{
    front_behind(alloc, lines, ast, LocationList::list_with_room(alloc, 0))?.into_items(alloc)
}

/// These locations in a pool.
///
/// # Errors
/// As for `locate_front`.
pub fn pooled_front(
    alloc: Global,
    lines: &LineResolver,
    ast: &File,
) -> Result<LocationPool, AllocError>
    ensures { IfOk result (λ front. front ≡ file_front (numbers_at lines.now) ast.now []) }
{
    front_behind(alloc, lines, ast, LocationList::pool_with_room(alloc, 0))?.into_pool(alloc)
}

// An empty list with room for `room` locations, if memory allows.
fn with_room(alloc: Global, room: usize) -> Items<Location>
    ensures { result ≡ [] }
{
    match Items::with_capacity(alloc, room) {
        Ok(locations) => locations,
        Err(_) => Items::new(alloc),
    }
}

// A list that begins with `reserved` empty locations. There is room for `room` locations, if memory
// allows.
fn begun(alloc: Global, reserved: usize, room: usize) -> Result<Context, AllocError>
    ensures path { IfOk result (λ context. context.path ≡ []) }
    ensures reserved { IfOk result (λ context. length context.locations ≡ reserved) }
{
    let mut places = with_room(alloc, room);
    for _ in 0..reserved {
        places.push(Location::new(alloc))?;
    }
    Ok(Context::new(alloc, LocationList::listed(places)))
}

// A walk that keeps its locations in a list.
fn list_walk(alloc: Global) -> Context
    ensures path { result.path ≡ [] }
    ensures locations { result.locations ≡ [] }
{
    Context::new(alloc, LocationList::list_with_room(alloc, 0))
}

// A walk that keeps its locations in a pool.
fn pool_walk(alloc: Global, room: usize) -> Context
    ensures path { result.path ≡ [] }
    ensures locations { result.locations ≡ [] }
{
    Context::new(alloc, LocationList::pool_with_room(alloc, room))
}

impl LocationDraft {
    /// No item yet. `reserved` places are kept for the locations in front of the items, and there
    /// is room for `room` locations, if memory allows. `AllocError` if memory runs out.
    pub fn new(alloc: Global, reserved: usize, room: usize) -> Result<LocationDraft, AllocError>
        ensures located { IfOk result (λ draft. (numbers : faults.Span → List ℤ) → IsDraft numbers [] draft) }
    {
        let messages = begun(alloc, reserved, room)?;
        Ok(LocationDraft {
            alloc,
            reserved,
            messages,
            next_message: 0,
            enums: list_walk(alloc),
            next_enum: 0,
            services: list_walk(alloc),
            next_service: 0,
            blocks: list_walk(alloc),
            extensions: list_walk(alloc),
            next_extension: 0,
        })
    }

    /// No item yet. The locations are kept in pools. There is room for `room` of them, if memory
    /// allows.
    pub fn pooled(alloc: Global, room: usize) -> LocationDraft
        ensures located { (numbers : faults.Span → List ℤ) → IsDraft numbers [] result }
    {
        LocationDraft {
            alloc,
            reserved: 0,
            messages: pool_walk(alloc, room),
            next_message: 0,
            enums: pool_walk(alloc, 0),
            next_enum: 0,
            services: pool_walk(alloc, 0),
            next_service: 0,
            blocks: pool_walk(alloc, 0),
            extensions: pool_walk(alloc, 0),
            next_extension: 0,
        }
    }
}

/// Adds the locations of an item. `AllocError` as for `locate_front`. Then the draft may hold a
/// part of them, so it is of no more use.
pub fn locate_item(
    alloc: Global,
    lines: &LineResolver,
    draft: &mut LocationDraft,
    item: &FileItem,
) -> Result<(), AllocError>
    ensures located { OnOk result ((items : List item_type.FileItem) → IsDraft (numbers_at lines.now) items draft.old → IsDraft (numbers_at lines.now) (items ++ item.now ∷ []) draft.new) }
{
    let message = messages_of(alloc, lines, &mut draft.messages, item, draft.next_message)?;
    let enum_ = enums_of(alloc, lines, &mut draft.enums, item, draft.next_enum)?;
    let service = services_of(alloc, lines, &mut draft.services, item, draft.next_service)?;
    blocks_of(alloc, lines, &mut draft.blocks, item)?;
    let extension = extensions_of(
        alloc,
        lines,
        &mut draft.extensions,
        item,
        draft.next_extension,
    )?;
    draft.next_message = message;
    draft.next_enum = enum_;
    draft.next_service = service;
    draft.next_extension = extension;
    Ok(())
}

fn add_end(
    alloc: Global,
    lines: &LineResolver,
    context: &mut Context,
    ast: &File,
) -> Result<(), AllocError>
    ensures { OnOk result (Emits context.old context.new (file_end (numbers_at lines.now) ast.now context.old.path)) }
{
    let imports = ast.imports.as_slice();
    locate_options(alloc, lines, context, OPTIONS, ast.options.as_slice())?;
    locate_public_words(alloc, lines, context, imports)?;
    locate_weak_words(alloc, lines, context, imports)?;
    locate_syntax(alloc, lines, context, &ast.syntax_span)
}

// The locations behind a file's items, behind these.
fn end_behind(
    alloc: Global,
    lines: &LineResolver,
    ast: &File,
    locations: LocationList,
) -> Result<LocationList, AllocError>
    ensures { IfOk result (λ end. end ≡ locations ++ file_end (numbers_at lines.now) ast.now []) }
{
    let mut context = Context::new(alloc, locations);
    add_end(alloc, lines, &mut context, ast)?;
    Ok(context.into_locations())
}

/// The locations that come behind those of a file's items: those of its options, of the words
/// `public` and `weak`, and of its syntax. `AllocError` as for `locate_front`.
pub fn locate_end(
    alloc: Global,
    lines: &LineResolver,
    ast: &File,
) -> Result<Items<Location>, AllocError>
    ensures { IfOk result (λ end. end ≡ file_end (numbers_at lines.now) ast.now []) }
{
    end_behind(alloc, lines, ast, LocationList::list_with_room(alloc, 0))?.into_items(alloc)
}

/// These locations in a pool.
///
/// # Errors
/// As for `locate_front`.
pub fn pooled_end(
    alloc: Global,
    lines: &LineResolver,
    ast: &File,
) -> Result<LocationPool, AllocError>
    ensures { IfOk result (λ end. end ≡ file_end (numbers_at lines.now) ast.now []) }
{
    end_behind(alloc, lines, ast, LocationList::pool_with_room(alloc, 0))?.into_pool(alloc)
}

// All locations of a file, kept as those in front are.
fn all_kept(
    front: LocationList,
    draft: LocationDraft,
    end: LocationList,
) -> Result<LocationList, AllocError>
    ensures { IfOk result (λ all. (numbers : faults.Span → List ℤ) (file : file_type.File) → IsDraft numbers file.items draft → front ≡ file_front numbers file [] → end ≡ file_end numbers file [] → all ≡ file_at numbers file []) }
{
    let LocationDraft {
        alloc,
        reserved,
        messages,
        enums,
        services,
        blocks,
        extensions,
        ..
    } = draft;
    let with_messages = with_front(alloc, front, messages.into_locations(), reserved)?;
    let with_enums = one_behind_other(alloc, with_messages, enums.into_locations())?;
    let with_services = one_behind_other(alloc, with_enums, services.into_locations())?;
    let with_blocks = one_behind_other(alloc, with_services, blocks.into_locations())?;
    let with_extensions = one_behind_other(alloc, with_blocks, extensions.into_locations())?;
    let all = one_behind_other(alloc, with_extensions, end)?;
    Ok(all)
}

/// All locations of a file whose items have been located, in the order of their paths. `front` are
/// those in front of the items, `end` those behind them. `AllocError` if memory runs out.
pub fn all_locations(
    front: Items<Location>,
    draft: LocationDraft,
    end: Items<Location>,
) -> Result<SourceCodeInfo, AllocError>
    ensures { IfOk result (λ info. (numbers : faults.Span → List ℤ) (file : file_type.File) → IsDraft numbers file.items draft → front ≡ file_front numbers file [] → end ≡ file_end numbers file [] → info.location ≡ file_at numbers file []) }
{
    let alloc = draft.alloc;
    let all = all_kept(
        LocationList::listed(front),
        draft,
        LocationList::listed(end),
    )?;
    Ok(SourceCodeInfo {
        location: trimmed(all.into_items(alloc)?),
    })
}

/// All locations in a pool.
///
/// # Errors
/// As for `all_locations`.
pub fn pooled_locations(
    front: LocationPool,
    draft: LocationDraft,
    end: LocationPool,
) -> Result<LocationPool, AllocError>
    ensures { IfOk result (λ pool. (numbers : faults.Span → List ℤ) (file : file_type.File) → IsDraft numbers file.items draft → front ≡ file_front numbers file [] → end ≡ file_end numbers file [] → pool ≡ file_at numbers file []) }
{
    let alloc = draft.alloc;
    let all = all_kept(
        LocationList::pooled(front),
        draft,
        LocationList::pooled(end),
    )?;
    let mut pool = all.into_pool(alloc)?;
    pool.shrink_to_fit();
    Ok(pool)
}

// Adds the locations of all items.
fn locate_items(
    alloc: Global,
    lines: &LineResolver,
    draft: &mut LocationDraft,
    items: &[FileItem],
) -> Result<(), AllocError>
    ensures { OnOk result (IsDraft (numbers_at lines.now) [] draft.old → IsDraft (numbers_at lines.now) items.now draft.new) }
{
    for item in items {
        locate_item(alloc, lines, draft, item)?;
    }
    Ok(())
}

/// The locations of all parts of a file, in the order of their paths. `source` is the text that the
/// tree was parsed from. It must be at most 2,147,483,647 bytes. Lines and columns are from 0;
/// columns count bytes.
///
/// `AllocError` if memory runs out, or if a path or a span would need a number beyond
/// 2,147,483,647. No tree of a source within the limit does.
pub fn locate_file(alloc: Global, source: &str, ast: &File) -> Result<SourceCodeInfo, AllocError>
    requires length { length source.now ≤ 2147483647 }
    ensures located { IfOk result (λ info. info.location ≡ file_locations (span_numbers source.now) ast.now) }
    // They are in order if the tree's nodes stand in the source. Those of each accepted source do.
    ensures in_order { IfOk result (λ info. FileStands (length source.now) ast.now → InOrder StartsBefore info.location) }
    ensures by_path { IfOk result (λ info. FileStands (length source.now) ast.now → AreByPath info.location) }
{
    let lines = LineResolver::new(alloc, source)?;
    let mut draft = LocationDraft::new(alloc, front_len(ast), 0)?;
    locate_items(alloc, &lines, &mut draft, ast.items.as_slice())?;
    let front = locate_front(alloc, &lines, ast)?;
    let end = locate_end(alloc, &lines, ast)?;
    let info = all_locations(front, draft, end)?;
    Ok(info)
}

fn locate_package(
    alloc: Global,
    lines: &LineResolver,
    context: &mut Context,
    head: &Opt<Package>,
) -> Result<(), AllocError>
    ensures { OnOk result (Emits context.old context.new (package_locations (numbers_at lines.now) context.old.path head.now)) }
{
    match head {
        None => Ok(()),
        Some(statement) => {
            context.add_with(
                alloc,
                lines,
                &[PACKAGE],
                &statement.span,
                &statement.comments,
            )
        }
    }
}

fn locate_syntax(
    alloc: Global,
    lines: &LineResolver,
    context: &mut Context,
    syntax: &Opt<(Span, Comments)>,
) -> Result<(), AllocError>
    ensures { OnOk result (Emits context.old context.new (syntax_locations (numbers_at lines.now) context.old.path syntax.now)) }
{
    match syntax {
        None => Ok(()),
        Some((span, comments)) => context.add_with(alloc, lines, &[SYNTAX], span, comments),
    }
}
