//! A file whose items are located and described one by one.

ghost use Rattle.std.specs.Prelude.{◌≡◌, ◌≤◌, ◌∷◌, ◌++◌, ℕ, ℤ, List, [], None, Some, length, IfOk, OnOk};
ghost use Rattle.protox_ast.specs.declared.ast.FileItem as item_type;
ghost use Rattle.protox_ast.specs.declared.ast.Syntax as syntax_type;
ghost use Rattle.protox_fault.specs.Faults as faults;
ghost use Rattle.protox_generate.specs.File.{file_descriptor};
ghost use Rattle.protox_generate.specs.Pooled.{with_locations};
ghost use Rattle.protox_generate.specs.inner.Taken.{ArePlaced, IsTaken};
ghost use Rattle.protox_locate.specs.inner.Draft.{IsDraft};
ghost use Rattle.protox_places.specs.Lines.{numbers_at, starts};

use crate::short_source::ShortSource;
use protox_ast::ast::{File, FileItem};
use protox_describe::file::{ItemLists, describe_head, describe_item};
use protox_descriptor::descriptor::{FileDescriptorProto, SourceCodeInfo};
use protox_locate::file::{
    LocationDraft, all_locations, front_len, locate_end, locate_front, locate_item, pooled_end,
    pooled_front, pooled_locations,
};
use protox_places::lines::LineResolver;
use protox_pool::LocationPool;
use std::alloc::{AllocError, Global};

/// For how many bytes of a source there is room for locations at once. Locations behind these get
/// their room as it is needed: room counts against a limit of memory even if it is never touched.
const AT_ONCE: usize = 0x10_0000;

/// Fields without comments have a location for some 13 bytes of source, commented ones for 30 and
/// more.
const BYTES_A_LOCATION: usize = 24;

// The lines of a source, and the locations of the items so far.
#[derive(Drop)]
struct ItemPlaces {
    lines: LineResolver,
    locations: LocationDraft,
}

/// The descriptor of a file without locations, and its locations in a pool.
#[derive(Drop)]
pub struct PooledFile {
    /// The descriptor. It has no `source_code_info`.
    pub file: FileDescriptorProto,
    /// The locations that its `source_code_info` would have.
    pub locations: LocationPool,
}

/// What is made of the items of a file, one by one. The rest of the file may be known only at the
/// end.
#[derive(Drop)]
pub struct FileDraft<'a> {
    source: ShortSource<'a>,
    // Whether the locations are kept in pools.
    pooled: bool,
    // None before the first item.
    places: Option<ItemPlaces>,
    lists: ItemLists,
}

impl ItemPlaces {
    // No item yet. `reserved` places are kept for the locations in front of the items, and there is
    // room for `room` locations, if memory allows.
    fn new(
        alloc: Global,
        source: &str,
        reserved: usize,
        room: usize,
    ) -> Result<ItemPlaces, AllocError>
        requires { length source.now ≤ 2147483647 }
        ensures lines { IfOk result (λ places. places.lines ≡ starts 0 source.now) }
        ensures located { IfOk result (λ places. (numbers : faults.Span → List ℤ) → IsDraft numbers [] places.locations) }
    {
        Ok(ItemPlaces {
            lines: LineResolver::new(alloc, source)?,
            locations: LocationDraft::new(alloc, reserved, room)?,
        })
    }

    // No item yet. The locations are kept in pools, with room for `room` of them, if memory allows.
    fn pooled(alloc: Global, source: &str, room: usize) -> Result<ItemPlaces, AllocError>
        requires { length source.now ≤ 2147483647 }
        ensures lines { IfOk result (λ places. places.lines ≡ starts 0 source.now) }
        ensures located { IfOk result (λ places. (numbers : faults.Span → List ℤ) → IsDraft numbers [] places.locations) }
    {
        Ok(ItemPlaces {
            lines: LineResolver::new(alloc, source)?,
            locations: LocationDraft::pooled(alloc, room),
        })
    }

    fn locate(&mut self, alloc: Global, item: &FileItem) -> Result<(), AllocError>
        ensures lines { self.new.lines ≡ self.old.lines }
        ensures located { OnOk result ((items : List item_type.FileItem) → IsDraft (numbers_at self.old.lines) items self.old.locations → IsDraft (numbers_at self.old.lines) (items ++ item.now ∷ []) self.new.locations) }
    {
        locate_item(alloc, &self.lines, &mut self.locations, item)
    }
}

// The places of no item yet, in lists or in pools. There is room for locations of a source of the
// usual kind, if memory allows.
fn no_places(
    alloc: Global,
    source: &str,
    pooled: bool,
    head: &File,
) -> Result<ItemPlaces, AllocError>
    requires { length source.now ≤ 2147483647 }
    ensures lines { IfOk result (λ places. places.lines ≡ starts 0 source.now) }
    ensures located { IfOk result (λ places. (numbers : faults.Span → List ℤ) → IsDraft numbers [] places.locations) }
{
    let room = source.len().min(AT_ONCE) / BYTES_A_LOCATION;
    if pooled {
        return ItemPlaces::pooled(alloc, source, room);
    }
    ItemPlaces::new(alloc, source, front_len(head), room)
}

// Locates an item. The first one also makes the table of lines and the lists of locations.
fn locate(
    alloc: Global,
    source: &str,
    pooled: bool,
    places: &mut Option<ItemPlaces>,
    head: &File,
    item: &FileItem,
) -> Result<(), AllocError>
    requires fits { length source.now ≤ 2147483647 }
    ensures located { OnOk result ((items : List item_type.FileItem) → ArePlaced source.now items places.old → ArePlaced source.now (items ++ item.now ∷ []) places.new) }
{
    match places {
        Some(known) => known.locate(alloc, item),
        None => {
            let mut made = no_places(alloc, source, pooled, head)?;
            made.locate(alloc, item)?;
            *places = Some(made);
            Ok(())
        }
    }
}

// The places of the items; without any item, those of none.
fn placed(alloc: Global, source: &str, places: Option<ItemPlaces>) -> Result<ItemPlaces, AllocError>
    requires { length source.now ≤ 2147483647 }
    ensures { IfOk result (λ known. (items : List item_type.FileItem) → ArePlaced source.now items places → ArePlaced source.now items (Some known)) }
{
    match places {
        Some(known) => Ok(known),
        None => ItemPlaces::new(alloc, source, 0, 0),
    }
}

// The descriptor with what its items add, and with its locations.
fn filled(file: FileDescriptorProto, lists: ItemLists, info: SourceCodeInfo) -> FileDescriptorProto
    ensures { result ≡ record file { message_type = lists.message_type; enum_type = lists.enum_type; service = lists.service; extension = lists.extension; source_code_info = Some info } }
{
    let mut whole = lists.put_into(file);
    whole.source_code_info = Some(info);
    whole
}

impl<'a> FileDraft<'a> {
    /// No item yet, of a file with this source. It takes no memory; what the draft takes later comes
    /// from `alloc`.
    ///
    /// Needs that the source has at most 2,147,483,647 bytes.
    pub fn new(alloc: Global, source: &'a str) -> FileDraft<'a>
        requires { length source.now ≤ 2147483647 }
        // The draft has no item.
        ensures taken { (syntax : syntax_type.Syntax) → IsTaken source.now syntax [] result }
    {
        FileDraft {
            source: ShortSource::new(source),
            pooled: false,
            places: None,
            lists: ItemLists::new(alloc),
        }
    }

    /// No item yet, of a file with this source, as `new`. The locations are kept in pools: it is for
    /// `finish_pooled`.
    ///
    /// Needs that the source has at most 2,147,483,647 bytes.
    pub fn pooled(alloc: Global, source: &'a str) -> FileDraft<'a>
        requires { length source.now ≤ 2147483647 }
        // The draft has no item.
        ensures taken { (syntax : syntax_type.Syntax) → IsTaken source.now syntax [] result }
    {
        FileDraft {
            source: ShortSource::new(source),
            pooled: true,
            places: None,
            lists: ItemLists::new(alloc),
        }
    }

    /// Describes and locates an item. Then it is dropped, so that its memory can serve what comes
    /// next. On `AllocError` (memory ran out, or a number of a path or of a place would be beyond an
    /// `i32`, as in no tree of a source within the limit) the draft may hold a part of the item, so
    /// it is of no more use.
    ///
    /// `head` says the syntax. What it has in front of its items is best known here, but may be
    /// known only at the end. The first item also makes the table of lines, and room for the
    /// locations of a source of the usual kind, if memory allows.
    pub fn take(&mut self, alloc: Global, head: &File, item: FileItem) -> Result<(), AllocError>
        // The item is the next one of the draft.
        ensures taken { OnOk result ((source : List ℕ) (items : List item_type.FileItem) → IsTaken source head.now.syntax items self.old → IsTaken source head.now.syntax (items ++ item ∷ []) self.new) }
    {
        describe_item(alloc, head.syntax, &item, &mut self.lists)?;
        locate(
            alloc,
            self.source.text,
            self.pooled,
            &mut self.places,
            head,
            &item,
        )
    }

    /// The descriptor of the file of this name that has this head and the items taken. Items of
    /// `head` itself don't count. `AllocError` as for `take`.
    pub fn finish(
        self,
        alloc: Global,
        name: &str,
        head: &File,
    ) -> Result<FileDescriptorProto, AllocError>
        ensures { IfOk result (λ file. (source : List ℕ) (items : List item_type.FileItem) → IsTaken source head.now.syntax items self.entry → file ≡ file_descriptor name.now source (record head.now { items = items })) }
    {
        let FileDraft {
            source,
            places,
            lists,
            pooled: _,
        } = self;
        let ItemPlaces { lines, locations } = placed(alloc, source.text, places)?;
        let front = locate_front(alloc, &lines, head)?;
        let end = locate_end(alloc, &lines, head)?;
        let info = all_locations(front, locations, end)?;
        let file = describe_head(alloc, name, head)?;
        Ok(filled(file, lists, info))
    }

    /// The descriptor, as of `finish`, with its locations in a pool.
    ///
    /// # Errors
    /// As for `finish`.
    pub fn finish_pooled(
        self,
        alloc: Global,
        name: &str,
        head: &File,
    ) -> Result<PooledFile, AllocError>
        ensures apart { IfOk result (λ made. made.file.source_code_info ≡ None) }
        ensures whole { IfOk result (λ made. (source : List ℕ) (items : List item_type.FileItem) → IsTaken source head.now.syntax items self.entry → with_locations made ≡ file_descriptor name.now source (record head.now { items = items })) }
    {
        let FileDraft {
            source,
            places,
            lists,
            pooled: _,
        } = self;
        let ItemPlaces {
            lines,
            locations: draft,
        } = placed(alloc, source.text, places)?;
        let front = pooled_front(alloc, &lines, head)?;
        let end = pooled_end(alloc, &lines, head)?;
        let locations = pooled_locations(front, draft, end)?;
        let file = describe_head(alloc, name, head)?;
        Ok(PooledFile {
            file: lists.put_into(file),
            locations,
        })
    }
}
