//! What is made of the items of a source, while it is read.

ghost use Rattle.std.specs.Prelude.{◌≡◌, ◌++◌, ◌∷◌, [], ℕ, List, None, IfErr, IfOk, OnOk};
ghost use Rattle.std.specs.List.{FoldsTo};
ghost use Rattle.protox_ast.specs.Accepted.{Fits};
ghost use Rattle.protox_ast.specs.declared.ast.File as file_type;
ghost use Rattle.protox_ast.specs.declared.ast.FileItem as item_type;
ghost use Rattle.protox_ast.specs.declared.ast.Syntax as syntax_type;
ghost use Rattle.protox_checks.specs.Checks.{AreListed, AreListedOfItem};
ghost use Rattle.protox_checks.specs.Faults.{AreWrong, IsFaultless};
ghost use Rattle.protox_generate.specs.File.{AreListedAll, file_descriptor};
ghost use Rattle.protox_generate.specs.Pooled.{with_locations};
ghost use Rattle.protox_generate.specs.inner.Taken.{IsTaken};
ghost use Rattle.protox_parse.specs.inner.Made.{AddsListed, AreInHand, IsRead, IsSoFar, TakesNext};

use protox_ast::ast::{File, FileItem, Syntax};
use protox_checks::checks::{check_file, check_item};
use protox_descriptor::descriptor::FileDescriptorProto;
use protox_descriptor::values::Items;
use protox_generate::draft::{FileDraft, PooledFile};
use protox_generate::repeats::repeats_much;
use protox_lex::error::{ParseErrorKind, SyntaxFailure};
use protox_syntax::taking::TakesItems;
use std::alloc::{AllocError, Global};

/// Of a source of at most this many bytes no item is described before all have been checked.
const CHECKED_FIRST: usize = 0x4_0000;

/// What is made of the items of a source, while it is read: their faults, or what describes them.
#[derive(Drop)]
pub(crate) struct Translation<'a> {
    draft: FileDraft<'a>,
    faults: Vec<ParseErrorKind>,
    // Items that are described only at the end: all of a short source, so that one with a fault
    // takes no time for descriptions; else one whose description may be much longer than itself,
    // and all behind it.
    kept: Items<FileItem>,
    // Whether the source is short.
    short: bool,
}

// Adds the faults of an item.
fn add_faults(
    alloc: Global,
    syntax: Syntax,
    item: &FileItem,
    faults: &mut Vec<ParseErrorKind>,
) -> Result<(), AllocError>
    ensures { OnOk result (AddsListed (AreListedOfItem syntax item.now) faults.old.items faults.new.items) }
{
    let mut of_item = check_item(alloc, syntax, item)?.into_vec();
    faults.append(&mut of_item)
}

// Describes an item, or keeps it for the end.
fn describe(
    alloc: Global,
    head: &File,
    item: FileItem,
    draft: &mut FileDraft<'_>,
    kept: &mut Items<FileItem>,
    short: bool,
) -> Result<(), AllocError>
    ensures { OnOk result ((source : List ℕ) (items : List item_type.FileItem) → AreInHand source head.now.syntax items draft.old kept.old → AreInHand source head.now.syntax (items ++ item ∷ []) draft.new kept.new) }
{
    if !short && kept.is_empty() && !repeats_much(&item) {
        draft.take(alloc, head, item)
    } else {
        kept.push(item)
    }
}

impl TakesItems for Translation<'_> {
    ghost takes = { TakesNext };

    fn take(&mut self, alloc: Global, head: &File, item: FileItem) -> Result<(), AllocError> {
        self.take_one(alloc, head, item)
    }

    fn take_all(
        &mut self,
        alloc: Global,
        head: &File,
        items: Vec<FileItem>,
    ) -> Result<Vec<FileItem>, AllocError> {
        if self.short && self.kept.is_empty() {
            // All items of a short source come at once. The list of them is kept as it is.
            self.check_all(alloc, head.syntax, items.as_slice())?;
            self.kept = Items::from_vec(items);
            return Ok(Vec::new(alloc));
        }
        self.take_each(alloc, head, items)
    }
}

// Adds the faults of a file without its items.
fn add_faults_of_head(
    alloc: Global,
    head: &File,
    faults: &mut Vec<ParseErrorKind>,
) -> Result<(), AllocError>
    ensures { OnOk result (AddsListed (AreListed head.now) faults.old.items faults.new.items) }
{
    let mut of_head = check_file(alloc, head)?.into_vec();
    faults.append(&mut of_head)
}

fn take_kept(
    alloc: Global,
    head: &File,
    draft: &mut FileDraft<'_>,
    kept: Items<FileItem>,
) -> Result<(), AllocError>
    ensures { OnOk result ((source : List ℕ) (items : List item_type.FileItem) → AreInHand source head.now.syntax items draft.old kept → IsTaken source head.now.syntax items draft.new) }
{
    for item in kept.into_vec() {
        draft.take(alloc, head, item)?;
    }
    Ok(())
}

// The draft of a file whose items are taken or kept.
fn all_taken<'a>(
    alloc: Global,
    head: &File,
    draft: FileDraft<'a>,
    kept: Items<FileItem>,
) -> Result<FileDraft<'a>, AllocError>
    ensures { IfOk result (λ whole. (source : List ℕ) (items : List item_type.FileItem) → AreInHand source head.now.syntax items draft.entry kept → IsTaken source head.now.syntax items whole) }
{
    let mut whole = draft;
    take_kept(alloc, head, &mut whole, kept)?;
    Ok(whole)
}

impl<'a> Translation<'a> {
    /// No item yet. It takes no memory; what is made later takes it from `alloc`.
    pub fn new(alloc: Global, source: &'a str) -> Translation<'a>
        requires { Fits source.now }
        ensures { (syntax : syntax_type.Syntax) → IsSoFar source.now syntax [] result }
    {
        Translation {
            draft: FileDraft::new(alloc, source),
            faults: Vec::new(alloc),
            kept: Items::new(alloc),
            short: source.len() <= CHECKED_FIRST,
        }
    }

    /// No item yet, as of `new`. The locations are kept in pools: it is for `finish_pooled`.
    pub fn pooled(alloc: Global, source: &'a str) -> Translation<'a>
        requires { Fits source.now }
        ensures { (syntax : syntax_type.Syntax) → IsSoFar source.now syntax [] result }
    {
        Translation {
            draft: FileDraft::pooled(alloc, source),
            faults: Vec::new(alloc),
            kept: Items::new(alloc),
            short: source.len() <= CHECKED_FIRST,
        }
    }

    // Adds the faults of an item. If there are none so far, it is described, or kept for the end.
    fn take_one(&mut self, alloc: Global, head: &File, item: FileItem) -> Result<(), AllocError>
        ensures { OnOk result (TakesNext head.now.syntax self.old item self.new) }
    {
        add_faults(alloc, head.syntax, &item, &mut self.faults)?;
        if !self.faults.is_empty() {
            // A file with a fault gets no descriptor.
            return Ok(());
        }
        describe(
            alloc,
            head,
            item,
            &mut self.draft,
            &mut self.kept,
            self.short,
        )
    }

    // Takes items, one behind another. Answers the list without them.
    fn take_each(
        &mut self,
        alloc: Global,
        head: &File,
        items: Vec<FileItem>,
    ) -> Result<Vec<FileItem>, AllocError>
        ensures taken { OnOk result (FoldsTo (TakesNext head.now.syntax) self.old items.items self.new) }
        ensures empty { IfOk result (λ left. left.items ≡ []) }
    {
        let mut left = items;
        for item in left.drain(..) {
            self.take_one(alloc, head, item)?;
        }
        Ok(left)
    }

    // Adds the faults of items that are to be kept.
    fn check_all(
        &mut self,
        alloc: Global,
        syntax: Syntax,
        items: &[FileItem],
    ) -> Result<(), AllocError>
        ensures { OnOk result (FoldsTo (TakesNext syntax) self.old items.now (record self.new { kept = self.old.kept ++ items.now })) }
    {
        for item in items {
            add_faults(alloc, syntax, item, &mut self.faults)?;
        }
        Ok(())
    }

    // The draft with all items; or the faults of the items and then those of the head, if there are
    // any; or memory ran out.
    fn into_draft(self, alloc: Global, head: &File) -> Result<FileDraft<'a>, SyntaxFailure>
        ensures taken { IfOk result (λ draft. (source : List ℕ) (file : file_type.File) → IsRead source file head.now self.entry → IsFaultless file × IsTaken source head.now.syntax file.items draft) }
        ensures wrong { IfErr result (λ e. (source : List ℕ) (file : file_type.File) → IsRead source file head.now self.entry → AreWrong file e) }
        ensures in_order { IfErr result (λ e. (source : List ℕ) (file : file_type.File) → IsRead source file head.now self.entry → AreListedAll file e) }
    {
        let Translation {
            draft,
            faults,
            kept,
            short: _,
        } = self;
        let mut all = faults;
        add_faults_of_head(alloc, head, &mut all)?;
        if !all.is_empty() {
            return Err(SyntaxFailure::Faults(all));
        }
        Ok(all_taken(alloc, head, draft, kept)?)
    }

    /// The descriptor of the file of this name that has this head and the items taken; or the
    /// faults of the items and then those of the head, if there are any; or memory ran out.
    pub fn finish(
        self,
        alloc: Global,
        name: &str,
        head: &File,
    ) -> Result<FileDescriptorProto, SyntaxFailure>
        ensures found { IfOk result (λ d. (source : List ℕ) (file : file_type.File) → IsRead source file head.now self.entry → IsFaultless file × (d ≡ file_descriptor name.now source file)) }
        ensures wrong { IfErr result (λ e. (source : List ℕ) (file : file_type.File) → IsRead source file head.now self.entry → AreWrong file e) }
        ensures in_order { IfErr result (λ e. (source : List ℕ) (file : file_type.File) → IsRead source file head.now self.entry → AreListedAll file e) }
    {
        let draft = self.into_draft(alloc, head)?;
        Ok(draft.finish(alloc, name, head)?)
    }

    /// What `finish` answers, with the locations in a pool.
    pub fn finish_pooled(
        self,
        alloc: Global,
        name: &str,
        head: &File,
    ) -> Result<PooledFile, SyntaxFailure>
        ensures apart { IfOk result (λ made. made.file.source_code_info ≡ None) }
        ensures found { IfOk result (λ made. (source : List ℕ) (file : file_type.File) → IsRead source file head.now self.entry → IsFaultless file × (with_locations made ≡ file_descriptor name.now source file)) }
        ensures wrong { IfErr result (λ e. (source : List ℕ) (file : file_type.File) → IsRead source file head.now self.entry → AreWrong file e) }
        ensures in_order { IfErr result (λ e. (source : List ℕ) (file : file_type.File) → IsRead source file head.now self.entry → AreListedAll file e) }
    {
        let draft = self.into_draft(alloc, head)?;
        Ok(draft.finish_pooled(alloc, name, head)?)
    }
}
