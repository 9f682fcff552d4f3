//! A Protocol Buffers source parser. `parse` takes a file's name and text. It answers the file's
//! descriptor with locations, or what is wrong with the text.
#![tactic(auto)]

ghost use Rattle.std.specs.Prelude.{◌≡◌, ◌≤◌, ◌↔◌, [], None, IsTrue, IfOk, IfErr, MatchResult, length};
ghost use Rattle.protox_ast.specs.Accepted.{Fits, IsAccepted};
ghost use Rattle.protox_ast.specs.Ast as ast_of;
ghost use Rattle.protox_ast.specs.Tree as tree;
ghost use Rattle.protox_checks.specs.Faults.{IsFaultless};
ghost use Rattle.protox_describe.specs.Oneofs.{HasRealFirst};
ghost use Rattle.protox_generate.specs.Commented.{AreCommentedOnce};
ghost use Rattle.protox_generate.specs.File.{file_descriptor, AreLocated, AreSorted};
ghost use Rattle.protox_generate.specs.NamePaths.{HasPlaces};
ghost use Rattle.protox_generate.specs.Names.{HasNames};
ghost use Rattle.protox_generate.specs.Pooled.{with_locations};
ghost use Rattle.protox_ast.specs.Places.{Place};
ghost use Rattle.protox_ast.specs.declared.ast.File as file_type;
ghost use Rattle.protox_ast.specs.declared.ast.Syntax as syntax_type;
ghost use Rattle.protox_parse.specs.Answers.{HasFailureLaws, HasFileLaws};
ghost use Rattle.protox_parse.specs.Failures.{IsOutOfMemory, IsRefusalOf};
ghost use Rattle.protox_parse.specs.FaultLists.{AreAllFound, AreLexicalAlone, AreListedOf, AreStanding, ExpectsTruly, NoCheckIsLost};
ghost use Rattle.protox_parse.specs.Files.{IsFile, IsTranslation};
ghost use Rattle.protox_parse.specs.FirstFault.{BeginsWithFirst};
ghost use Rattle.protox_parse.specs.inner.Made.{IsRead, IsSoFar};

mod failure;
pub mod laws;
mod translate;

pub use failure::{ParseError, ParseFailure};
use failure::{refused, too_large};
pub use protox_ast::ast;
use protox_descriptor::descriptor::FileDescriptorProto;
pub use protox_descriptor::{case, descriptor, tag, values};
pub use protox_generate::draft::PooledFile;
pub use protox_generate::generate;
pub use protox_lex::error::ParseErrorKind;
use protox_lex::error::SyntaxFailure;
pub use protox_lex::{comments, error, lex};
pub use protox_places::find::locate;
pub use protox_places::{faults, find};
pub use protox_syntax::parse as syntax;
use protox_syntax::parse::read_source;
use std::alloc::Global;
use translate::Translation;

/// Whether a source of `len` bytes is within the limit of 2,147,483,647 bytes.
pub fn source_fits(len: usize) -> bool
    ensures { IsTrue result ↔ (len ≤ 2147483647) }
{
    len <= 2147483647
}

// Reads the source, and makes what can be made of its items. Answers the syntax tree without its
// items; or the faults that the parser finds, or that memory ran out.
#[tactic(auto, using(crate::proofs::Truths::no_memory))]
fn read(
    alloc: Global,
    name: &str,
    source: &str,
    made: &mut Translation<'_>,
) -> Result<ast::File, ParseFailure>
    requires fits { Fits source.now }
    requires none { (syntax : syntax_type.Syntax) → IsSoFar source.now syntax [] made.old }
    ensures found { IfOk result (λ head. (file : file_type.File) × IsRead source.now file head made.new) }
    ensures only { (f : tree.File Place) → IsAccepted source.now f → MatchResult result (λ head. head ≡ record (ast_of.file (length source.now) f) { items = [] }) IsOutOfMemory }
    ensures failure { IfErr result (HasFailureLaws name.now source.now) }
{
    match read_source(alloc, source, made) {
        Ok(head) => Ok(head),
        Err(SyntaxFailure::Faults(faults)) => Err(refused(alloc, name, source, faults)),
        Err(SyntaxFailure::OutOfMemory) => Err(ParseFailure::OutOfMemory),
    }
}

// The descriptor of the file with this head and the items read; or the faults that the generator's
// checks find, or that memory ran out.
#[tactic(auto, using(crate::proofs::Truths::no_memory))]
fn translated(
    alloc: Global,
    head: ast::File,
    made: Translation<'_>,
    name: &str,
    source: &str,
) -> Result<FileDescriptorProto, ParseFailure>
    requires { (file : file_type.File) × IsRead source.now file head made }
    ensures found { (file : file_type.File) → IsRead source.now file head made.entry → IfOk result (λ d. IsFaultless file × (d ≡ file_descriptor name.now source.now file)) }
    ensures only { (file : file_type.File) → IsRead source.now file head made.entry → IsFaultless file → MatchResult result (λ d. d ≡ file_descriptor name.now source.now file) IsOutOfMemory }
    ensures laws { IfOk result (HasFileLaws source.now) }
    ensures failure { IfErr result (HasFailureLaws name.now source.now) }
    ensures checked { (file : file_type.File) → IsRead source.now file head made.entry → IfErr result (AreListedOf file) }
{
    match made.finish(alloc, name, &head) {
        Ok(descriptor) => Ok(descriptor),
        Err(SyntaxFailure::Faults(found)) => Err(refused(alloc, name, source, found)),
        Err(SyntaxFailure::OutOfMemory) => Err(ParseFailure::OutOfMemory),
    }
}

// What `translated` answers, with the locations in a pool.
#[tactic(auto, using(crate::proofs::Truths::no_memory))]
fn translated_pooled(
    alloc: Global,
    head: ast::File,
    made: Translation<'_>,
    name: &str,
    source: &str,
) -> Result<PooledFile, ParseFailure>
    requires { (file : file_type.File) × IsRead source.now file head made }
    ensures apart { IfOk result (λ p. p.file.source_code_info ≡ None) }
    ensures found { (file : file_type.File) → IsRead source.now file head made.entry → IfOk result (λ p. IsFaultless file × (with_locations p ≡ file_descriptor name.now source.now file)) }
    ensures only { (file : file_type.File) → IsRead source.now file head made.entry → IsFaultless file → MatchResult result (λ p. with_locations p ≡ file_descriptor name.now source.now file) IsOutOfMemory }
    ensures laws { IfOk result (λ p. HasFileLaws source.now (with_locations p)) }
    ensures failure { IfErr result (HasFailureLaws name.now source.now) }
    ensures checked { (file : file_type.File) → IsRead source.now file head made.entry → IfErr result (AreListedOf file) }
{
    match made.finish_pooled(alloc, name, &head) {
        Ok(pooled) => Ok(pooled),
        Err(SyntaxFailure::Faults(wrong)) => Err(refused(alloc, name, source, wrong)),
        Err(SyntaxFailure::OutOfMemory) => Err(ParseFailure::OutOfMemory),
    }
}

/// Parses a file, proto2 or proto3, and describes it.
///
/// `name` is the file's name, as the descriptor gets it; no file is opened. `source` is its text.
/// The answer is the file's descriptor; its `source_code_info` holds the path, the place and the
/// comments of each declaration.
///
/// It fails with `ParseFailure::Refused` if something is wrong with the source, also if it is
/// longer than `source_fits` allows. It fails with `ParseFailure::OutOfMemory` if memory runs out.
/// Imported files are not read, and names of types are not resolved.
pub fn parse(alloc: Global, name: &str, source: &str) -> Result<FileDescriptorProto, ParseFailure>
    // The answer is the translation of the source: it is a file, and this is its descriptor.
    ensures found { IfOk result (IsTranslation name.now source.now) }
    // Every source that is a file gets its translation, unless memory runs out.
    ensures only { IsFile source.now → MatchResult result (IsTranslation name.now source.now) IsOutOfMemory }
    // Its locations are sorted by path, and those of one path by where they start.
    ensures located { IfOk result AreLocated }
    // `locate` needs this order.
    ensures sorted { IfOk result AreSorted }
    // In each message the oneofs that the source writes come first, and each field's oneof index is
    // that of one of its oneofs.
    ensures oneofs { IfOk result HasRealFirst }
    // If the path of a location leads to a name, the source writes that name there.
    ensures named { IfOk result (HasNames source.now) }
    // The path of each name that the source writes in the descriptor has exactly one location.
    ensures placed { IfOk result HasPlaces }
    // Each comment of the source stands in at most one field of one location, around that location.
    ensures commented_once { IfOk result (AreCommentedOnce source.now) }
    // A refusal has the file's name and the source, and its faults lie in the source.
    ensures refused { IfErr result (IsRefusalOf name.now source.now) }
    // The first fault is true of the source, and no fault comes before it.
    ensures first { IfErr result (BeginsWithFirst source.now) }
    // If the source is accepted with a tree, the faults are exactly those of its syntax tree, in
    // order.
    ensures checked { (f : tree.File Place) → IsAccepted source.now f → IfErr result (AreListedOf (ast_of.file (length source.now) f)) }
    // Each fault of a lexeme and each unexpected token stands in the source. No fault of a lexeme
    // is listed twice.
    ensures stands { IfErr result (AreStanding source.now) }
    // If only lexemes are at fault, and no character is invalid, exactly their faults are reported.
    ensures lexical { IfErr result (AreLexicalAlone source.now) }
    // If the parser refuses a source that isn't too long, exactly these are its faults, in this
    // order. Only the words of what was expected may differ.
    ensures all_found { IfErr result (AreAllFound source.now) }
    // Then, if a file goes on from the tokens read, each wrong node of it is listed, but for the
    // named exceptions.
    ensures no_check_lost { IfErr result (NoCheckIsLost source.now) }
    // Then the words of the first fault are true: some file goes on with each token that they name,
    // and none with a token that they don't allow.
    ensures words { IfErr result (ExpectsTruly source.now) }
{
    if !source_fits(source.len()) {
        return Err(too_large(alloc, name));
    }
    let mut made = Translation::new(alloc, source);
    match read(alloc, name, source, &mut made) {
        Ok(head) => translated(alloc, head, made, name, source),
        Err(failure) => Err(failure),
    }
}

/// Parses a file as `parse` does, and keeps its locations in a pool: the numbers of all their paths
/// and spans stand in one list, so they take less memory. `PooledFile` has the descriptor without
/// `source_code_info`, and the pool of the locations that it would have.
///
/// # Errors
/// As for `parse`.
pub fn parse_pooled(alloc: Global, name: &str, source: &str) -> Result<PooledFile, ParseFailure>
    // The locations are in the pool alone.
    ensures apart { IfOk result (λ p. p.file.source_code_info ≡ None) }
    // The answer, with its locations, is the translation of the source, as that of `parse`.
    ensures found { IfOk result (λ p. IsTranslation name.now source.now (with_locations p)) }
    // Every source that is a file gets its translation, unless memory runs out.
    ensures only { IsFile source.now → MatchResult result (λ p. IsTranslation name.now source.now (with_locations p)) IsOutOfMemory }
    // The laws that `parse` names hold of the answer with its locations.
    ensures laws { IfOk result (λ p. HasFileLaws source.now (with_locations p)) }
    // Those that it names of a failure hold of a failure.
    ensures failure { IfErr result (HasFailureLaws name.now source.now) }
    // If the source is accepted with a tree, the faults are exactly those of its syntax tree, in
    // order.
    ensures checked { (f : tree.File Place) → IsAccepted source.now f → IfErr result (AreListedOf (ast_of.file (length source.now) f)) }
{
    if !source_fits(source.len()) {
        return Err(too_large(alloc, name));
    }
    let mut made = Translation::pooled(alloc, source);
    match read(alloc, name, source, &mut made) {
        Ok(head) => translated_pooled(alloc, head, made, name, source),
        Err(failure) => Err(failure),
    }
}
