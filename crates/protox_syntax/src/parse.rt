//! Parses a source into its syntax tree.

ghost use Rattle.std.specs.Prelude.{◌≡◌, ◌≢◌, ◌<◌, [], List, None, false, IfOk, IfErr, OnOk, MatchResult, length};
ghost use Rattle.protox_ast.specs.Accepted.{Fits, IsAccepted, IsFileOf, FaultsLieIn, IsOutOfMemory};
ghost use Rattle.protox_ast.specs.Ast as ast_of;
ghost use Rattle.protox_ast.specs.Tree as tree;
ghost use Rattle.protox_ast.specs.Places.{Place};
ghost use Rattle.protox_ast.specs.declared.ast.FileItem as item_type;
ghost use Rattle.protox_grammar.specs.Grammar.{OneTree};
ghost use Rattle.protox_syntax.specs.Aggregates.{AggregatesLexBack};
ghost use Rattle.protox_syntax.specs.ExpectedWords.{ExpectsTruly};
ghost use Rattle.protox_syntax.specs.FirstFaults.{BeginsWithFirst};
ghost use Rattle.protox_syntax.specs.FoundFaults.{AreAllFound};
ghost use Rattle.protox_syntax.specs.LexicalFaults.{AreLexicalAlone};
ghost use Rattle.protox_syntax.specs.LostChecks.{NoCheckIsLost};
ghost use Rattle.protox_syntax.specs.StandingFaults.{AreStanding};
ghost use Rattle.protox_syntax.specs.TakenItems.{IsTakenFrom};
ghost use Rattle.protox_syntax.specs.inner.OnWay.{table_in};
ghost use Rattle.protox_syntax.specs.inner.ParsedTable.{RefusesTable};
ghost use Rattle.protox_syntax.specs.inner.Parts.{IsBetween, IsTurned, last_end, no_file};
ghost use Rattle.protox_syntax.specs.inner.ReadInto.{IsReadInto};

pub use crate::expected_token::ExpectedToken;
use crate::front::faults_of_invalid_front;
use crate::last_part::read_last;
use crate::parts::{Progress, cut_part, last_end, next_end};
use crate::some_part::read_some;
pub use crate::statements::MAX_MESSAGE_NESTING_DEPTH;
pub use crate::taking::TakesItems;
use crate::taking::hand_over;
use protox_ast::ast::{File, Syntax};
use protox_descriptor::values::Items;
use protox_lex::error::SyntaxFailure;
use std::alloc::Global;

// A file without a statement.
fn no_file(alloc: Global) -> File
    ensures { result ≡ no_file }
{
    File {
        span: 0..0,
        syntax: Syntax::Proto2,
        syntax_span: None,
        package: None,
        imports: Items::new(alloc),
        options: Items::new(alloc),
        items: Items::new(alloc),
    }
}

// Reads the next part of a source; or all that is left of it as one part, if the next part is the
// last, if something in it is odd, or if it has no statement whole. Answers whether the source is
// read to its end.
fn read_part(
    alloc: Global,
    source: &str,
    head: &mut File,
    progress: &mut Progress,
) -> Result<bool, SyntaxFailure>
    requires fits { Fits source.now }
    requires between { (gone : List item_type.FileItem) × IsBetween source.now progress.old gone head.old }
    ensures turned { IfOk result (λ ends. (gone : List item_type.FileItem) → IsBetween source.now progress.old gone head.old → IsTurned source.now gone ends progress.new head.new) }
    ensures further { IfOk result (λ ends. ends ≡ false → last_end progress.old.last < last_end progress.new.last) }
    ensures syntax { OnOk result (progress.old.last ≢ None → head.new.syntax ≡ head.old.syntax) }
    ensures refused { IfErr result (RefusesTable (table_in source.now) (length source.now)) }
{
    let before = last_end(progress);
    let part = cut_part(alloc, source, progress, next_end(before, source.len()))?;
    if part.ends {
        read_last(alloc, source, &part, head, progress)?;
        return Ok(true);
    }
    let on = read_some(alloc, source, &part, head, progress)?;
    if on && before < last_end(progress) {
        return Ok(false);
    }
    let rest = cut_part(alloc, source, progress, source.len())?;
    read_last(alloc, source, &rest, head, progress)?;
    Ok(true)
}

// Reads the parts of a source, one behind the other.
fn read_parts<T: TakesItems>(alloc: Global, source: &str, to: &mut T) -> Result<File, SyntaxFailure>
    requires { Fits source.now }
    ensures read { IfOk result (λ head. IsReadInto T.takes source.now head to.old to.new) }
    ensures refused { IfErr result (RefusesTable (table_in source.now) (length source.now)) }
{
    let mut head = no_file(alloc);
    let mut progress = Progress {
        start: source.len(),
        last: None,
    };
    // Each part but the last has at least one token more.
    'parts: loop {
        let ends = read_part(alloc, source, &mut head, &mut progress)?;
        hand_over(alloc, &mut head, to)?;
        if ends {
            // The list of the items is empty, but has room.
            head.items = Items::new(alloc);
            return Ok(head);
        }
    }
}

/// Reads a source, and hands its items over one by one: the messages, enums, services and `extend`
/// blocks of the file, in order. The answer is the rest of its syntax tree: the file without items.
///
/// The source must be at most 2,147,483,647 bytes. It is cut and read part by part, and the items of
/// a part are handed over when the part is read. If the source is refused, the answer is the faults,
/// as for `parse_file`; some items may have been handed over before. `AllocError` of the taker ends
/// the reading, and the answer is then `OutOfMemory`.
pub fn read_source<T: TakesItems>(
    alloc: Global,
    source: &str,
    to: &mut T,
) -> Result<File, SyntaxFailure>
    requires { Fits source.now }
    // The answer is the syntax tree that the source's tokens spell, without its items. The taker has
    // taken just these, one after another.
    ensures taken { IfOk result (λ head. IsTakenFrom T.takes source.now head to.old to.new) }
    // For every accepted source there is an answer, unless memory runs out.
    ensures only { (f : tree.File Place) → IsAccepted source.now f → MatchResult result (λ head. head ≡ record (ast_of.file (length source.now) f) { items = [] }) IsOutOfMemory }
    // What a refusal says: as for `parse_file`.
    ensures refused { IfErr result (FaultsLieIn source.now) }
    ensures first { IfErr result (BeginsWithFirst source.now) }
    ensures stands { IfErr result (AreStanding source.now) }
    ensures words { IfErr result (ExpectsTruly source.now) }
    ensures lexical { IfErr result (AreLexicalAlone source.now) }
    ensures all_found { IfErr result (AreAllFound source.now) }
    ensures no_check_lost { IfErr result (NoCheckIsLost source.now) }
{
    if let Some(faults) = faults_of_invalid_front(alloc, source)? {
        return Err(SyntaxFailure::Faults(faults));
    }
    read_parts(alloc, source, to)
}

/// Parses a source into its syntax tree. The source must be at most 2,147,483,647 bytes. If it is
/// refused, the answer is the faults, in the order in which they were found. Or memory ran out.
///
/// Faults and tree carry spans in byte offsets of `source`. Some checks are made on the tree later,
/// by `generate_file`: those of labels, numbers, map keys and defaults among them.
pub fn parse_file(alloc: Global, source: &str) -> Result<File, SyntaxFailure>
    requires { Fits source.now }
    // The answer is the syntax tree that the source's tokens spell.
    ensures found { IfOk result (IsFileOf source.now) }
    // Every accepted source gets this answer, unless memory runs out.
    ensures only { (f : tree.File Place) → IsAccepted source.now f
        → MatchResult result (λ file. file ≡ ast_of.file (length source.now) f) IsOutOfMemory }
    // A refusal has at least one fault, and each lies in the source.
    ensures refused { IfErr result (FaultsLieIn source.now) }
    // The first fault is true of the source, and no fault comes before it.
    ensures first { IfErr result (BeginsWithFirst source.now) }
    // Each fault of a lexeme and each unexpected token stands in the source. No fault of a lexeme
    // is listed twice.
    ensures stands { IfErr result (AreStanding source.now) }
    // The words of the first fault are true: some file goes on with each token that they name, and
    // none with a token that they don't allow.
    ensures words { IfErr result (ExpectsTruly source.now) }
    // If only lexemes are at fault, and no character is invalid, exactly their faults are reported.
    ensures lexical { IfErr result (AreLexicalAlone source.now) }
    // These are all faults of the source, in their order. Only the words of what was expected may
    // differ.
    ensures all_found { IfErr result (AreAllFound source.now) }
    // If a file goes on from the tokens read, each wrong node of it is listed, but for the named
    // exceptions.
    ensures no_check_lost { IfErr result (NoCheckIsLost source.now) }
    // The tokens spell at most one tree, with their places or without.
    ensures one_tree { OneTree (Unit {0}) }
    ensures one_placed_tree { OneTree Place }
    // The text of each aggregate of an accepted source lexes back to its tokens, without a fault.
    ensures lexes_back { (f : tree.File Place) → IsAccepted source.now f → AggregatesLexBack source.now f }
{
    let mut items = Items::new(alloc);
    match read_source(alloc, source, &mut items) {
        Ok(file) => Ok(File { items, ..file }),
        Err(failure) => Err(failure),
    }
}
