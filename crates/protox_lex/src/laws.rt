//! Laws of the definitions that contracts cite. Each is a function that does nothing, or only
//! compares two values. Its contract is the law.
ghost use Rattle.std.specs.Prelude.{◌≡◌, ◌⊎◌, ◌↔◌, IsTrue, ◌+◌, ◌++◌, ◌∷◌, [], ℕ, Bool, true, false, if◌then◌else◌, List, Some, None, codes, drop, length, take, map, flat_map, slice_get};
ghost use Rattle.std.specs.Cow.{cow_str_bytes};
ghost use Rattle.std.specs.List.{All};
ghost use Rattle.std.specs.Option.{option_map};
ghost use Rattle.std.specs.Str.{IsUtf8};
ghost use Rattle.protox_fault.specs.declared.error.ParseErrorKind.TheVariants.{InvalidStringCharacters, InvalidStringEscape};
ghost use Rattle.protox_fault.specs.Faults.{LiesIn, span_from};
ghost use Rattle.protox_lexeme.specs.Lexemes as spec;
ghost use Rattle.protox_lex.specs.LexesBack.{AreBytes, IsPrintable, ArePrintable, spaced};
ghost use Rattle.protox_lexeme.specs.Lexicon.{is_quote};
ghost use Rattle.protox_lexeme.specs.Pattern.{Pattern, Fits};
ghost use Rattle.protox_lexeme.specs.Printed.{printed};
ghost use Rattle.protox_lexeme.specs.Shapes.{Shape, Ident, Int, Float, Str, LineComment, Invalid};
ghost use Rattle.protox_lexeme.specs.State.{TakeNone};
ghost use Rattle.protox_lex.specs.StringPieces.{IsPieces, all_wrong, begins_wrong};
ghost use Rattle.protox_lexeme.specs.Strings.{Piece, wrong, len_of, pieces, faults_of as string_faults};
ghost use Rattle.protox_lexeme.specs.Table.{rows_of, gaps_of, faults_of, StandBetween};
ghost use Rattle.protox_lexeme.specs.Tokens.{shape_of, shape_of_result};
ghost use Rattle.protox_lex.specs.Words.{IsWordOf};

use crate::lex::*;
use std::alloc::Global;

/// Each text can be cut into lexemes in one way only, and `cut` gives this cut.
#[tactic(auto, using(protox_lexeme::proofs::Lemmas::cut_is_cut, protox_lexeme::proofs::Lemmas::only_cut))]
pub fn one_cut()
    ensures is { (source : List ℕ) → spec.IsCut 0 source (spec.cut 0 source) }
    ensures only { (source : List ℕ) (lexemes : List spec.Lexeme) → spec.IsCut 0 source lexemes → lexemes ≡ spec.cut 0 source }
{}

/// The first n bytes of a text fit a pattern exactly when they are a word of it.
#[tactic(auto, using(crate::proofs::WordsOf::fits_word, crate::proofs::WordsOf::word_fits))]
pub fn fits_is_word()
    ensures fits { (p : Pattern) (text : List ℕ) (n : ℕ) → Fits p text n → IsWordOf p (take n text) }
    ensures word { (p : Pattern) (word rest : List ℕ) → IsWordOf p word → Fits p (word ++ rest) (length word) }
{}

/// The rows of a source stand in it, each after the one before, and each has at least one byte.
#[tactic(auto, using(protox_lexeme::proofs::Lemmas::stand))]
pub fn rows_stand_in_source()
    ensures { (source : List ℕ) → IsUtf8 source → StandBetween 0 (length source) (rows_of (spec.cut 0 source)) }
{}

/// Each fault in the table of a source lies in the source.
#[tactic(auto, using(protox_lexeme::proofs::Lemmas::lie))]
pub fn faults_lie_in_source()
    ensures { (source : List ℕ) → IsUtf8 source → All (All (LiesIn (length source))) (faults_of (spec.cut 0 source)) }
{}

/// There is a gap before each row and one after the last row. Each gap has a list of faults.
#[tactic(auto, using(crate::proofs::Tables::gaps_of_length, crate::proofs::Tables::faults_of_length))]
pub fn gaps_surround_rows()
    ensures gaps { (lexemes : List spec.Lexeme) → length (gaps_of lexemes) ≡ length (rows_of lexemes) + 1 }
    ensures faults { (lexemes : List spec.Lexeme) → length (faults_of lexemes) ≡ length (rows_of lexemes) + 1 }
{}

/// The text of a string literal can be cut into pieces in one way only. Each piece is the longest
/// match in the table of pieces.
#[tactic(auto, using(crate::proofs::StringPieces::pieces_are, crate::proofs::StringPieces::only_pieces))]
pub fn pieces_are_longest()
    ensures is { (quote : ℕ) (text : List ℕ) → is_quote quote ≡ true → IsPieces quote text (pieces quote text) }
    ensures only { (quote : ℕ) (text : List ℕ) (ps : List Piece) → is_quote quote ≡ true → IsPieces quote text ps → ps ≡ pieces quote text }
{}

/// Invalid pieces right after one another are one fault. Its kind is that of the first.
#[tactic(auto, using(crate::proofs::StringPieces::adjoining))]
pub fn invalid_pieces_adjoin()
    ensures { (at : ℕ) (is_escape : Bool) (n : ℕ) (more rest : List Piece) → all_wrong more ≡ true → begins_wrong rest ≡ false
        → string_faults None at (wrong is_escape n ∷ more ++ rest)
        ≡ (let span = span_from at (at + n + len_of more) in if is_escape then InvalidStringEscape span else InvalidStringCharacters span) ∷ string_faults None (at + n + len_of more) rest }
{}

/// Identifiers, integers, floats, strings and marks, printed with one space between them, are lexed
/// to the same again. They have no fault, in text format or outside it.
#[tactic(auto, using(crate::proofs::ShapesBack::gives))]
pub fn printed_forms_lex_back()
    ensures { (xs : List Shape) → ArePrintable xs → (map (λ x. x.shape) (spec.cut 0 (spaced xs)) ≡ xs) × (flat_map (λ x. x.faults) (spec.cut 0 (spaced xs)) ≡ []) }
{}

/// Every valid row of a source prints to text that lexes back.
#[tactic(auto, using(crate::proofs::Printable::printable_rows))]
pub fn rows_are_printable()
    ensures { (source : List ℕ) → AreBytes source → All (λ row. (row.shape ≡ Invalid) ⊎ IsPrintable row.shape) (rows_of (spec.cut 0 source)) }
{}

/// A string that is printed in double quotes lexes to one string with the same bytes, without a
/// fault.
#[tactic(auto, using(crate::proofs::ShapesBack::string_alone))]
pub fn strings_lex_back()
    ensures { (s : List ℕ) → AreBytes s → (borrowed : Bool) × (spec.cut 0 (printed (Str s)) ≡ record { start = 0; stop = length (printed (Str s)); shape = Str s; borrowed = borrowed; faults = [] } ∷ []) }
{}

/// Two tokens are equal exactly when their kinds and values are. Their places don't count, nor
/// whether a text is borrowed.
pub fn tokens_are_equal_by_shape(a: &Token<'_>, b: &Token<'_>) -> bool
    ensures { IsTrue result ↔ (shape_of a.now ≡ shape_of b.now) }
{
    a == b
}

/// Two floats are equal exactly when their texts are.
pub fn floats_are_equal_by_text(a: &EqFloat<'_>, b: &EqFloat<'_>) -> bool
    ensures { IsTrue result ↔ (cow_str_bytes a.now.0 ≡ cow_str_bytes b.now.0) }
{
    *a == *b
}

// The next lexeme, where no lexeme takes memory.
fn next_of_free<'a>(lexer: &mut Lexer<'a>) -> Option<Result<Token<'a>, ()>>
    requires live { lexer.old.failed ≡ false }
    requires free { TakeNone lexer.old.text_format lexer.old.left }
    ensures first { option_map shape_of_result result ≡ option_map (λ x. x.shape) (slice_get lexer.old.left 0) }
    ensures left { lexer.new.left ≡ drop 1 lexer.old.left }
    ensures live { lexer.new.failed ≡ false }
    ensures mode { lexer.new.text_format ≡ lexer.old.text_format }
{
    match lexer.next() {
        Ok(found) => found,
        Err(_) => unreachable!(),
    }
}

/// `foo 'bar' 12 .5 // c` is lexed without asking for memory.
pub fn five_lexemes(alloc: Global) -> [Option<Result<Token<'static>, ()>>; 5]
    ensures { map (option_map shape_of_result) result
        ≡ map Some (Ident (codes "foo") ∷ Str (codes "bar") ∷ Int 12 ∷ Float (codes ".5") ∷ LineComment (codes " c\n") ∷ []) }
{
    let mut lexer = Token::lexer(alloc, "foo 'bar' 12 .5 // c\n");
    let first = next_of_free(&mut lexer);
    let second = next_of_free(&mut lexer);
    let third = next_of_free(&mut lexer);
    let fourth = next_of_free(&mut lexer);
    let fifth = next_of_free(&mut lexer);
    [first, second, third, fourth, fifth]
}

/// The value of each constant of a keyword is its own name in small letters.
pub fn keywords_are_their_names()
    ensures statements { (SYNTAX.now ≡ codes "syntax") × (PACKAGE.now ≡ codes "package") × (IMPORT.now ≡ codes "import") × (WEAK.now ≡ codes "weak") × (PUBLIC.now ≡ codes "public") × (ENUM.now ≡ codes "enum") × (OPTION.now ≡ codes "option") × (SERVICE.now ≡ codes "service") × (RPC.now ≡ codes "rpc") × (STREAM.now ≡ codes "stream") × (RETURNS.now ≡ codes "returns") × (EXTEND.now ≡ codes "extend") × (MESSAGE.now ≡ codes "message") }
    ensures fields { (OPTIONAL.now ≡ codes "optional") × (REQUIRED.now ≡ codes "required") × (REPEATED.now ≡ codes "repeated") × (MAP.now ≡ codes "map") × (ONEOF.now ≡ codes "oneof") × (GROUP.now ≡ codes "group") }
    ensures scalars { (DOUBLE.now ≡ codes "double") × (FLOAT.now ≡ codes "float") × (INT32.now ≡ codes "int32") × (INT64.now ≡ codes "int64") × (UINT32.now ≡ codes "uint32") × (UINT64.now ≡ codes "uint64") × (SINT32.now ≡ codes "sint32") × (SINT64.now ≡ codes "sint64") × (FIXED32.now ≡ codes "fixed32") × (FIXED64.now ≡ codes "fixed64") × (SFIXED32.now ≡ codes "sfixed32") × (SFIXED64.now ≡ codes "sfixed64") × (BOOL.now ≡ codes "bool") × (STRING.now ≡ codes "string") × (BYTES.now ≡ codes "bytes") }
    ensures ranges { (RESERVED.now ≡ codes "reserved") × (EXTENSIONS.now ≡ codes "extensions") × (TO.now ≡ codes "to") × (MAX.now ≡ codes "max") }
{}
