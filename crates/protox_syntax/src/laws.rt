//! Laws of first faults, and of what is printed of a tree.

ghost use Rattle.std.specs.Prelude.{◌≡◌, ℕ, List, Bool, [], ◌∷◌, length, map, flat_map};
ghost use Rattle.protox_fault.specs.declared.error.ParseErrorKind.{ParseErrorKind};
ghost use Rattle.protox_descriptor.specs.Printed.{option_text, value_text};
ghost use Rattle.protox_descriptor.specs.Printed as printed;
ghost use Rattle.protox_ast.specs.AstParts.{body};
ghost use Rattle.protox_ast.specs.FirstFault.{IsFirstFault};
ghost use Rattle.protox_ast.specs.Options.{uninterpreted};
ghost use Rattle.protox_ast.specs.Places.{Place};
ghost use Rattle.protox_ast.specs.Spelling as spell;
ghost use Rattle.protox_ast.specs.Spells.{shapes};
ghost use Rattle.protox_ast.specs.Tree as tree;
ghost use Rattle.protox_ast.specs.Truth.{IsTrueOf};
ghost use Rattle.protox_ast.specs.Values.{token_string};
ghost use Rattle.protox_ast.specs.declared.ast.OptionValue.TheVariants as value;
ghost use Rattle.protox_ast.specs.declared.ast.String.{String};
ghost use Rattle.protox_lex.specs.LexesBack.{AreBytes, ArePrintable};
ghost use Rattle.protox_lexeme.specs.Lexemes as spec;
ghost use Rattle.protox_lexeme.specs.Shapes.{Str};
ghost use Rattle.protox_syntax.specs.OptionsBack.{HasValue, option_shapes};

/// The first fault of a source is true of the source.
#[tactic(auto, using(crate::proofs::FirstIsTrue::first_faults_are_true))]
pub fn first_faults_are_true()
    ensures { (source : List ℕ) (wrong : ParseErrorKind) → IsFirstFault (spec.cut 0 source) wrong → IsTrueOf (spec.cut 0 source) wrong }
{}

/// `OptionValue::to_token_string` prints a string as one lexeme of the same bytes, without a fault.
#[tactic(auto, using(crate::proofs::ValuesBack::value_alone))]
pub fn values_lex_back()
    ensures { (string : String) → AreBytes string.value → (borrowed : Bool) × (spec.cut 0 (token_string (value.String string)) ≡ record { start = 0; stop = length (token_string (value.String string)); shape = Str string.value; borrowed = borrowed; faults = [] } ∷ []) }
{}

/// `Display` prints the string of an uninterpreted option as one lexeme of the same bytes, without
/// a fault.
#[tactic(auto, using(crate::proofs::ValuesBack::option_alone))]
pub fn option_strings_lex_back()
    ensures { (bytes : List ℕ) → AreBytes bytes → (borrowed : Bool) × (spec.cut 0 (value_text (printed.String bytes)) ≡ record { start = 0; stop = length (value_text (printed.String bytes)); shape = Str bytes; borrowed = borrowed; faults = [] } ∷ []) }
{}

/// `Display` writes an uninterpreted option so that, cut into lexemes again, it gives the tokens of
/// the option in the source, without a fault. Adjacent strings have become one string.
///
/// The tokens are printable in a source without invalid characters, by the law
/// `rows_are_printable` of `protox_lex`.
#[tactic(auto, using(crate::proofs::OptionsBack::options_back))]
pub fn options_lex_back()
    ensures { (b : tree.Body Place) → ArePrintable (shapes (spell.body b)) → HasValue b.value → (map (λ l. l.shape) (spec.cut 0 (option_text (uninterpreted (body b)))) ≡ option_shapes b) × (flat_map (λ l. l.faults) (spec.cut 0 (option_text (uninterpreted (body b)))) ≡ []) }
{}
