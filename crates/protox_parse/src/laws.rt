//! Laws of what `parse` answers.

ghost use Rattle.std.specs.Prelude.{◌≡◌, ℕ, List};
ghost use Rattle.protox_ast.specs.declared.ast.File.{File};
ghost use Rattle.protox_descriptor.specs.declared.descriptor.FileDescriptorProto as descriptor;
ghost use Rattle.protox_fault.specs.declared.error.ParseErrorKind.{ParseErrorKind};
ghost use Rattle.protox_parse.specs.Failures.{AreWrongOf};
ghost use Rattle.protox_parse.specs.FaultLists.{AreListedOf, HasAllOf};
ghost use Rattle.protox_parse.specs.Files.{IsTranslation};
ghost use Rattle.protox_parse.specs.FirstFault.{IsFirstOfSource};
ghost use Rattle.protox_parse.specs.Truth.{IsTrueOfSource};
ghost use Rattle.protox_parse.specs.declared.failure.ParseFailure.{ParseFailure};

/// A source has at most one translation under a name.
pub fn one_translation()
    ensures { (name source : List ℕ) (d e : descriptor.FileDescriptorProto) → IsTranslation name source d → IsTranslation name source e → d ≡ e }
{}

/// The first fault of a source is true of the source.
#[tactic(auto, using(crate::proofs::AnswerLaws::first_faults_are_true))]
pub fn first_faults_are_true()
    ensures { (source : List ℕ) (wrong : ParseErrorKind) → IsFirstOfSource source wrong → IsTrueOfSource source wrong }
{}

/// If the faults of a refusal are those of a syntax tree in order, each is wrong of the tree, and
/// each that is wrong of the tree is among them.
#[tactic(auto, using(crate::proofs::AnswerLaws::each_is_wrong, crate::proofs::AnswerLaws::all_are_listed))]
pub fn checked_faults_are_all()
    ensures wrong { (file : File) (failure : ParseFailure) → AreListedOf file failure → AreWrongOf file failure }
    ensures all { (file : File) (failure : ParseFailure) → AreListedOf file failure → HasAllOf file failure }
{}
