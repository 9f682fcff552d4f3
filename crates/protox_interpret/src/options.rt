//! The statements of an options message, one behind the other.

ghost use Rattle.std.specs.Prelude.{◌≡◌, List, IfErr, IfOk, OnOk, map};
ghost use Rattle.protox_interpret.specs.Answers.{IsAnswer, NeverBoth, path_seen, path_set};
ghost use Rattle.protox_interpret.specs.Failure.{IfFault};
ghost use Rattle.protox_interpret.specs.Settings.{Setting as ASetting, options_bytes};
ghost use Rattle.protox_interpret.specs.Statements.{AreSet, IsFirstFault};
ghost use Rattle.protox_interpret.specs.inner.Given.{IsNotSet, IsSetBy};
ghost use Rattle.protox_interpret.specs.inner.Kept.{AreKept, IsAdded};
ghost use Rattle.protox_set_paths.specs.Paths.{is_set};

use crate::fault::{InterpretFailure, Refusal, StatementFault};
use crate::site::{Interpreted, Site};
use crate::statement::setting_of;
use crate::work::Work;
use protox_descriptor::descriptor::UninterpretedOption;
use protox_message_bytes::in_order;
use std::alloc::{AllocError, Global};

// Takes a statement.
fn take(
    alloc: Global,
    here: Site<'_>,
    work: &mut Work,
    statement: &UninterpretedOption,
) -> Result<(), Refusal>
    ensures ok { OnOk result ((setting : ASetting)
        × IsSetBy here.entry (is_set work.old.set) statement.now setting
        × IsAdded work.old setting work.new) }
    ensures err { IfErr result (IsNotSet here.entry (is_set work.old.set) statement.now) }
{
    match setting_of(alloc, here, &work.set, statement) {
        Ok(setting) => match work.add(alloc, setting) {
            Ok(()) => Ok(()),
            Err(_) => Err(Refusal::OutOfMemory),
        },
        Err(refusal) => Err(refusal),
    }
}

// Takes all statements.
fn take_all(
    alloc: Global,
    here: Site<'_>,
    statements: &[UninterpretedOption],
) -> Result<Work, InterpretFailure>
    ensures ok { IfOk result (λ work. (settings : List ASetting)
        × AreSet here.entry statements.now settings × AreKept work settings) }
    ensures err { IfErr result (λ failure. IfFault failure
        (IsFirstFault here.entry statements.now)) }
{
    let mut work = Work::new(alloc);
    for (index, statement) in statements.iter().enumerate() {
        match take(alloc, here, &mut work, statement) {
            Ok(()) => {}
            Err(Refusal::Fault(kind)) => {
                return Err(InterpretFailure::Fault(StatementFault { index, kind }));
            }
            Err(Refusal::OutOfMemory) => return Err(InterpretFailure::OutOfMemory),
        }
    }
    Ok(work)
}

// The bytes of the options message, and the paths.
fn finish(alloc: Global, work: Work) -> Result<Interpreted, AllocError>
    ensures { (settings : List ASetting) → AreKept work settings
        → IfOk result (λ answer. (answer.bytes.items ≡ options_bytes settings)
        × (map path_seen answer.paths.items ≡ map path_set settings)) }
{
    let mut standard = work.standard;
    let mut bytes = in_order(alloc, &mut standard)?;
    bytes.extend_from_slice(work.custom.as_slice())?;
    Ok(Interpreted {
        bytes,
        paths: work.paths,
    })
}

/// What the statements of an options message set, in bytes.
///
/// Each name leads to a field of the options message, or to one inside of it, and each value is one
/// of the field's type. A field that isn't repeated is set once, and not behind a field inside of
/// it. Fields that are no extensions stand first, in the order of their numbers. Extensions stand
/// behind them, in the order of the statements.
///
/// # Errors
/// `Fault` with the first statement that is wrong. `OutOfMemory` where memory runs out.
pub fn interpret(
    alloc: Global,
    here: Site<'_>,
    statements: &[UninterpretedOption],
) -> Result<Interpreted, InterpretFailure>
    ensures set { IfOk result (IsAnswer here.entry statements.now) }
    ensures first { IfErr result (λ failure. IfFault failure
        (IsFirstFault here.entry statements.now)) }
    // One of the two is so, whatever is answered.
    ensures one { NeverBoth here.entry statements.now }
{
    match take_all(alloc, here, statements) {
        Ok(work) => match finish(alloc, work) {
            Ok(answer) => Ok(answer),
            Err(_) => Err(InterpretFailure::OutOfMemory),
        },
        Err(failure) => Err(failure),
    }
}
