//! Lists of faults.
ghost use Rattle.std.specs.Prelude.{◌≡◌, ◌∷◌, ◌++◌, [], IfOk, OnOk, OnErr, IsOk};
ghost use Rattle.protox_fault.specs.Faults.{faults_in};

use crate::lexeme_fault::LexemeFault;
use protox_fault::error::ParseErrorKind;
use std::alloc::{AllocError, Global};

// Appends the fault as it is reported, if it counts in this mode.
fn tell_one(
    alloc: Global,
    told: &mut Vec<ParseErrorKind>,
    fault: &LexemeFault,
    text_format: bool,
) -> Result<(), AllocError>
    ensures ok { OnOk result (told.new.items ≡ told.old.items ++ faults_in text_format (fault.now ∷ [])) }
    ensures free { faults_in text_format (fault.now ∷ []) ≡ [] → IsOk result }
{
    if text_format && fault.is_of_mode() {
        return Ok(());
    }
    told.push(fault.told(alloc)?)?;
    Ok(())
}

// Those faults that count in this mode, as they are reported.
#[tactic(auto, using(crate::proofs::Modes::faults_in_step, crate::proofs::Modes::none_in_step))]
fn told(
    alloc: Global,
    faults: &[LexemeFault],
    text_format: bool,
) -> Result<Vec<ParseErrorKind>, AllocError>
    ensures value { IfOk result (λ told. told.items ≡ faults_in text_format faults.now) }
    ensures free { faults_in text_format faults.now ≡ [] → IsOk result }
{
    let mut told = Vec::new(alloc);
    'faults: for fault in faults {
        tell_one(alloc, &mut told, fault, text_format)?;
    }
    Ok(told)
}

/// Appends those faults that count in this mode, as they are reported. On `AllocError` the list is
/// unchanged.
pub fn tell(
    alloc: Global,
    errors: &mut Vec<ParseErrorKind>,
    faults: &[LexemeFault],
    text_format: bool,
) -> Result<(), AllocError>
    ensures ok { OnOk result (errors.new.items ≡ errors.old.items ++ faults_in text_format faults.now) }
    ensures err { OnErr result (errors.new.items ≡ errors.old.items) }
    ensures free { faults_in text_format faults.now ≡ [] → IsOk result }
{
    let mut told = told(alloc, faults, text_format)?;
    // A single comment may have millions of faults: they are not copied.
    if errors.is_empty() && errors.capacity() < told.len() {
        *errors = told;
    } else if !told.is_empty() {
        errors.append(&mut told)?;
    }
    Ok(())
}

/// Appends faults. On `AllocError` the list is unchanged.
pub(crate) fn append(
    faults: &mut Vec<LexemeFault>,
    mut more: Vec<LexemeFault>,
) -> Result<(), AllocError>
    ensures ok { OnOk result (faults.new.items ≡ faults.old.items ++ more.items) }
    ensures err { OnErr result (faults.new.items ≡ faults.old.items) }
    ensures free { more.items ≡ [] → IsOk result }
{
    if !more.is_empty() {
        faults.append(&mut more)?;
    }
    Ok(())
}
