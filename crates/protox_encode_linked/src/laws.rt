//! Laws of linked files on the wire. Each is a function that does nothing. Its contract is the law.

ghost use Rattle.protox_encode_linked.specs.Statements.{NothingIsAdded};

/// Where nothing is set, a file without statements of options has the bytes that `encode` of
/// `protox_encode` gives.
#[tactic(auto, using(crate::proofs::Unset::nothing_is_added))]
pub fn nothing_is_added()
    ensures { NothingIsAdded }
{}
