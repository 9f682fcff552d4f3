//! Laws of the places of a file where statements stand. Each is a function that does nothing. Its
//! contract is the law.

ghost use Rattle.protox_file_options.specs.Laws.{PathsDiffer};

/// No two places of a file have the same path. So the bytes of one options message never stand in
/// place of those of another.
#[tactic(auto, using(crate::proofs::Paths::paths_differ))]
pub fn paths_differ()
    ensures { PathsDiffer }
{}
