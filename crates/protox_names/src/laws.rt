//! Laws of names. They are for proofs: none of these functions does anything.

ghost use Rattle.protox_names.specs.Tree.{PartsFindFullNames};
ghost use Rattle.protox_names.specs.Unique.{FullNamesDiffer, NamesDiffer, ScopesNest};
ghost use Rattle.protox_names.specs.Unique.{OneMorePart, OnePartIsTheFront, ScopeComesFirst};
ghost use Rattle.protox_names.specs.Unique.{PartsHaveNoDots, PartsMakeTheName, PiecesAreTheParts};
ghost use Rattle.protox_names.specs.Unique.{IdentifiersAreOnePart, ScopesAreShorter, ScopesEnd, ScopesGoOutwards};

/// A name has one list of parts, and parts without dots make one name.
#[tactic(auto, using(crate::proofs::Joining::unique))]
pub fn names_join_and_split()
    ensures name { PartsMakeTheName }
    ensures no_dots { PartsHaveNoDots }
    ensures pieces { PiecesAreTheParts }
    ensures one_more { OneMorePart }
    ensures scope { ScopeComesFirst }
    ensures alone { OnePartIsTheFront }
{}

/// A full name tells the scope and the name, unless the name has a dot.
#[tactic(auto, using(crate::proofs::Joining::unique))]
pub fn full_names_differ()
    ensures in_one_scope { NamesDiffer }
    ensures in_all_scopes { FullNamesDiffer }
    ensures nested { ScopesNest }
{}

/// The scopes around what has a full name are the one that it stands in, and those around that.
#[tactic(auto, using(crate::proofs::Joining::unique))]
pub fn scopes_go_outwards()
    ensures outwards { ScopesGoOutwards }
    ensures ends { ScopesEnd }
    ensures shorter { ScopesAreShorter }
{}

/// An identifier has no dot.
#[tactic(auto, using(crate::proofs::Joining::unique))]
pub fn identifiers_are_one_part()
    ensures { IdentifiersAreOnePart }
{}

/// In a tree, a walk over the parts of a name finds what has the full name.
pub fn parts_find_full_names()
    ensures { PartsFindFullNames }
{}
