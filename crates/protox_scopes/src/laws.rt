//! Laws of the scoping rule. They are for proofs: none of these functions does anything.

ghost use Rattle.protox_scopes.specs.Laws.{DotIsSafe, NumbersDontMatter};
ghost use Rattle.protox_scopes.specs.Laws.{OneMeaning, ResolveIsMeaning};

/// A name stands for one thing at most.
pub fn one_meaning()
    ensures { OneMeaning }
{}

/// `resolve` finds just what the name stands for.
pub fn resolve_is_meaning()
    ensures { ResolveIsMeaning }
{}

/// A name that begins with a dot stands for the same, whoever uses it.
pub fn dot_is_safe()
    ensures { DotIsSafe }
{}

/// What a name stands for doesn't depend on how things are numbered.
pub fn numbers_dont_matter()
    ensures { NumbersDontMatter }
{}
