//! The laws of the grammar. Each is the contract of a function that does nothing, so that a check
//! of the crate proves it. A law holds for rows with tags of any type that has a value, such as
//! spans or `()`.
#![tactic(auto)]

ghost use Rattle.protox_grammar.specs.Grammar as grammar;
ghost use Rattle.protox_grammar.specs.OneOfThree as three;
ghost use Rattle.protox_grammar.specs.SpanLaws as spans;
ghost use Rattle.protox_grammar.specs.TruthLaws as truth;
ghost use Rattle.protox_grammar.specs.CheckLaws as checks;
ghost use Rattle.protox_grammar.specs.TagLaws as tags;

pub mod note;

/// No rows spell two trees that keep the keyword rules.
pub fn one_tree<M>(_tag: &M)
    ensures { grammar.OneTree M }
{}

/// Rows spell a file, or they end too soon, or one of them is unexpected. Exactly one of the three
/// holds, and at most one row is unexpected.
pub fn one_of_three<M>(_tag: &M)
    ensures { three.OneOfThree M }
{}

/// The reader gives a tree exactly when the rows spell it and it is not too deep.
pub fn accepts<M>(_tag: &M)
    ensures { grammar.AcceptsIff M }
{}

/// If reading stops at a row, some file begins with the rows before it, but none with these and
/// that row.
pub fn unexpected<M>(_tag: &M)
    ensures { grammar.TightUnexpected M }
{}

/// If reading stops at a row that opens something too deep, some file begins with the rows up to
/// it, and each such file is too deep.
pub fn too_deep<M>(_tag: &M)
    ensures { grammar.TightDeep M }
{}

/// If reading stops at the end, some file begins with the rows, but they are not yet a file.
pub fn ended<M>(_tag: &M)
    ensures { grammar.TightEnd M }
{}

/// If reading the tokens of a source stops, the fault there is true of the source.
pub fn stops_are_true()
    ensures token { truth.StopIsTrue }
    ensures end { truth.EndIsTrue }
{}

/// If tokens spell a file, none of them is unexpected, and they don't end too soon.
pub fn spelled_is_expected()
    ensures token { truth.NoneIsUnexpected }
    ensures end { truth.NoneIsEnded }
{}

/// A node that is noted while the tokens of a source are read is a node of some file that begins as
/// the source does. The fault of the node is true of the source.
pub fn noted_is_true()
    ensures node { checks.NotedIsTrue }
    ensures fault { checks.NotedIsTrueOf }
{}

/// Some file begins with the first tokens of a source, and a node that ends with the last of them
/// has a fault. Then such a node is noted by then; or a body that is too deep was opened before.
pub fn none_is_passed_over()
    ensures { checks.NoneIsPassedOver }
{}

/// If a body that is too deep was opened, its fault is noted.
pub fn too_deep_is_noted()
    ensures { checks.TooDeepIsNoted }
{}

/// After the last token of a source, all is noted that reading it notes.
pub fn all_is_noted()
    ensures { checks.AllIsNoted }
{}

/// After some tokens a file may be inside an aggregate exactly when the last brace that was noted
/// opens one.
pub fn insides_are_open()
    ensures inside { checks.InsideIsOpen }
    ensures open { checks.OpenIsInside }
{}

/// Rows of the same shapes are read or refused alike, and the same is noted of them, whatever their
/// tags are.
pub fn tags_change_nothing<M, N>(_tag: &M, _other: &N)
    ensures outcome { tags.SameOutcome M N }
    ensures steps { tags.SameSteps M N }
{}

/// The tokens of a source with their places are the tokens with their numbers, if the place of each
/// number is looked up.
pub fn places_are_looked_up()
    ensures rows { tags.PlacesAreLookedUp }
    ensures span { tags.PlacesHaveSpans }
    ensures bare { tags.SpansAreLeft }
{}

/// Reading the first tokens of a source notes the same, whether they are tagged with places or with
/// numbers.
pub fn places_change_nothing()
    ensures noted { tags.NotedAlike }
    ensures wrong { tags.WrongAlike }
{}

/// The nodes of the syntax tree of a source stand in the source. The parts of a node stand within
/// it, one after another.
pub fn nodes_stand_in_source()
    ensures { spans.NodesStand }
{}
