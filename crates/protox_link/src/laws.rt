//! Laws of linking. Each is a function that does nothing. Its contract is the law.

ghost use Rattle.protox_link.specs.Laws.{DeclaredOnce, KnownAgain, LinkedAgain, Local};
ghost use Rattle.protox_link.specs.Laws.{OneLinking, OneListOfFaults, OnlyWhereWrong, WrongAgrees};

/// Files have one list of faults, and linking makes one list of files of them. So the answer of
/// `link` is the only one that its contract allows, but for circles of imports and want of memory.
pub fn one_answer()
    ensures faults { OneListOfFaults }
    ensures linked { OneLinking }
{}

/// The list of faults and the relation `WrongLink` agree: what stands in the list is wrong with the
/// files, and all that is wrong with them stands there. The relation has a line for each kind of
/// fault, and says nothing of how the list is made.
pub fn faults_are_wrong_links()
    ensures { WrongAgrees }
{}

/// Files of which nothing is wrong, and which have an order in which imports come first, are linked,
/// or memory ran out.
pub fn only_where_wrong()
    ensures { OnlyWhereWrong }
{}

/// In linked files each full name is declared once, but for packages. So a name in them, which is a
/// full name, says what it stands for by itself.
pub fn declared_once()
    ensures { DeclaredOnce }
{}

/// Linking linked files changes nothing. What is known of them is what was known of the given files,
/// so a `Resolver` of either answers the same.
pub fn linked_again()
    ensures linked { LinkedAgain }
    ensures known { KnownAgain }
{}

/// Files with which nothing is wrong are linked the same whatever files stand behind them.
pub fn local()
    ensures { Local }
{}
