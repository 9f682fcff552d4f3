//! The laws for the marks in use: none, and places.
ghost use Rattle.protox_grammar.specs.Grammar as grammar;
ghost use Rattle.protox_grammar.specs.TagLaws as tags;
ghost use Rattle.protox_grammar.specs.OneOfThree as three;
ghost use Rattle.protox_fault.specs.Faults.{Span};

use protox_grammar::{
    accepts, ended, one_of_three, one_tree, tags_change_nothing, too_deep, unexpected,
};

fn without_marks()
    ensures one_tree { grammar.OneTree (Unit {0}) }
    ensures one_of_three { three.OneOfThree (Unit {0}) }
    ensures accepts { grammar.AcceptsIff (Unit {0}) }
    ensures unexpected { grammar.TightUnexpected (Unit {0}) }
    ensures too_deep { grammar.TightDeep (Unit {0}) }
    ensures ended { grammar.TightEnd (Unit {0}) }
{
    one_tree(&());
    one_of_three(&());
    accepts(&());
    unexpected(&());
    too_deep(&());
    ended(&());
}

fn with_places()
    ensures one_tree { grammar.OneTree Span }
    ensures one_of_three { three.OneOfThree Span }
    ensures accepts { grammar.AcceptsIff Span }
    ensures unexpected { grammar.TightUnexpected Span }
    ensures too_deep { grammar.TightDeep Span }
    ensures ended { grammar.TightEnd Span }
{
    let place = 0usize..0;
    one_tree(&place);
    one_of_three(&place);
    accepts(&place);
    unexpected(&place);
    too_deep(&place);
    ended(&place);
}

fn with_either()
    ensures outcome { tags.SameOutcome Span (Unit {0}) }
    ensures steps { tags.SameSteps Span (Unit {0}) }
{
    tags_change_nothing(&(0usize..0), &());
}

#[test]
fn laws_at_marks() {
    without_marks();
    with_places();
    with_either();
}
