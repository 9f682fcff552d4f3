//! A name that is looked for in many places.

ghost use Rattle.std.specs.Prelude.{◌≡◌, ℕ, List, true, length};
ghost use Rattle.protox_names.specs.Names as words;
ghost use Rattle.protox_names.specs.Tree.{name_of_place};
ghost use Rattle.protox_name_tree.specs.Tree.{IsKnown, name_at_place, name_in, number_of};

use crate::NameTree;
use crate::nodes::Nodes;
use crate::texts::Texts;
use std::marker::Model;

/// A name without dots that is looked for in many places of a tree. Its text is looked up once, so
/// each place takes one search in place of two.
#[derive(Drop)]
pub struct Word<'a> {
    texts: &'a Texts,
    nodes: &'a Nodes,
    name: &'a str,
    text: Option<usize>,
}

impl<'a> Model for Word<'a> {
    ghost use Rattle.std.specs.Prelude.{◌≡◌, ◌↔◌, ℕ, Some, true, map};
    ghost use Rattle.std.specs.List.{slice_get};
    ghost use Rattle.protox_name_tree.specs.Keys.{key_of, kinds_of, names_of};
    ghost use Rattle.protox_name_tree.specs.Sound.{IsSound};
    ghost use Rattle.protox_name_tree.specs.Word.{Sought};
    ghost use Rattle.protox_names.specs.Names as words;

    ghost Value = { Sought };

    ghost view = { λ w. record {
      tree = record {
        full_names = names_of w.texts.now (map key_of w.nodes.now);
        kinds = kinds_of w.nodes.now;
      };
      name = w.name.now;
    } };

    ghost invariant = { λ w.
        IsSound w.texts.now (map key_of w.nodes.now)
        (names_of w.texts.now (map key_of w.nodes.now))
        × (words.is_one_part w.name.now ≡ true)
        × ((n : ℕ) → (w.text ≡ Some n) ↔ (slice_get w.texts.now n ≡ Some w.name.now)) };
}

impl NameTree {
    /// A name without dots, to look for in many places.
    pub fn word<'a>(&'a self, name: &'a str) -> Word<'a>
        requires { words.is_one_part name.now ≡ true }
        ensures tree { result.tree ≡ self.now }
        ensures name { result.name ≡ name.now }
    {
        Word {
            texts: &self.texts,
            nodes: &self.nodes,
            name,
            text: self.texts.number(name),
        }
    }
}

// The place, or the top if its number is unknown.
fn known(nodes: &Nodes, place: Option<usize>) -> Option<usize>
    ensures known { (names : List (List ℕ)) → length names ≡ length nodes.now
        → IsKnown names result }
    ensures name { (names : List (List ℕ)) → length names ≡ length nodes.now
        → name_of_place (name_at_place names) result ≡ name_of_place (name_at_place names) place }
{
    let count = nodes.len();
    match place {
        Some(number) if number < count => place,
        _ => None,
    }
}

impl Word<'_> {
    /// The number of what has the name in a place, if anything has it. With no number, the place is
    /// the nameless scope; so it is if nothing has the number. It takes no memory.
    pub fn find(&self, place: Option<usize>) -> Option<usize>
        ensures { result ≡ number_of self.now.tree (name_in self.now.tree place self.now.name) }
    {
        let place = known(self.nodes, place);
        let text = self.text?;
        self.nodes.number(place, text)
    }
}
