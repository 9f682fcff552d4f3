//! The tree.

ghost use Rattle.std.specs.Prelude.{◌≡◌, ◌↔◌, ◌≤◌, [], true, false, length};
ghost use Rattle.std.specs.Prelude.{IfNone, IfOk, IfSome, IsTrue, OnErr, OnOk};
ghost use Rattle.protox_names.specs.Names as words;
ghost use Rattle.protox_names.specs.Tree.{name_of_place};
ghost use Rattle.protox_scopes.specs.Scopes.{IsOuter};
ghost use Rattle.protox_name_tree.specs.Tree.{IsKnown, IsNameTree, IsPart, name_at, name_in};
ghost use Rattle.protox_name_tree.specs.Tree.{can_stand, kind_at, number_if_stands, number_of};
ghost use Rattle.protox_name_tree.specs.Tree.{with_declared, with_name};

use crate::nodes::{Node, Nodes};
use crate::texts::Texts;
use protox_names::{is_identifier, split_front};
use protox_scopes::Kind;
use std::alloc::{AllocError, Global};
use std::marker::Model;

/// Full names that are made of identifiers, with the scopes around each. Every one has a number,
/// counted from 0 in the order in which they were added, and a kind.
///
/// No full name is kept as a text: a name stands in the scope that it is added to, under its own
/// name. So a long scope with many names costs no more than a short one. A look-up takes as many steps
/// as the name has parts, and each of them looks at a few slots. If someone chooses names that share
/// their slots, each is a search in two ordered maps of all names.
#[derive(Drop)]
pub struct NameTree {
    pub(crate) texts: Texts,
    pub(crate) nodes: Nodes,
}

impl Model for NameTree {
    ghost use Rattle.std.specs.Prelude.{map};
    ghost use Rattle.protox_name_tree.specs.Keys.{key_of, kinds_of, names_of};
    ghost use Rattle.protox_name_tree.specs.Sound.{IsSound};
    ghost use Rattle.protox_name_tree.specs.Tree.{Names};

    ghost Value = { Names };

    ghost view = { λ t. record {
      full_names = names_of t.texts (map key_of t.nodes);
      kinds = kinds_of t.nodes;
    } };

    ghost invariant = { λ t.
        IsSound t.texts (map key_of t.nodes) (names_of t.texts (map key_of t.nodes)) };
}

impl NameTree {
    /// A tree without names.
    pub fn new(alloc: Global) -> NameTree
        ensures { result ≡ record { full_names = []; kinds = [] } }
    {
        NameTree::with_room(alloc, 64)
    }

    /// A tree without names. It is quickest if it gets about as many names as it has `room` for.
    pub fn with_room(alloc: Global, room: usize) -> NameTree
        ensures { result ≡ record { full_names = []; kinds = [] } }
    {
        let texts = Texts::new(alloc, room);
        let nodes = Nodes::new(alloc, room);
        NameTree { texts, nodes }
    }

    /// How many names it has.
    pub fn len(&self) -> usize
        ensures len { result ≡ length self.now.full_names }
        ensures tree { IsNameTree self.now }
    {
        self.nodes.len()
    }

    // The place, or the top if its number is unknown.
    fn known(&self, place: Option<usize>) -> Option<usize>
        ensures tree { IsNameTree self.now }
        ensures known { IsKnown self.now.full_names result }
        ensures name { name_of_place (name_at self.now) result
            ≡ name_of_place (name_at self.now) place }
    {
        let len = self.len();
        match place {
            Some(number) if number < len => place,
            _ => None,
        }
    }

    // What has a name without dots in a place.
    fn child(&self, place: Option<usize>, name: &str) -> Option<usize>
        requires known { IsKnown self.now.full_names place }
        requires one_part { words.is_one_part name.now ≡ true }
        ensures { result ≡ number_of self.now (name_in self.now place name.now) }
    {
        let name = self.texts.number(name)?;
        self.nodes.number(place, name)
    }

    /// Adds a name to a place, with its kind, and returns the number of its full name. With no
    /// number, the place is the nameless scope; so it is if nothing has the number. If the place
    /// has the name already, nothing is added: the number is that of the first, and so is the kind.
    ///
    /// # Errors
    /// `AllocError` where memory runs out. The tree is as it was.
    pub fn add(
        &mut self,
        alloc: Global,
        place: Option<usize>,
        name: &str,
        kind: Kind,
    ) -> Result<usize, AllocError>
        requires { words.is_identifier name.now ≡ true }
        ensures number { IfOk result
            (λ n. number_of self.new (name_in self.old place name.now) ≡ Some n) }
        ensures added { OnOk result
            (self.new ≡ with_name self.old (name_in self.old place name.now) kind) }
        ensures err { OnErr result (self.new ≡ self.old) }
    {
        let place = self.known(place);
        let name = self.texts.add(alloc, name)?;
        if let Some(number) = self.nodes.number(place, name) {
            return Ok(number);
        }
        let number = self.nodes.push(alloc, Node { place, name, kind })?;
        Ok(number)
    }

    // The place and the own name of what has this name in a place, if it can stand in the tree. The
    // name may have several parts.
    fn standing<'a>(&self, place: Option<usize>, name: &'a str) -> Option<(Option<usize>, &'a str)>
        ensures none { IfNone result
            (can_stand self.now (name_in self.now place name.now) ≡ false) }
        ensures unknown { IfNone result
            (number_of self.now (name_in self.now place name.now) ≡ None) }
        ensures some { IfSome result
            (λ x. can_stand self.now (name_in self.now place name.now) ≡ true) }
        ensures own { IfSome result (λ x. words.is_identifier x.1.now ≡ true) }
        ensures name { IfSome result
            (λ x. name_in self.now x.0 x.1.now ≡ name_in self.now place name.now) }
    {
        let place = self.known(place);
        if is_identifier(name) {
            return Some((place, name));
        }
        let (scope, own) = name.rsplit_once('.')?;
        let place = self.find(place, scope)?;
        if is_identifier(own) {
            Some((Some(place), own))
        } else {
            None
        }
    }

    /// Adds what has this name in a place, with its kind, if it can stand there: it ends in an
    /// identifier, and what that stands in has been added, or is the nameless scope. The name may
    /// have several parts. With no number, the place is the nameless scope; so it is if nothing has
    /// the number. It returns the number of the full name, or None if that can't stand in the tree.
    ///
    /// # Errors
    /// `AllocError` where memory runs out. The tree is as it was.
    pub fn declare_in(
        &mut self,
        alloc: Global,
        place: Option<usize>,
        name: &str,
        kind: Kind,
    ) -> Result<Option<usize>, AllocError>
        ensures number { IfOk result (λ n. n
            ≡ number_if_stands self.old self.new (name_in self.old place name.now)) }
        ensures found { IfOk result (λ n. n
            ≡ number_of self.new (name_in self.old place name.now)) }
        ensures declared { OnOk result
            (self.new ≡ with_declared self.old (name_in self.old place name.now) kind) }
        ensures err { OnErr result (self.new ≡ self.old) }
    {
        let Some((place, own)) = self.standing(place, name) else {
            return Ok(None);
        };
        let number = self.add(alloc, place, own, kind)?;
        Ok(Some(number))
    }

    /// Adds a full name, with its kind, if it can stand in the tree: what it ends in is an
    /// identifier, and the scope that it stands in has been added, or is the nameless one. It
    /// returns the number of the full name, or None if that can't stand in the tree.
    ///
    /// # Errors
    /// `AllocError` where memory runs out. The tree is as it was.
    pub fn declare(
        &mut self,
        alloc: Global,
        full_name: &str,
        kind: Kind,
    ) -> Result<Option<usize>, AllocError>
        ensures number { IfOk result
            (λ n. n ≡ number_if_stands self.old self.new full_name.now) }
        ensures declared { OnOk result (self.new ≡ with_declared self.old full_name.now kind) }
        ensures err { OnErr result (self.new ≡ self.old) }
    {
        self.declare_in(alloc, None, full_name, kind)
    }

    /// The number of what has this name in a place, if anything has it. The name may have several
    /// parts, with dots between them. With no number, the place is the nameless scope; so it is if
    /// nothing has the number. It takes no memory.
    pub fn find(&self, place: Option<usize>, name: &str) -> Option<usize>
        ensures { result ≡ number_of self.now (name_in self.now place name.now) }
    {
        let mut place = self.known(place);
        let mut rest = name;
        while let Some((part, more)) = split_front(rest) {
            place = Some(self.child(place, part)?);
            rest = more;
        }
        self.child(place, rest)
    }

    /// Whether what has a number stands in this place under this name. Then the name is an
    /// identifier. Nothing stands in a place that the tree doesn't have.
    pub fn is_part(&self, number: usize, place: Option<usize>, name: &str) -> bool
        ensures { IsTrue result ↔ IsPart self.now number place name.now }
    {
        // for the proof: a full name has one number
        let _count = self.len();
        match self.part(number) {
            Some((outer, own)) => outer == place && own == name,
            None => false,
        }
    }

    /// What `find` answers, for one who guesses that `near` is the number. It is quicker where the
    /// guess is right; whatever it is, the answer is the same.
    pub fn find_near(&self, place: Option<usize>, name: &str, near: usize) -> Option<usize>
        ensures { result ≡ number_of self.now (name_in self.now place name.now) }
    {
        // for the proof: a full name has one number
        let _count = self.len();
        if self.is_part(near, place, name) {
            return Some(near);
        }
        self.find(place, name)
    }

    /// The number of what has this name in the scope with this full name, if anything has it. The
    /// nameless scope is the empty text. It takes no memory.
    pub fn find_within(&self, scope: &str, name: &str) -> Option<usize>
        ensures { result ≡ number_of self.now (words.within scope.now name.now) }
    {
        // for the proof: each scope of the tree is in the tree
        let _nodes = &self.nodes;
        if scope.is_empty() {
            return self.find(None, name);
        }
        let place = self.find(None, scope)?;
        self.find(Some(place), name)
    }

    /// The number of the scope that a name stands in. None if that is the nameless scope, or if
    /// nothing has the number.
    pub fn outer(&self, number: usize) -> Option<usize>
        ensures { IsOuter (name_at self.now) number result }
    {
        match self.nodes.get(number) {
            Some(node) => node.place,
            None => None,
        }
    }

    /// The place that a name stands in, and the name in this place. None if nothing has the
    /// number.
    pub fn part(&self, number: usize) -> Option<(Option<usize>, &str)>
        ensures none { IfNone result (length self.now.full_names ≤ number) }
        ensures some { IfSome result (λ part. IsPart self.now number part.0 part.1.now) }
    {
        let node = self.nodes.get(number)?;
        let own = self.texts.get(node.name)?;
        Some((node.place, own))
    }

    /// The kind of what has a number; that of a member, if nothing has it.
    pub fn kind(&self, number: usize) -> Kind
        ensures { result ≡ kind_at self.now number }
    {
        match self.nodes.get(number) {
            Some(node) => node.kind,
            None => Kind::Member,
        }
    }
}
