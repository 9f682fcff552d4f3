//! Nodes, each with a number, and found by the place that they are in and their own name.

ghost use Rattle.std.specs.Prelude.{◌≡◌, ◌↔◌, ◌++◌, ◌∷◌, [], ℕ, Some, IfOk, OnErr, map, length};
ghost use Rattle.std.specs.List.{slice_get};
ghost use Rattle.protox_name_tree.specs.Keys.{key_of};
ghost use Rattle.protox_name_tree.specs.Slots.{mixed_key};

use crate::slots::Slots;
use crate::sought::Sought;
use protox_scopes::Kind;
use std::alloc::{AllocError, Global};
use std::collections::BTreeMap;
use std::marker::Model;

/// A node: what it is in, the number of its own name, and its kind.
#[derive(Clone, Copy)]
pub(crate) struct Node {
    pub(crate) place: Option<usize>,
    pub(crate) name: usize,
    pub(crate) kind: Kind,
}

// How a node is found: by what it is in, and the number of its own name.
type Key = (Option<usize>, usize);

fn mixed_key(key: Key) -> u64
    ensures { result ≡ mixed_key key }
{
    let (place, name) = key;
    let low = name as u64 % 4_294_967_296;
    match place {
        None => low,
        Some(place) => place as u64 % 4_294_967_296 * 65_537 + low + 1,
    }
}

// A node that is looked for.
#[derive(Drop)]
struct SoughtNode<'a> {
    nodes: &'a [Node],
    key: Key,
}

impl Sought for SoughtNode<'_> {
    ghost use Rattle.std.specs.Prelude.{◌≡◌, Some, map};
    ghost use Rattle.std.specs.List.{slice_get};
    ghost use Rattle.protox_name_tree.specs.Keys.{key_of};

    ghost is_at = { λ s n. slice_get (map key_of s.nodes.now) n ≡ Some s.key };

    fn is_at(&self, number: usize) -> bool {
        match self.nodes.get(number) {
            Some(node) => node.place == self.key.0 && node.name == self.key.1,
            None => false,
        }
    }
}

/// Nodes, of which no two have the same name in the same place.
#[derive(Drop)]
pub(crate) struct Nodes {
    nodes: Vec<Node>,
    slots: Slots,
    elsewhere: BTreeMap<Key, usize>,
    room: usize,
}

impl Model for Nodes {
    ghost use Rattle.std.specs.Prelude.{List, map};
    ghost use Rattle.protox_name_tree.specs.declared.nodes.Node.{Node};
    ghost use Rattle.std.specs.BTreeMap.{get};
    ghost use Rattle.protox_name_tree.specs.Numbered.{IsIndexed};
    ghost use Rattle.protox_name_tree.specs.Slots.{mixed_key};
    ghost use Rattle.protox_name_tree.specs.Keys.{key_cmp, key_of};

    ghost Value = { List Node };

    ghost view = { λ t. t.nodes.items };

    ghost invariant = { λ t. IsIndexed mixed_key t.slots (get key_cmp t.elsewhere) (map key_of t.nodes.items) };
}

impl Nodes {
    /// No nodes. Soon there may be some `room`.
    pub(crate) fn new(alloc: Global, room: usize) -> Nodes
        ensures { result ≡ [] }
    {
        Nodes {
            nodes: Vec::new(alloc),
            slots: Slots::new(alloc),
            elsewhere: BTreeMap::new(alloc),
            room,
        }
    }

    /// How many there are.
    pub(crate) fn len(&self) -> usize
        ensures { result ≡ length self.now }
    {
        self.nodes.len()
    }

    /// The node with a number.
    pub(crate) fn get(&self, number: usize) -> Option<Node>
        ensures { result ≡ slice_get self.now number }
    {
        self.nodes.get(number).copied()
    }

    /// The number of the node with this name in this place, if there is one.
    pub(crate) fn number(&self, place: Option<usize>, name: usize) -> Option<usize>
        ensures { (n : ℕ) → (result ≡ Some n)
            ↔ (slice_get (map key_of self.now) n ≡ Some (place, name)) }
    {
        let key = (place, name);
        let nodes = self.nodes.as_slice();
        let sought = SoughtNode { nodes, key };
        match self.slots.search(mixed_key(key), &sought) {
            Some(number) => Some(number),
            None => self.elsewhere.get(&key).copied(),
        }
    }

    /// Adds a node.
    ///
    /// # Errors
    /// `AllocError` where memory runs out. Nothing is added then.
    pub(crate) fn push(&mut self, alloc: Global, node: Node) -> Result<usize, AllocError>
        requires { (n : ℕ) → slice_get (map key_of self.old) n ≡ Some (key_of node) → ⊥ }
        ensures ok { IfOk result (λ n. (n ≡ length self.old) × (self.new ≡ self.old ++ node ∷ [])) }
        ensures err { OnErr result (self.new ≡ self.old) }
    {
        let number = self.nodes.len();
        self.nodes.reserve(1)?;
        let key = (node.place, node.name);
        self.slots.open(alloc, self.room)?;
        if !self.slots.put(mixed_key(key), number) {
            self.elsewhere.insert(key, number)?;
        }
        self.nodes.push_reserved(node);
        Ok(number)
    }
}
