//! The paths that were set, as a tree.

ghost use Rattle.std.specs.Prelude.{◌≡◌, ℕ, [], ◌∷◌, ◌++◌, List, Some, None, ◌||◌};
ghost use Rattle.std.specs.Prelude.{IfErr, IfOk, IfSome, is_some};
ghost use Rattle.protox_set_paths.specs.Paths.{begins_with, is_set, path_of};

use std::alloc::{AllocError, Global};
use std::collections::BTreeMap;
use std::marker::Model;

// A step goes from a place by a number.
type Step = (usize, u32);

/// Paths of field numbers that were set, as a tree: paths that begin alike share their beginnings.
///
/// Each path has a place, which is a number. The empty path, from which all begin, has the place 0.
/// Contracts see a list of the other paths, in the order of their places: each path that was added,
/// and each front of one that isn't empty.
///
/// ```
/// let mut place = 0;
/// for number in path {
///     place = tree.enter(place, *number)?;
/// }
/// if tree.find(place, 7).is_some() {
///     // The field 7 of this message was set already, or one inside of it.
/// } else {
///     tree.enter(place, 7)?;
/// }
/// ```
#[derive(Drop)]
pub struct SetTree {
    // the step to each place but 0
    steps: Vec<Step>,
    // where each step leads
    places: BTreeMap<Step, usize>,
}

impl Model for SetTree {
    ghost use Rattle.std.specs.Prelude.{ℕ, List};
    ghost use Rattle.std.specs.BTreeMap.{get};
    ghost use Rattle.protox_set_paths.specs.inner.Steps.{IsTree, paths_of, step_cmp};

    ghost Value = { List (List ℕ) };

    ghost view = { λ t. paths_of t.steps.items };

    ghost invariant = { λ t. IsTree (get step_cmp t.places) (paths_of t.steps.items) };
}

impl SetTree {
    /// No path. It takes no memory.
    pub fn new(alloc: Global) -> SetTree
        ensures { result ≡ [] }
    {
        SetTree {
            steps: Vec::new(alloc),
            places: BTreeMap::new(alloc),
        }
    }

    /// The place of the path with one number more than that of a place, if it is there. So it is
    /// asked whether that path is set, where the place of its front is known.
    ///
    /// It takes no memory. Some log n of the n steps of the tree are compared with one, whatever
    /// the length of the path. From a place that isn't one of the tree it finds nothing.
    pub fn find(&self, place: usize, number: u32) -> Option<usize>
        ensures place { IfSome result (λ next. (path : List ℕ) → path_of self.now place ≡ Some path
            → path_of self.now next ≡ Some (path ++ number ∷ [])) }
        ensures set { (path : List ℕ) → path_of self.now place ≡ Some path
            → is_some result ≡ is_set self.now (path ++ number ∷ []) }
        ensures elsewhere { path_of self.now place ≡ None → result ≡ None }
    {
        self.places.get(&(place, number)).copied()
    }

    /// Whether a path is set: whether one that was added is equal to it or begins with it. The
    /// empty path is set once any path was added.
    ///
    /// It takes no memory. For each number of the path, some log n of the n steps of the tree are
    /// compared with one.
    pub fn has(&self, path: &[u32]) -> bool
        ensures { result ≡ is_set self.now path.now }
    {
        let mut place = 0;
        for number in path {
            match self.find(place, *number) {
                Some(next) => place = next,
                None => return false,
            }
        }
        !self.steps.is_empty()
    }

    /// Goes from the place of a path to the place of the path with one number more. That path is
    /// added if it isn't there.
    ///
    /// Some log n of the n steps of the tree are compared with one, whatever the length of the
    /// path. A place that isn't one of the tree leads to 0, and nothing is added.
    ///
    /// # Errors
    /// `AllocError` where memory runs out. Nothing is added then.
    pub fn enter(&mut self, place: usize, number: u32) -> Result<usize, AllocError>
        ensures place { IfOk result (λ next. (path : List ℕ) → path_of self.old place ≡ Some path
            → path_of self.new next ≡ Some (path ++ number ∷ [])) }
        ensures kept { IfOk result (λ next. (n : ℕ) (path : List ℕ) → path_of self.old n ≡ Some path
            → path_of self.new n ≡ Some path) }
        ensures set { IfOk result (λ next. (path : List ℕ) → path_of self.old place ≡ Some path
            → (q : List ℕ) → is_set self.new q
            ≡ (begins_with q (path ++ number ∷ []) || is_set self.old q)) }
        ensures elsewhere { IfOk result (λ next. path_of self.old place ≡ None
            → (next ≡ 0) × (self.new ≡ self.old)) }
        ensures err { IfErr result (λ _. self.new ≡ self.old) }
    {
        if place > self.steps.len() {
            return Ok(0);
        }
        if let Some(next) = self.find(place, number) {
            return Ok(next);
        }
        let next = self.steps.len() + 1;
        self.steps.reserve(1)?;
        self.places.insert((place, number), next)?;
        self.steps.push_reserved((place, number));
        Ok(next)
    }
}
