//! What comes of a search in one scope.

/// What comes of a search in one scope.
#[derive(Clone, Copy)]
pub enum Step<Thing> {
    /// The search ends, with what it found.
    Ends(Option<Thing>),
    /// The next scope outwards is searched.
    GoesOn,
}
