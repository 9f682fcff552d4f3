//! A span of numbers.

/// The numbers from `start` to before `end`. There are none if `end` isn't greater than `start`.
#[derive(Clone, Copy)]
pub struct Span {
    /// The first number.
    pub start: u64,
    /// The number after the last one.
    pub end: u64,
}
