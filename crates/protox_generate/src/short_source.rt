//! A source within the limit.

ghost use Rattle.std.specs.Prelude.{◌≡◌, ◌≤◌, length};

/// A source of at most 2,147,483,647 bytes.
#[derive(Clone, Copy)]
pub(crate) struct ShortSource<'a> {
    pub text: &'a str,
    ghost fits: { length text.now ≤ 2147483647 },
}

impl<'a> ShortSource<'a> {
    /// This source.
    pub fn new(text: &'a str) -> ShortSource<'a>
        requires { length text.now ≤ 2147483647 }
        ensures { result.text.now ≡ text.now }
    {
        ShortSource { text }
    }
}
