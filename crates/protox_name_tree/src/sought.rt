//! What is looked for.

ghost use Rattle.std.specs.Prelude.{◌≡◌, ℕ, true};

/// What is looked for among things that have numbers.
pub(crate) trait Sought {
    /// What has a number is it.
    ghost is_at: { Self → ℕ → Type 0 };

    /// Whether what has a number is it.
    fn is_at(&self, number: usize) -> bool
        ensures yes { result ≡ true → is_at self.now number }
        ensures no { is_at self.now number → result ≡ true };
}
