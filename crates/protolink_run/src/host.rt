//! Where files are read and written.

ghost use Rattle.std.specs.Prelude.{⊤, ℕ, List, IfOk};

use std::io::{self, ErrorKind};

/// Where files are read and written.
pub trait Host {
    /// Under this path it may give these bytes. By default that is not known.
    ghost holds: { Self → List ℕ → List ℕ → Type 0 } = { λ _ _ _. ⊤ };

    /// Whether there is something of this path. An error says that memory ran out.
    fn exists(&self, path: &str) -> io::Result<bool>;

    /// Whether it is a folder. An error says that memory ran out.
    fn is_folder(&self, path: &str) -> io::Result<bool>;

    /// The path of the program itself, if it is known.
    fn program(&self) -> Option<&str>;

    /// The bytes of the file of this path.
    fn read(&self, path: &str) -> io::Result<Vec<u8>>
        ensures { IfOk result (λ bytes. holds self.now path.now bytes.items) };

    /// Makes a file of this path, which has these bytes. If it can't be written whole, what was
    /// there before stays.
    fn write(&self, path: &str, bytes: &[u8]) -> io::Result<()>;
}

/// Whether the error says that memory ran out.
pub(crate) fn is_want(error: &io::Error) -> bool {
    error.kind() == ErrorKind::OutOfMemory
}
