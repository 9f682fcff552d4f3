//! Lines where errors go.

ghost use Rattle.std.specs.Prelude.{◌≡◌};
ghost use Rattle.protoparse_run.specs.declared.tally.Outcome.TheVariants.{Failed};

use crate::tally::Outcome;
use protox_report::shown::push_shown;
use std::alloc::{AllocError, Global};
use std::io::{self, Write};

/// The line that says that memory ran out.
pub const OUT_OF_MEMORY: &str = "protoparse: out of memory\n";

// A line in one piece, which shows the file's name.
fn push_complaint(
    alloc: Global,
    line: &mut String,
    name: &str,
    why: &str,
) -> Result<(), AllocError> {
    line.push_str("protoparse: ")?;
    push_shown(alloc, line, name)?;
    line.push_str(": ")?;
    push_shown(alloc, line, why)?;
    line.push_str("\n")
}

/// Writes a text where errors go. Where that can't be written, nothing more is.
pub fn say<E: Write>(err: &mut E, text: &str) {
    match err.write_all(text.as_bytes()) {
        Ok(()) => (),
        Err(_) => (),
    }
}

/// Says why nothing comes of a file.
pub fn complain<E: Write>(alloc: Global, err: &mut E, name: &str, why: &str) -> Outcome
    ensures { result ≡ Failed }
{
    let mut line = String::new(alloc);
    match push_complaint(alloc, &mut line, name, why) {
        Ok(()) => say(err, line.as_str()),
        Err(_) => say(err, OUT_OF_MEMORY),
    }
    Outcome::Failed
}

/// Says why a file can't be read.
pub fn unread<E: Write>(alloc: Global, err: &mut E, name: &str, error: &io::Error) -> Outcome
    ensures { result ≡ Failed }
{
    if error.kind() == io::ErrorKind::OutOfMemory {
        return complain(alloc, err, name, "out of memory");
    }
    match format!(in alloc; "cannot be read: {error}") {
        Ok(why) => complain(alloc, err, name, why.as_str()),
        Err(_) => complain(alloc, err, name, "out of memory"),
    }
}

/// Says why the words ask for nothing that can be done, and answers the status.
pub fn misused<E: Write>(alloc: Global, err: &mut E, word: &str, why: &str) -> u8
    ensures { result ≡ 2 }
{
    let _ = complain(alloc, err, word, why);
    2
}

/// Says why nothing more is written, and answers the status.
pub fn broken<E: Write>(err: &mut E, error: &io::Error) -> u8
    ensures { result ≡ 2 }
{
    if error.kind() == io::ErrorKind::OutOfMemory {
        say(err, OUT_OF_MEMORY);
        return 2;
    }
    match writeln!(err, "protoparse: cannot write: {error}") {
        Ok(()) => 2,
        Err(_) => 2,
    }
}

/// Says why the words can't be read, and answers the status.
pub fn wordless<E: Write>(err: &mut E, error: &io::Error) -> u8
    ensures { result ≡ 2 }
{
    if error.kind() == io::ErrorKind::OutOfMemory {
        say(err, OUT_OF_MEMORY);
        return 2;
    }
    say(err, "protoparse: a word is not UTF-8\n");
    2
}
