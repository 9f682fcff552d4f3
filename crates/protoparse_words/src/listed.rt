//! The words one by one: options, folders, and files.

ghost use Rattle.std.specs.Prelude.{◌≡◌, ◌≢◌, All, IfOk, length, map, slice_index, string_bytes};
ghost use Rattle.protoparse_words.specs.Asking.{IsName};
ghost use Rattle.protoparse_words.specs.Listing.{IsEmptyList, IsListOf};
ghost use Rattle.protoparse_words.specs.declared.listed.Next.TheVariants.{Any};
ghost use Rattle.protoparse_words.specs.declared.listed.Word.TheVariants.{File as FileWord};

use crate::{How, Mode};
use std::alloc::{AllocError, Global};

/// A file, and how it is handled.
#[derive(Clone, Copy)]
pub struct File<'a> {
    pub path: &'a str,
    pub how: How,
}

/// What the words name.
#[derive(Drop)]
pub struct Listed<'a> {
    pub files: Vec<File<'a>>,
    pub folders: Vec<&'a str>,
    /// The name of the set.
    pub set: Option<&'a str>,
}

/// What the words say.
#[derive(Drop)]
pub enum Said<'a> {
    Help,
    Version,
    Files(Listed<'a>),
    /// This option names no folder.
    NoFolder(&'a str),
    /// There is no such option.
    Unknown(&'a str),
}

// What the next word is.
#[derive(Clone, Copy)]
enum Next<'a> {
    // An option, or a file.
    Any,
    // The folder of this option.
    Folder(&'a str),
    // A file, as each behind it.
    File,
}

// What holds for the words that follow.
#[derive(Clone, Copy)]
struct State<'a> {
    how: How,
    set: Option<&'a str>,
    next: Next<'a>,
}

// What one word is.
enum Word<'a> {
    Help,
    Version,
    // From here on this holds.
    Holds(State<'a>),
    Folder(&'a str),
    File,
    NoFolder(&'a str),
    Unknown,
}

// The folder that an option names.
fn folder_word<'a>(folder: &'a str, option: &'a str) -> Word<'a> {
    if folder.is_empty() {
        Word::NoFolder(option)
    } else {
        Word::Folder(folder)
    }
}

// The folder within a word: `--proto_path=DIR`, `-IDIR` or `-I=DIR`.
fn folder_within(word: &str) -> Option<&str> {
    if let Some(folder) = word.strip_prefix("--proto_path=") {
        return Some(folder);
    }
    match word.strip_prefix("-I") {
        Some(folder) => Some(folder.strip_prefix('=').unwrap_or(folder)),
        None => None,
    }
}

// The option that a word is.
fn option_of<'a>(word: &'a str, state: State<'a>) -> Word<'a> {
    let how = state.how;
    let how = match word {
        "--help" | "-h" => return Word::Help,
        "--version" | "-V" => return Word::Version,
        "--check" => How {
            mode: Mode::Check,
            ..how
        },
        "--outline" => How {
            mode: Mode::Outline,
            ..how
        },
        "--text" => How {
            mode: Mode::Text,
            ..how
        },
        "--no-source-info" => How {
            source_info: false,
            ..how
        },
        "--color" => How { color: true, ..how },
        _ => return Word::Unknown,
    };
    Word::Holds(State { how, ..state })
}

// What the word is, where any may stand.
fn any_word<'a>(word: &'a str, state: State<'a>) -> Word<'a>
    ensures { slice_index word.now 0 ≢ 45 → result ≡ FileWord }
{
    if !word.starts_with('-') || word == "-" {
        return Word::File;
    }
    if let Some(name) = word.strip_prefix("--descriptor-set-out=") {
        let mode = Mode::Set;
        let how = How { mode, ..state.how };
        let set = Some(name);
        return Word::Holds(State { how, set, ..state });
    }
    let next = match word {
        "--" => Next::File,
        "-I" | "--proto_path" => Next::Folder(word),
        _ => Next::Any,
    };
    if let Next::Any = next {
        return match folder_within(word) {
            Some(folder) => folder_word(folder, word),
            None => option_of(word, state),
        };
    }
    Word::Holds(State { next, ..state })
}

// What the word is.
fn word_of<'a>(word: &'a str, state: State<'a>) -> Word<'a>
    ensures { state.entry.next ≡ Any → slice_index word.now 0 ≢ 45 → result ≡ FileWord }
{
    match state.next {
        Next::Any => any_word(word, state),
        Next::File => Word::File,
        Next::Folder(option) if word.starts_with('-') => Word::NoFolder(option),
        Next::Folder(option) => folder_word(word, option),
    }
}

/// What the words say, or `AllocError`. An option holds for the files behind it.
pub fn listed_by(alloc: Global, words: &[String]) -> Result<Said<'_>, AllocError>
    ensures no_word { length words.now ≡ 0 → IfOk result IsEmptyList }
    ensures names { All IsName words.now → IfOk result (IsListOf (map string_bytes words.now)) }
{
    let mut files = Vec::new(alloc);
    let mut folders = Vec::new(alloc);
    let mut state = State {
        how: How {
            mode: Mode::Check,
            source_info: true,
            color: false,
        },
        set: None,
        next: Next::Any,
    };
    for word in words {
        let word = word.as_str();
        match word_of(word, state) {
            Word::Help => return Ok(Said::Help),
            Word::Version => return Ok(Said::Version),
            Word::Holds(new) => state = new,
            Word::Folder(folder) => {
                folders.push(folder)?;
                state.next = Next::Any;
            }
            Word::File => files.push(File {
                path: word,
                how: state.how,
            })?,
            Word::NoFolder(option) => return Ok(Said::NoFolder(option)),
            Word::Unknown => return Ok(Said::Unknown(word)),
        }
    }
    if let Next::Folder(option) = state.next {
        return Ok(Said::NoFolder(option));
    }
    let set = state.set;
    Ok(Said::Files(Listed {
        files,
        folders,
        set,
    }))
}
