//! The words of the program `protolink`: what they ask for. They are protoc's words.
#![tactic(auto)]

ghost use Rattle.std.specs.Prelude.{◌≡◌, ◌≢◌, ◌++◌, ◌∷◌, ◌<◌, [], ℕ, List, None, All, length, MatchBool, IfOk, IfSome, OnOk, map, string_bytes};
ghost use Rattle.protolink_words.specs.Asking.{HasFiles, IsName, IsNameWord, IsPlain, IsPlainWork, names_of};
ghost use Rattle.protolink_words.specs.declared.Taken.TheVariants.{More};

mod flags;
mod wrong;

use crate::flags::{Flag, flag_of, takes_value};
pub use crate::wrong::Wrong;
use std::alloc::{AllocError, Global};

/// A folder in which files are looked for.
#[derive(Clone, Copy)]
pub struct Folder<'a> {
    /// What their names have in front: nothing, or a name and a slash behind it.
    pub name: &'a str,
    /// Where the folder is.
    pub path: &'a str,
}

/// How a fault is printed.
#[derive(Clone, Copy, PartialEq, Debug)]
pub enum Format {
    /// `FILE:LINE:COLUMN: TEXT`, and then the line of the source, with marks under the place
    Report,
    /// `FILE:LINE:COLUMN: TEXT`
    Gcc,
    /// `FILE(LINE) : error in column=COLUMN: TEXT`
    Msvs,
}

/// Work on files.
#[derive(Drop)]
pub struct Work<'a> {
    /// The files, in order.
    pub files: Vec<&'a str>,
    /// The folders, in order. With none, it is the current one.
    pub folders: Vec<Folder<'a>>,
    /// The name of the set of descriptors, if one is asked for.
    pub set: Option<&'a str>,
    /// The name of the file that lists what the set was made of, if one is asked for.
    pub dependencies: Option<&'a str>,
    /// Whether the set has all that the files import, too.
    pub imports: bool,
    /// Whether the set has places and comments.
    pub source_info: bool,
    /// How faults are printed.
    pub format: Format,
    /// Whether a warning makes the work fail.
    pub fatal_warnings: bool,
}

/// What the words ask for.
#[derive(Drop)]
pub enum Asked<'a> {
    Help,
    Version,
    Work(Work<'a>),
    /// They ask for nothing that can be done.
    Wrong(Wrong<'a>),
}

// What comes of one word, or of an option with its value.
#[derive(Drop)]
enum Taken<'a> {
    More,
    Help,
    Version,
    Wrong(Wrong<'a>),
}

impl Taken<'_> {
    // Whether the next word is to be taken.
    fn is_more(&self) -> bool
        ensures { MatchBool result (self.now ≡ More) (self.now ≢ More) }
    {
        match self {
            Taken::More => true,
            _ => false,
        }
    }
}

// Adds the folders that a value lists, with colons between them.
fn add_folders<'a>(work: &mut Work<'a>, value: &'a str) -> Result<Taken<'a>, AllocError> {
    for part in value.split(':') {
        if part.is_empty() {
            continue;
        }
        let (name, path) = part.split_once('=').unwrap_or(("", part));
        if path.is_empty() {
            return Ok(Taken::Wrong(Wrong::EmptyFolder));
        }
        work.folders.push(Folder { name, path })?;
    }
    Ok(Taken::More)
}

// Sets what may be set once.
fn set_once<'a>(old: &mut Option<&'a str>, option: &'a str, value: &'a str) -> Taken<'a> {
    if old.is_some() {
        return Taken::Wrong(Wrong::Twice(option));
    }
    if value.is_empty() {
        return Taken::Wrong(Wrong::EmptyValue(option));
    }
    *old = Some(value);
    Taken::More
}

// Notes what may be said once.
fn say_once<'a>(said: &mut bool, option: &'a str) -> Taken<'a> {
    if *said {
        return Taken::Wrong(Wrong::Twice(option));
    }
    *said = true;
    Taken::More
}

fn set_format<'a>(work: &mut Work<'a>, value: &'a str) -> Taken<'a> {
    match value {
        "gcc" => work.format = Format::Gcc,
        "msvs" => work.format = Format::Msvs,
        _ => return Taken::Wrong(Wrong::Format(value)),
    }
    Taken::More
}

// Takes an option with its value. That of an option without one is empty.
fn take_option<'a>(
    work: &mut Work<'a>,
    option: &'a str,
    value: &'a str,
) -> Result<Taken<'a>, AllocError> {
    let taken = match flag_of(option) {
        Flag::Folders => add_folders(work, value)?,
        Flag::Set => set_once(&mut work.set, option, value),
        Flag::Dependencies => set_once(&mut work.dependencies, option, value),
        Flag::Imports => say_once(&mut work.imports, option),
        Flag::SourceInfo => say_once(&mut work.source_info, option),
        Flag::FatalWarnings => say_once(&mut work.fatal_warnings, option),
        Flag::Format => set_format(work, value),
        Flag::Ignored => Taken::More,
        Flag::Help => Taken::Help,
        Flag::Version => Taken::Version,
        Flag::Unknown => Taken::Wrong(Wrong::Unknown(option)),
    };
    Ok(taken)
}

// The option and the value that are in one word. `-` alone is a file, as for protoc.
fn cut(word: &str) -> (&str, Option<&str>) {
    if word.starts_with("--") {
        return match word.split_once('=') {
            Some((option, value)) => (option, Some(value)),
            None => (word, None),
        };
    }
    for option in ["-I", "-o", "-h"] {
        if let Some(value) = word.strip_prefix(option) {
            let value = if value.is_empty() { None } else { Some(value) };
            return (option, value);
        }
    }
    (word, None)
}

// Takes a word that no option waits for. If an option needs the next word, it waits.
fn take_word<'a>(
    work: &mut Work<'a>,
    waits: &mut Option<&'a str>,
    word: &'a str,
) -> Result<Taken<'a>, AllocError>
    ensures more { IsName word.now → IfOk result (λ taken. taken ≡ More) }
    ensures waits { IsName word.now → OnOk result (waits.new ≡ waits.old) }
    ensures plain { (names : List (List ℕ)) → IsName word.now → IsPlain names work.old
        → OnOk result (IsPlain (names ++ word.now ∷ []) work.new) }
{
    if word.is_empty() {
        return Ok(Taken::Wrong(Wrong::EmptyWord));
    }
    if !word.starts_with('-') || word == "-" {
        work.files.push(word)?;
        return Ok(Taken::More);
    }
    let (option, value) = cut(word);
    match value {
        Some(value) => take_option(work, option, value),
        None if takes_value(option) => {
            *waits = Some(option);
            Ok(Taken::More)
        }
        None => take_option(work, option, ""),
    }
}

// What is wrong with the words as a whole, if anything is.
fn wrong_work<'a>(work: &Work<'a>) -> Option<Wrong<'a>>
    ensures plain { (names : List (List ℕ)) → IsPlain names work.now → IfSome result (λ wrong. names ≡ []) }
    ensures some { result ≡ None → 0 < length work.now.files.items }
{
    if work.files.is_empty() {
        return Some(Wrong::NoFile);
    }
    if work.set.is_none() && work.dependencies.is_some() {
        return Some(Wrong::NoSet);
    }
    if work.dependencies.is_some() && work.files.len() > 1 {
        return Some(Wrong::SeveralFiles);
    }
    None
}

fn no_work<'a>(alloc: Global) -> Work<'a>
    ensures { IsPlain [] result }
{
    Work {
        files: Vec::new(alloc),
        folders: Vec::new(alloc),
        set: None,
        dependencies: None,
        imports: false,
        source_info: false,
        format: Format::Report,
        fatal_warnings: false,
    }
}

// What the work is asked for, once all words are taken.
fn ended<'a>(work: Work<'a>, waits: Option<&'a str>) -> Asked<'a>
    ensures plain { (names : List (List ℕ)) → waits.entry ≡ None → IsPlain names work.entry
        → IsPlainWork names result }
    ensures some { HasFiles result }
{
    if let Some(option) = waits {
        return Asked::Wrong(Wrong::NoValue(option));
    }
    match wrong_work(&work) {
        Some(wrong) => Asked::Wrong(wrong),
        None => Asked::Work(work),
    }
}

// Takes a word. An option that waits for it gets it.
fn take_next<'a>(
    work: &mut Work<'a>,
    waits: &mut Option<&'a str>,
    word: &'a str,
) -> Result<Taken<'a>, AllocError>
    ensures more { IsName word.now → waits.old ≡ None → IfOk result (λ taken. taken ≡ More) }
    ensures waits { IsName word.now → waits.old ≡ None → OnOk result (waits.new ≡ None) }
    ensures plain { (names : List (List ℕ)) → IsName word.now → waits.old ≡ None
        → IsPlain names work.old → OnOk result (IsPlain (names ++ word.now ∷ []) work.new) }
{
    let Some(option) = waits.take() else {
        return take_word(work, waits, word);
    };
    if word.starts_with('-') {
        return Ok(Taken::Wrong(Wrong::NoValue(option)));
    }
    take_option(work, option, word)
}

// Takes the words, up to one that says what is to be done, or with which something is wrong.
fn take_all<'a>(
    work: &mut Work<'a>,
    waits: &mut Option<&'a str>,
    words: &'a [String],
) -> Result<Taken<'a>, AllocError>
    requires { waits.old ≡ None }
    ensures more { All IsNameWord words.now → IfOk result (λ taken. taken ≡ More) }
    ensures waits { All IsNameWord words.now → OnOk result (waits.new ≡ None) }
    ensures plain { All IsNameWord words.now → IsPlain [] work.old
        → OnOk result (IsPlain (map string_bytes words.now) work.new) }
{
    for word in words {
        let taken = take_next(work, waits, word.as_str())?;
        if !taken.is_more() {
            return Ok(taken);
        }
    }
    Ok(Taken::More)
}

/// What the words ask for.
///
/// # Errors
/// `AllocError` where memory runs out.
pub fn asked_by(alloc: Global, words: &[String]) -> Result<Asked<'_>, AllocError>
    // Where each word is a file's name, these files are to be linked, and nothing is written.
    ensures names { All IsNameWord words.now → IfOk result (IsPlainWork (map string_bytes words.now)) }
    // So where there is no word, something is wrong.
    ensures some { IfOk result HasFiles }
{
    let mut work = no_work(alloc);
    let mut waits: Option<&str> = None;
    match take_all(&mut work, &mut waits, words)? {
        Taken::More => Ok(ended(work, waits)),
        Taken::Help => Ok(Asked::Help),
        Taken::Version => Ok(Asked::Version),
        Taken::Wrong(wrong) => Ok(Asked::Wrong(wrong)),
    }
}
