//! The words of the program `protoparse`: what they ask for.
#![tactic(auto)]

ghost use Rattle.std.specs.Prelude.{◌≡◌, ◌<◌, [], All, IfOk, IfSome, IfNone, length, map, string_bytes};
ghost use Rattle.protoparse_words.specs.Names.{IsOutside, texts};
ghost use Rattle.protoparse_words.specs.declared.Asked.TheVariants.{Nothing};
ghost use Rattle.protoparse_words.specs.Asking.{AreNamed, IsName, IsNamed, IsWorkOn};
ghost use Rattle.protoparse_words.specs.Listing.{file_path};
ghost use Rattle.protoparse_words.specs.Naming.{IsNaming};

mod listed;
pub mod paths;

use crate::paths::name_in;
use listed::{File, Listed, Said, listed_by};
use std::alloc::{AllocError, Global};

/// What is done with a file that is accepted.
#[derive(Clone, Copy)]
pub enum Mode {
    /// Nothing more: only faults are printed.
    Check,
    /// Its declarations are printed.
    Outline,
    /// Its descriptor is printed, in text format.
    Text,
    /// Its descriptor is one of the set that is written.
    Set,
}

/// How a file is handled.
#[derive(Clone, Copy)]
pub struct How {
    pub mode: Mode,
    /// Whether the text of a descriptor has its locations.
    pub source_info: bool,
    /// Whether faults are printed in colour.
    pub color: bool,
}

/// A file, and how it is handled.
#[derive(Drop)]
pub struct Task<'a> {
    /// The word that names it, under which it is read.
    pub path: &'a str,
    /// Its name in its descriptor.
    pub name: String,
    pub how: How,
}

/// Work on files.
#[derive(Drop)]
pub struct Work<'a> {
    pub tasks: Vec<Task<'a>>,
    /// The folders that the names are relative to. With none, a name is the path.
    pub folders: Vec<&'a str>,
    /// The name of the set of descriptors, if one is asked for.
    pub set: Option<&'a str>,
}

/// What the words ask for.
#[derive(Drop)]
pub enum Asked<'a> {
    Help,
    Version,
    Work(Work<'a>),
    /// No file is named.
    Nothing,
    /// This option names no folder.
    NoFolder(&'a str),
    /// This file lies in none of the folders.
    Outside(&'a str),
    /// There is no such option.
    Unknown(&'a str),
}

// The tasks for the files, or the first of these that has no name.
#[derive(Drop)]
enum Named<'a> {
    Tasks(Vec<Task<'a>>),
    Outside(&'a str),
}

// The name of the file with this path; none where it lies in none of the folders.
fn name_of(alloc: Global, path: &str, folders: &[&str]) -> Result<Option<String>, AllocError>
    ensures found { IfOk result (λ answer. IfSome answer (λ name. IsNamed (texts folders.now) path.now (string_bytes name))) }
    ensures outside { IfOk result (λ answer. IfNone answer ((0 < length folders.now) × All (IsOutside path.now) (texts folders.now))) }
{
    if path == "-" {
        return Ok(Some(String::from_str(alloc, "<stdin>")?));
    }
    if folders.is_empty() {
        return Ok(Some(String::from_str(alloc, path)?));
    }
    name_in(alloc, path, folders)
}

// The tasks for the files, each with its name.
fn tasks_of<'a>(
    alloc: Global,
    files: &[File<'a>],
    folders: &[&str],
) -> Result<Named<'a>, AllocError>
    ensures { IfOk result (IsNaming (texts folders.now) files.now) }
{
    let mut tasks = Vec::new(alloc);
    for file in files {
        let path = file.path;
        let how = file.how;
        match name_of(alloc, path, folders)? {
            Some(name) => tasks.push(Task { path, name, how })?,
            None => return Ok(Named::Outside(path)),
        }
    }
    Ok(Named::Tasks(tasks))
}

// The work on the files that are listed.
fn work_on(alloc: Global, listed: Listed<'_>) -> Result<Asked<'_>, AllocError>
    ensures no_file { listed.entry.files.items ≡ [] → IfOk result (λ asked. asked ≡ Nothing) }
    ensures names { listed.entry.folders.items ≡ [] → IfOk result (IsWorkOn (map file_path listed.entry.files.items)) }
    ensures named { IfOk result AreNamed }
{
    let Listed {
        files,
        folders,
        set,
    } = listed;
    if files.is_empty() {
        return Ok(Asked::Nothing);
    }
    match tasks_of(alloc, files.as_slice(), folders.as_slice()) {
        Ok(Named::Outside(path)) => Ok(Asked::Outside(path)),
        Ok(Named::Tasks(tasks)) => Ok(Asked::Work(Work {
            tasks,
            folders,
            set,
        })),
        Err(error) => Err(error),
    }
}

/// What the words ask for, or `AllocError`. An option holds for the files behind it, but `-I` for
/// all files.
pub fn asked_by(alloc: Global, words: &[String]) -> Result<Asked<'_>, AllocError>
    ensures no_word { length words.now ≡ 0 → IfOk result (λ asked. asked ≡ Nothing) }
    // Where each word is a file's name, work on these files is asked for, and nothing else.
    ensures names { All IsName words.now → IfOk result (IsWorkOn (map string_bytes words.now)) }
    ensures named { IfOk result AreNamed }
{
    match listed_by(alloc, words) {
        Ok(Said::Help) => Ok(Asked::Help),
        Ok(Said::Version) => Ok(Asked::Version),
        Ok(Said::Files(listed)) => work_on(alloc, listed),
        Ok(Said::NoFolder(word)) => Ok(Asked::NoFolder(word)),
        Ok(Said::Unknown(word)) => Ok(Asked::Unknown(word)),
        Err(error) => Err(error),
    }
}
