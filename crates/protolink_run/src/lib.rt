//! The work of the program `protolink`, over what it is given, a host that reads and writes files,
//! and two writers.
#![tactic(auto)]

ghost use Rattle.std.specs.Prelude.{◌≡◌, ◌≢◌, ◌≤◌, [], ◌∷◌, ◌++◌, true, false, All, IfOk, IfSome, IsSome, OnOk, map, slice_index, string_bytes};
ghost use Rattle.protolink_run.specs.Outcomes.{AreRight, IsPlainWord};
ghost use Rattle.protolink_words.specs.Asking.{IsNameWord};

mod alike;
mod checks;
mod faults;
mod host;
mod linking;
mod load;
mod options;
mod output;
mod paths;
mod places;
mod search;
mod statements;
mod told;
mod warnings;

pub use crate::host::Host;
use crate::host::is_want;
use crate::linking::linked;
use crate::load::{Reading, load_all};
use crate::paths::{Place, places};
use crate::search::{Input, beside_program, input_of};
use crate::told::{cause, say, say_line};
use protolink_words::{Asked, Work, asked_by};
use std::alloc::{AllocError, Global};
use std::io::{self, Write};

const VERSION: &str = "protolink 0.10.0 (rattle-kit-13f)
";

const HELP: &str = "usage: protolink [OPTIONS] FILE..

Checks and links Protocol Buffers source files (proto2, proto3). The words are those of protoc.

  -IPATH, --proto_path=PATH
                    look for files in this folder; of several, in the first that has the file
  -oFILE, --descriptor_set_out=FILE
                    write the linked files to FILE, as a FileDescriptorSet; - is standard
                    output
  --include_imports the set has all that the files import, too
  --include_source_info
                    the set has places and comments
  --dependency_out=FILE
                    write to FILE what the set was made of, as a rule for make
  --error_format=gcc, --error_format=msvs
                    print each fault in a line, in the form of that compiler; otherwise the line
                    of the source follows, with marks under the place
  --fatal_warnings  fail where there is a warning, unless it is about options or folders
  @FILE             each line of FILE is a word
  --version         print the version
  -h, --help        print this

Status: 0 where all is well, 2 where memory runs out or nothing can be said, else 1.
";

// The word behind `@`, if it names a file of words.
fn argument_file(word: &str) -> Option<&str>
    ensures { IsSome result → slice_index word.now 0 ≡ 64 }
{
    word.strip_prefix('@')
}

// Adds the words of a file. Answers whether it could be read.
fn add_lines<H: Host>(
    alloc: Global,
    host: &H,
    name: &str,
    words: &mut Vec<String>,
) -> io::Result<bool> {
    let bytes = match host.read(name) {
        Ok(bytes) => bytes,
        Err(error) if is_want(&error) => return Err(error),
        Err(_) => return Ok(false),
    };
    let Ok(text) = str::from_utf8(bytes.as_slice()) else {
        return Ok(false);
    };
    for line in text.lines() {
        words.push(String::from_str(alloc, line)?)?;
    }
    Ok(true)
}

// Adds a word, or the words of the file that it names. Answers whether that could be read, or else
// its name.
fn add_word<'a, H: Host>(
    alloc: Global,
    host: &H,
    word: &'a str,
    words: &mut Vec<String>,
) -> io::Result<Option<&'a str>>
    ensures { slice_index word.entry.now 0 ≢ 64 → OnOk result (map string_bytes words.new.items
        ≡ map string_bytes words.old.items ++ word.entry.now ∷ []) }
{
    let Some(name) = argument_file(word) else {
        words.push(String::from_str(alloc, word)?)?;
        return Ok(None);
    };
    if add_lines(alloc, host, name, words)? {
        return Ok(None);
    }
    Ok(Some(name))
}

// The words, with those of files of words in their place. None if such a file can't be read, and
// that is told.
fn expanded<H: Host, E: Write>(
    alloc: Global,
    host: &H,
    words: &[String],
    err: &mut E,
) -> io::Result<Option<Vec<String>>>
    ensures { All IsPlainWord words.now → IfOk result (λ all. IfSome all (λ all. map string_bytes all.items ≡ map string_bytes words.now)) }
{
    let mut all = Vec::new(alloc);
    for word in words {
        if let Some(name) = add_word(alloc, host, word.as_str(), &mut all)? {
            say(alloc, err, "Failed to open argument file", name)?;
            return Ok(None);
        }
    }
    Ok(Some(all))
}

// Says of each folder that isn't there that it isn't.
fn warn_of_folders<H: Host, E: Write>(
    alloc: Global,
    host: &H,
    work: &Work<'_>,
    err: &mut E,
) -> io::Result<()> {
    for folder in work.folders.as_slice() {
        if !host.exists(folder.path)? {
            say(
                alloc,
                err,
                folder.path,
                "warning: directory does not exist.",
            )?;
        }
    }
    Ok(())
}

// The name of an input. None if it has none, and that is told.
fn name_of<H: Host, E: Write>(
    alloc: Global,
    host: &H,
    places: &[Place],
    word: &str,
    err: &mut E,
) -> io::Result<Option<String>> {
    match input_of(alloc, host, places, word)? {
        Input::Named(name) => return Ok(Some(name)),
        Input::Shadowed(other) => {
            let text = format!(in alloc;
                "Input is shadowed in the --proto_path by \"{other}\".  Either use the latter file as your input or reorder the --proto_path so that the former file's location comes first."
            )?;
            say(alloc, err, word, text.as_str())?;
        }
        Input::Outside => say(
            alloc,
            err,
            word,
            "File does not reside within any path specified using --proto_path (or -I).  You must specify a --proto_path which encompasses this file.  Note that the proto_path must be an exact prefix of the .proto file names -- protoc is too dumb to figure out when two paths (e.g. absolute and relative) are equivalent (it's harder than you think).",
        )?,
        Input::Missing => {
            let name = format!(in alloc; "Could not make proto path relative: {word}")?;
            say(alloc, err, name.as_str(), "No such file or directory")?;
        }
        Input::Folder => {
            let name = format!(in alloc; "Could not map to virtual file: {word}")?;
            say(alloc, err, name.as_str(), "Input file is a directory.")?;
        }
    }
    Ok(None)
}

// The names of all inputs. None if one has none.
fn names_of<H: Host, E: Write>(
    alloc: Global,
    host: &H,
    places: &[Place],
    work: &Work<'_>,
    err: &mut E,
) -> io::Result<Option<Vec<String>>>
    ensures { work.now.files.items ≢ [] → IfOk result (λ names. IfSome names (λ names. names.items ≢ [])) }
{
    let mut names = Vec::new(alloc);
    let mut all = true;
    for word in work.files.as_slice() {
        match name_of(alloc, host, places, word, err)? {
            Some(name) => names.push(name)?,
            None => all = false,
        }
    }
    Ok(if all { Some(names) } else { None })
}

// The folders in which files are looked for: those that are named, and then that of the files that
// come with the program.
fn all_places<H: Host>(alloc: Global, host: &H, work: &Work<'_>) -> io::Result<Vec<Place>> {
    let mut places = places(alloc, work.folders.as_slice())?;
    if let Some(path) = beside_program(alloc, host)? {
        let name = String::new(alloc);
        places.push(Place { name, path })?;
    }
    Ok(places)
}

// Does the work. Answers whether all is well.
fn done<H: Host, W: Write, E: Write>(
    alloc: Global,
    host: &H,
    work: &Work<'_>,
    out: &mut W,
    err: &mut E,
) -> io::Result<bool>
    ensures { work.now.files.items ≢ [] → IfOk result (λ well. well ≡ true → AreRight H.holds host.now) }
{
    warn_of_folders(alloc, host, work, err)?;
    let places = all_places(alloc, host, work)?;
    let places = places.as_slice();
    let Some(names) = names_of(alloc, host, places, work, err)? else {
        return Ok(false);
    };
    let format = work.format;
    let reading = Reading {
        host,
        places,
        format,
    };
    let loaded = load_all(alloc, err, &reading, names.as_slice())?;
    linked(alloc, host, work, loaded, out, err)
}

// Does what the words ask for, once the files of words are read. Answers whether all is well.
fn done_as_asked<H: Host, W: Write, E: Write>(
    alloc: Global,
    host: &H,
    words: &[String],
    out: &mut W,
    err: &mut E,
) -> io::Result<bool>
    ensures { words.now ≢ [] → All IsNameWord words.now
        → IfOk result (λ well. well ≡ true → AreRight H.holds host.now) }
{
    match asked_by(alloc, words)? {
        Asked::Help => out.write_all(HELP.as_bytes()).map(|_| true),
        Asked::Version => out.write_all(VERSION.as_bytes()).map(|_| true),
        Asked::Work(work) => done(alloc, host, &work, out, err),
        Asked::Wrong(wrong) => {
            let text = format!(in alloc; "{wrong}")?;
            say_line(alloc, err, text.as_str())?;
            Ok(false)
        }
    }
}

// Does what the words ask for. Answers whether all is well.
#[tactic(auto, using(crate::proofs::Plain::named, crate::proofs::Plain::some_words))]
fn tried<H: Host, W: Write, E: Write>(
    alloc: Global,
    host: &H,
    words: &[String],
    out: &mut W,
    err: &mut E,
) -> io::Result<bool>
    ensures none { words.now ≡ [] → IfOk result (λ well. well ≡ true) }
    ensures right { words.now ≢ [] → All IsPlainWord words.now
        → IfOk result (λ well. well ≡ true → AreRight H.holds host.now) }
{
    if words.is_empty() {
        out.write_all(HELP.as_bytes())?;
        return Ok(true);
    }
    let Some(words) = expanded(alloc, host, words, err)? else {
        return Ok(false);
    };
    done_as_asked(alloc, host, words.as_slice(), out, err)
}

/// Does what the words ask for: links files, tells what is wrong with them, and writes what is asked
/// for. The answer is the status: 0 where all is well, 2 where memory runs out or nothing can be said,
/// else 1.
pub fn run<H: Host, W: Write, E: Write>(
    alloc: Global,
    host: &H,
    words: &[String],
    out: &mut W,
    err: &mut E,
) -> u8
    ensures status { result ≤ 2 }
    // With no word it prints the help. Only that can fail.
    ensures no_word { words.now ≡ [] → result ≢ 1 }
    // Where each word is a file's name, the status is 0 only if files were read, at least one, in
    // which nothing is wrong.
    ensures right { words.now ≢ [] → All IsPlainWord words.now → result ≡ 0
        → AreRight H.holds host.now }
{
    match tried(alloc, host, words, out, err) {
        Ok(true) => 0,
        Ok(false) => 1,
        Err(error) => broken(alloc, err, &error),
    }
}

// Says why nothing more can be written.
fn say_why<E: Write>(alloc: Global, err: &mut E, error: &io::Error) -> io::Result<()> {
    let why = cause(alloc, error)?;
    say(alloc, err, "protolink: cannot write", why.as_str())
}

/// Says why nothing more is done, and answers the status.
pub fn broken<E: Write>(alloc: Global, err: &mut E, error: &io::Error) -> u8
    ensures { result ≡ 2 }
{
    let said = match error.kind() {
        io::ErrorKind::OutOfMemory => Err(AllocError.into()),
        _ => say_why(alloc, err, error),
    };
    // Want of memory is told without asking for any. What can't be said stays unsaid.
    if said.is_err_and(|error| is_want(&error)) {
        let _ = err.write_all("protolink: out of memory\n".as_bytes());
    }
    2
}
