//! The work of the program `protoparse`, over what it is given, a host that reads files, and two
//! writers: so that it has a contract, and tests.
#![tactic(auto)]

ghost use Rattle.std.specs.Prelude.{◌≡◌, ◌≤◌, ℕ, List, All, IfOk, length};
ghost use Rattle.protoparse_run.specs.Outcomes.{IsAccepted, IsFileNamed, IsRightOf, IsRightAbout};
ghost use Rattle.protoparse_words.specs.Asking.{IsName};

mod complaints;
mod floats;
mod progress;
pub mod set;
pub mod tally;

use complaints::{OUT_OF_MEMORY, complain, misused, say, unread};
pub use complaints::{broken, wordless};
use progress::Progress;
use protoparse_words::{Asked, Mode, Task, Work, asked_by};
use protox_outline::write_outline;
use protox_parse::descriptor::FileDescriptorProto;
use protox_parse::{ParseError, ParseFailure, parse};
use protox_report::paint::Paint;
use protox_report::report::Source;
use protox_text::descriptors::write_file;
use set::add_to_set;
use std::alloc::Global;
use std::io::{self, Write};
use tally::{Outcome, Tally};

const VERSION: &str = "protoparse 0.10.0 (rattle-kit-13f)
Builds by `rt ci`, `rt run` and package/build are proved. Builds by `rt try` are not.
";

const HELP: &str = "usage: protoparse [OPTIONS] FILE..

Checks Protocol Buffers source files (proto2, proto3), and prints what is wrong with them.
The file - is standard input. An option holds for the files behind it, but -I for all files.

  --check           print only what is wrong (the default)
  --outline         print the declarations: place, kind, full name, first line of the comment
  --text            print the descriptor in text format
  --descriptor-set-out=FILE
                    write the descriptors to FILE, as one FileDescriptorSet, if all files are
                    accepted
  -I DIR, --proto_path=DIR
                    name the files in their descriptors as they are called in DIR. With several
                    folders the first that holds the file counts; each file has to lie in one
  --no-source-info  leave the locations out of the descriptor
  --color           print faults in colour
  --                each word behind it is a file
  -h, --help        print this
  -V, --version     print the version

Status: 0 where all files are accepted, 1 where one is refused, 2 where one can't be read, memory
runs out, nothing can be written, or the options are wrong.
";

const NO_FOLDER: &str = "it names no folder (the current one is .)";

const OUTSIDE: &str = "it lies in no folder that -I or --proto_path names";

/// Where files are read.
pub trait Host {
    /// Under this name it may give these bytes.
    ghost holds: { Self → List ℕ → List ℕ → Type 0 };

    /// The bytes of the file of this name; of `-` those of standard input.
    fn read(&self, name: &str) -> io::Result<Vec<u8>>
        ensures { IfOk result (λ bytes. holds self.now name.now bytes.items) };

    /// Makes a file of this name, which has these bytes.
    fn write(&self, name: &str, bytes: &[u8]) -> io::Result<()>;
}

// What people are told of a file is told under this name.
fn shown_path(path: &str) -> &str {
    if path == "-" { "<stdin>" } else { path }
}

// A report for each fault.
fn write_faults<W: Write>(
    alloc: Global,
    out: &mut W,
    path: &str,
    error: &ParseError,
    paint: Paint,
) -> io::Result<()>
    requires { length error.now.source ≤ 2147483647 }
{
    let source = Source::new(alloc, path, error.source(), paint)?;
    let mut text = String::new(alloc);
    for fault in error.errors() {
        text.clear();
        source.push_fault(alloc, &mut text, fault)?;
        out.write_all(text.as_bytes())?;
    }
    Ok(())
}

// Gives what is asked for of a file that is accepted: whether it is given.
fn write_answer<W: Write, E: Write>(
    alloc: Global,
    out: &mut W,
    err: &mut E,
    set: &mut Vec<u8>,
    task: &Task<'_>,
    mut file: FileDescriptorProto,
) -> io::Result<bool> {
    let path = shown_path(task.path);
    match task.how.mode {
        Mode::Check => Ok(true),
        Mode::Outline => write_outline(alloc, out, path, &file).map(|_| true),
        Mode::Text => write_file(alloc, out, &file, task.how.source_info).map(|_| true),
        Mode::Set => {
            if !task.how.source_info {
                file.source_code_info = None;
            }
            Ok(add_to_set(alloc, err, set, task.path, &file))
        }
    }
}

// What is wrong with a file, where its answers would go, or where errors go.
fn write_refusal<W: Write, E: Write>(
    alloc: Global,
    out: &mut W,
    err: &mut E,
    task: &Task<'_>,
    error: &ParseError,
) -> io::Result<()>
    requires { length error.now.source ≤ 2147483647 }
{
    let path = shown_path(task.path);
    let paint = if task.how.color {
        Paint::TERMINAL
    } else {
        Paint::NONE
    };
    match task.how.mode {
        Mode::Check => write_faults(alloc, out, path, error, paint),
        _ => write_faults(alloc, err, path, error, paint),
    }
}

// Does with the text of a file what is asked for.
#[tactic(auto, using(crate::proofs::Sizes::size_of_source))]
fn handle<W: Write, E: Write>(
    alloc: Global,
    out: &mut W,
    err: &mut E,
    set: &mut Vec<u8>,
    task: &Task<'_>,
    progress: Progress,
    source: &str,
) -> io::Result<Outcome>
    ensures { IfOk result (IsRightOf source.now) }
{
    match parse(alloc, task.name.as_str(), source) {
        Ok(file) => {
            progress.clear(err);
            if write_answer(alloc, out, err, set, task, file)? {
                Ok(Outcome::Accepted)
            } else {
                Ok(Outcome::Failed)
            }
        }
        Err(ParseFailure::Refused(error)) => {
            progress.clear(err);
            write_refusal(alloc, out, err, task, &error)?;
            Ok(Outcome::Refused(error.errors().len()))
        }
        Err(ParseFailure::OutOfMemory) => {
            progress.clear(err);
            Ok(complain(alloc, err, task.path, "out of memory"))
        }
    }
}

// Reads a file, and does with it what is asked for.
fn handle_file<H: Host, W: Write, E: Write>(
    alloc: Global,
    host: &H,
    out: &mut W,
    err: &mut E,
    set: &mut Vec<u8>,
    task: &Task<'_>,
    progress: Progress,
) -> io::Result<Outcome>
    ensures { IfOk result (IsRightAbout (H.holds host.now task.now.path.now)) }
{
    let bytes = match host.read(task.path) {
        Ok(bytes) => bytes,
        Err(error) => {
            progress.clear(err);
            return Ok(unread(alloc, err, task.path, &error));
        }
    };
    match str::from_utf8(bytes.as_slice()) {
        Ok(source) => handle(alloc, out, err, set, task, progress, source),
        Err(_) => {
            progress.clear(err);
            Ok(complain(alloc, err, task.path, "not UTF-8"))
        }
    }
}

// Whether any of the files is only checked.
fn has_check(tasks: &[Task<'_>]) -> bool {
    for task in tasks {
        if let Mode::Check = task.how.mode {
            return true;
        }
    }
    false
}

// Writes the set where each file was accepted, as the status says. Else it says that it doesn't.
fn write_set<H: Host, W: Write, E: Write>(
    alloc: Global,
    host: &H,
    out: &mut W,
    err: &mut E,
    name: &str,
    set: &[u8],
    status: u8,
) -> io::Result<()> {
    if status != 0 {
        let _ = complain(alloc, err, name, "not written");
        return Ok(());
    }
    if name == "-" {
        return out.write_all(set);
    }
    host.write(name, set)
}

// Handles one file after another. Then it prints the summary if any file was only checked, and
// writes the set if one was asked for.
fn handle_all<H: Host, W: Write, E: Write>(
    alloc: Global,
    host: &H,
    out: &mut W,
    err: &mut E,
    work: &Work<'_>,
    to_terminal: bool,
) -> io::Result<u8>
    ensures status { IfOk result (λ status. status ≤ 2) }
    ensures accepted { IfOk result (λ status. status ≡ 0 → All (IsAccepted H.holds host.now) work.now.tasks.items) }
{
    let tasks = work.tasks.as_slice();
    let mut tally = Tally::NONE;
    let mut bytes = Vec::new(alloc);
    let mut progress = Progress::new(tasks.len(), to_terminal);
    for task in tasks {
        progress.advance(err);
        tally.add(handle_file(alloc, host, out, err, &mut bytes, task, progress)?);
    }
    if has_check(tasks) {
        tally.write_summary(out)?;
    }
    let status = tally.status();
    if let Some(name) = work.set {
        write_set(alloc, host, out, err, name, bytes.as_slice(), status)?;
    }
    Ok(status)
}

// Writes a text that was asked for, and answers the status.
fn tell<W: Write, E: Write>(out: &mut W, err: &mut E, text: &str) -> u8
    ensures { result ≤ 2 }
{
    match out.write_all(text.as_bytes()) {
        Ok(()) => 0,
        Err(error) => broken(err, &error),
    }
}

// Does the work on files, and answers the status.
fn worked<H: Host, W: Write, E: Write>(
    alloc: Global,
    host: &H,
    out: &mut W,
    err: &mut E,
    work: &Work<'_>,
    to_terminal: bool,
) -> u8
    ensures status { result ≤ 2 }
    ensures accepted { result ≡ 0 → All (IsAccepted H.holds host.now) work.now.tasks.items }
{
    match handle_all(alloc, host, out, err, work, to_terminal) {
        Ok(status) => status,
        Err(error) => broken(err, &error),
    }
}

/// Does what the words ask for: checks files, and prints what is wrong with them or what is asked
/// for of them. With many files it shows how far it has come, if errors go to a terminal. The
/// answer is the status.
pub fn run<H: Host, W: Write, E: Write>(
    alloc: Global,
    host: &H,
    words: &[String],
    out: &mut W,
    err: &mut E,
    to_terminal: bool,
) -> u8
    ensures status { result ≤ 2 }
    ensures no_word { length words.now ≡ 0 → result ≡ 2 }
    // Where each word is a file's name, the status is 0 only if what was read under each is a file.
    ensures accepted { All IsName words.now → result ≡ 0 → All (IsFileNamed H.holds host.now) words.now }
{
    match asked_by(alloc, words) {
        Ok(Asked::Help) => tell(out, err, HELP),
        Ok(Asked::Version) => tell(out, err, VERSION),
        Ok(Asked::Work(work)) => worked(alloc, host, out, err, &work, to_terminal),
        Ok(Asked::Nothing) => {
            say(
                err,
                "usage: protoparse [OPTIONS] FILE.. (--help says more)\n",
            );
            2
        }
        Ok(Asked::NoFolder(word)) => misused(alloc, err, word, NO_FOLDER),
        Ok(Asked::Outside(path)) => misused(alloc, err, path, OUTSIDE),
        Ok(Asked::Unknown(word)) => misused(alloc, err, word, "no such option (--help says more)"),
        Err(_) => {
            say(err, OUT_OF_MEMORY);
            2
        }
    }
}
