//! The work of the program `protoscan`, over its words, its file's bytes and two writers. So it has
//! a contract and tests.
#![tactic(auto)]

ghost use Rattle.std.specs.Prelude.{◌≡◌, ◌<◌, ◌≤◌, length, None, IfOk, IfSome, IsSome};
ghost use Rattle.protox_parse.specs.Files.{IsFile};

use protox_parse::descriptor::source_code_info::Location;
use protox_parse::{ParseFailure, parse_pooled};
use protox_pool::LocationPool;
use protox_shown::shown::Shown;
use std::alloc::{AllocError, Global};
use std::io::{self, Write};

/// The status if the file was accepted and its locations are printed.
const PRINTED: u8 = 0;
/// The status if the file was refused.
const REFUSED: u8 = 1;
/// The status if the words don't fit, if there is no file, no text or no memory, or if a write
/// failed.
pub const FAILED: u8 = 2;

/// The line that says that memory ran out.
const OUT_OF_MEMORY: &str = "protoscan: out of memory\n";

/// How many bytes are written at a time. The last line may go beyond.
const AT_ONCE: usize = 16384;

// Adds a number in decimal and then the mark.
fn push_number(text: &mut Vec<u8>, number: i32, mark: u8) -> Result<(), AllocError> {
    if number < 0 {
        text.push(b'-')?;
    }
    let mut rest = number.unsigned_abs();
    if rest < 10 {
        return text.extend_from_slice(&[b'0' + rest as u8, mark]);
    }
    if rest < 100 {
        return text.extend_from_slice(&[b'0' + (rest / 10) as u8, b'0' + (rest % 10) as u8, mark]);
    }
    let mut digits = [mark; 11];
    let mut start = 10;
    for place in (0..10).rev() {
        digits[place] = b'0' + (rest % 10) as u8;
        rest /= 10;
        start = place;
        if rest == 0 {
            break;
        }
    }
    text.extend_from_slice(&digits[start..])
}

// Adds the numbers with `between` between each two, and the other mark at the end.
fn push_numbers(
    text: &mut Vec<u8>,
    numbers: &[i32],
    between: u8,
    behind: u8,
) -> Result<(), AllocError> {
    for (index, number) in numbers.iter().enumerate() {
        let mark = if index + 1 < numbers.len() {
            between
        } else {
            behind
        };
        push_number(text, *number, mark)?;
    }
    Ok(())
}

/// The path and the line of a source that were printed last. A location often begins as the one
/// before it; then their text is copied.
#[derive(Drop)]
pub struct LastPrinted {
    // Each number of the path, with the offset where its text ends.
    path: Vec<(i32, usize)>,
    // The numbers of the path, each with a dot after it.
    path_text: Vec<u8>,
    line: Option<i32>,
    // The line's number with a comma after it.
    line_text: Vec<u8>,
}

impl LastPrinted {
    /// Nothing is printed yet. It takes no memory: `alloc` serves what is printed later.
    pub fn new(alloc: Global) -> LastPrinted {
        LastPrinted {
            path: Vec::new(alloc),
            path_text: Vec::new(alloc),
            line: None,
            line_text: Vec::new(alloc),
        }
    }

    // Keeps only the first numbers of the path.
    fn keep(&mut self, numbers: usize) {
        self.path.truncate(numbers);
        let end = match self.path.last() {
            Some((_, end)) => *end,
            None => 0,
        };
        self.path_text.truncate(end);
    }

    // Changes to this path. The numbers at its beginning that it shares with the last one stay.
    fn turn_to(&mut self, path: &[i32]) -> Result<(), AllocError> {
        let mut shared = true;
        for (index, number) in path.iter().enumerate() {
            if shared {
                match self.path.get(index) {
                    Some((last, _)) if *last == *number => continue,
                    _ => (),
                }
                shared = false;
                self.keep(index);
            }
            push_number(&mut self.path_text, *number, b'.')?;
            self.path.push((*number, self.path_text.len()))?;
        }
        if shared {
            self.keep(path.len());
        }
        Ok(())
    }

    // Adds the path with dots and then a blank; for the path of the file, a dot and a blank.
    fn push_path(&mut self, text: &mut Vec<u8>, path: &[i32]) -> Result<(), AllocError> {
        if path.is_empty() {
            return text.extend_from_slice(b". ");
        }
        self.turn_to(path)?;
        text.extend_from_slice(self.path_text.as_slice())?;
        if let Some(behind) = text.last_mut() {
            *behind = b' ';
        }
        Ok(())
    }

    // Adds the line's number with a comma after it.
    fn push_line(&mut self, text: &mut Vec<u8>, line: i32) -> Result<(), AllocError> {
        if self.line != Some(line) {
            self.line = None;
            self.line_text.clear();
            push_number(&mut self.line_text, line, b',')?;
            self.line = Some(line);
        }
        text.extend_from_slice(self.line_text.as_slice())
    }
}

/// Adds a line to `text`: the path of a location with dots (one dot for the path of the file), a
/// blank, and its span with commas. `AllocError` if memory runs out.
pub fn push_location(
    last: &mut LastPrinted,
    text: &mut Vec<u8>,
    location: &Location,
) -> Result<(), AllocError> {
    push_place(
        last,
        text,
        location.path.as_slice(),
        location.span.as_slice(),
    )
}

// Adds the line of a location with this path and span.
fn push_place(
    last: &mut LastPrinted,
    text: &mut Vec<u8>,
    path: &[i32],
    span: &[i32],
) -> Result<(), AllocError> {
    last.push_path(text, path)?;
    if let [line, columns @ ..] = span {
        last.push_line(text, *line)?;
        push_numbers(text, columns, b',', b'\n')?;
    }
    Ok(())
}

// Whether the locations with this path are to be written. Without a path, all are.
fn is_chosen(path: Option<&[i32]>, of_location: &[i32]) -> bool {
    match path {
        None => true,
        Some(path) => path == of_location,
    }
}

// Many lines are collected before they are written: one write a line would take longer than the
// parse.
fn write_locations<W: Write>(
    alloc: Global,
    out: &mut W,
    locations: &LocationPool,
    path: Option<&[i32]>,
) -> io::Result<()> {
    let mut last = LastPrinted::new(alloc);
    let mut lines = Vec::new(alloc);
    for location in locations.iter() {
        if is_chosen(path, location.path) {
            push_place(&mut last, &mut lines, location.path, location.span)?;
        }
        if AT_ONCE <= lines.len() {
            out.write_all(lines.as_slice())?;
            lines.clear();
        }
    }
    out.write_all(lines.as_slice())
}

// Parses the file and writes its locations, only those with the path if one is given; or writes
// what is wrong.
fn scan<W: Write, E: Write>(
    alloc: Global,
    name: &str,
    path: Option<&[i32]>,
    source: &str,
    out: &mut W,
    err: &mut E,
) -> io::Result<u8>
    ensures status { IfOk result (λ status. status ≤ 2) }
    ensures printed { IfOk result (λ status. status ≡ 0 → IsFile source.now) }
    ensures refused { IfOk result (λ status. status ≡ 1 → IsFile source.now → ⊥) }
{
    match parse_pooled(alloc, name, source) {
        Ok(file) => {
            write_locations(alloc, out, &file.locations, path)?;
            Ok(PRINTED)
        }
        Err(ParseFailure::Refused(error)) => {
            writeln!(err, "{error:?}")?;
            Ok(REFUSED)
        }
        Err(ParseFailure::OutOfMemory) => Ok(failed(err, OUT_OF_MEMORY, "", "")),
    }
}

// Says in a line why nothing is printed, without asking for memory. If the line can't be written,
// nothing more is.
fn failed<E: Write>(err: &mut E, before: &str, name: &str, behind: &str) -> u8
    ensures { result ≡ 2 }
{
    let name = Shown(name);
    match write!(err, "{before}{name}{behind}") {
        Ok(()) => FAILED,
        Err(_) => FAILED,
    }
}

/// The status `FAILED` after an error of reading or writing. If memory ran out, a line says so; a
/// failed write is not reported.
pub fn broken<E: Write>(err: &mut E, error: &io::Error) -> u8
    ensures { result ≡ 2 }
{
    if error.kind() == io::ErrorKind::OutOfMemory {
        return failed(err, OUT_OF_MEMORY, "", "");
    }
    FAILED
}

/// The status `FAILED` if the program's words can't be had. A line says why: a word is not UTF-8,
/// or memory ran out.
pub fn without_words<E: Write>(err: &mut E, error: &io::Error) -> u8
    ensures { result ≡ 2 }
{
    if error.kind() == io::ErrorKind::InvalidData {
        return failed(err, "protoscan: an argument is not UTF-8\n", "", "");
    }
    broken(err, error)
}

// A number in decimal digits, up to 2147483647.
fn number_of(digits: &[u8]) -> Option<i32> {
    if digits.is_empty() {
        return None;
    }
    let mut number: i32 = 0;
    for digit in digits {
        if !digit.is_ascii_digit() {
            return None;
        }
        number = number.checked_mul(10)?.checked_add((*digit - b'0') as i32)?;
    }
    Some(number)
}

// The path that a word spells: one dot for the path of the file, or numbers with dots between them.
// None if it spells no path.
fn path_of(alloc: Global, word: &str) -> Result<Option<Vec<i32>>, AllocError> {
    let mut path = Vec::new(alloc);
    if word == "." {
        return Ok(Some(path));
    }
    for digits in word.as_bytes().split(|byte| *byte == b'.') {
        match number_of(digits) {
            Some(number) => path.push(number)?,
            None => return Ok(None),
        }
    }
    Ok(Some(path))
}

// Whether a word spells a path. It takes no memory.
fn is_path(word: &str) -> bool {
    if word == "." {
        return true;
    }
    for digits in word.as_bytes().split(|byte| *byte == b'.') {
        if number_of(digits).is_none() {
            return false;
        }
    }
    true
}

/// The name of the file to read: the first of `words`. There may be one more word, which must spell
/// a path. Otherwise None: nothing is to be read.
pub fn file_name(words: &[String]) -> Option<&str>
    ensures no_word { length words.now ≡ 0 → result ≡ None }
    ensures one_word { length words.now ≡ 1 → IsSome result }
    ensures more_words { 2 < length words.now → result ≡ None }
{
    match words {
        [name] => Some(name.as_str()),
        [name, path] if is_path(path.as_str()) => Some(name.as_str()),
        _ => None,
    }
}

// The work of `run` if the words fit: a file's name, and maybe a path.
fn scan_file<W: Write, E: Write>(
    alloc: Global,
    name: &str,
    path: Option<&[i32]>,
    file: Option<&[u8]>,
    out: &mut W,
    err: &mut E,
) -> u8
    ensures status { result ≤ 2 }
    ensures file { file.entry ≡ None → result ≡ 2 }
    ensures printed { result ≡ 0 → IfSome file.entry (λ bytes. IsFile bytes.now) }
    ensures refused { result ≡ 1 → IfSome file.entry (λ bytes. IsFile bytes.now → ⊥) }
{
    let Some(bytes) = file else {
        return failed(err, "protoscan: cannot read ", name, "\n");
    };
    let Ok(source) = str::from_utf8(bytes) else {
        return failed(err, "protoscan: ", name, " is not UTF-8\n");
    };
    match scan(alloc, name, path, source, out, err) {
        Ok(status) => status,
        Err(error) => broken(err, &error),
    }
}

/// Parses `file` and writes its locations to `out`, or what is wrong with it to `err`. Its name is
/// the first of `words`. A second word is a path; then only the locations with that path are
/// written. One dot is the path of the file; any other path is numbers up to 2147483647 with dots
/// between them.
///
/// Answers the status: 0 if the file was accepted, 1 if it was refused, and 2 if nothing was parsed
/// or a write failed. If nothing was parsed, a line to `err` says why: there is no word or more
/// than two, the second spells no path, there is no file (`None`: it could not be read), its text
/// is not UTF-8, or memory ran out. After a failed write nothing more is written. What is written
/// to `err` of names and sources is shown as `Debug` of a `ParseError` shows it.
pub fn run<W: Write, E: Write>(
    alloc: Global,
    words: &[String],
    file: Option<&[u8]>,
    out: &mut W,
    err: &mut E,
) -> u8
    ensures status { result ≤ 2 }
    ensures no_word { length words.now ≡ 0 → result ≡ 2 }
    ensures more_words { 2 < length words.now → result ≡ 2 }
    ensures file { file.entry ≡ None → result ≡ 2 }
    ensures printed { result ≡ 0 → IfSome file.entry (λ bytes. IsFile bytes.now) }
    ensures refused { result ≡ 1 → IfSome file.entry (λ bytes. IsFile bytes.now → ⊥) }
{
    match words {
        [name] => scan_file(alloc, name.as_str(), None, file, out, err),
        [name, word] => match path_of(alloc, word.as_str()) {
            Ok(Some(path)) => {
                scan_file(alloc, name.as_str(), Some(path.as_slice()), file, out, err)
            }
            Ok(None) => failed(err, "protoscan: bad path ", word.as_str(), "\n"),
            Err(_) => failed(err, OUT_OF_MEMORY, "", ""),
        },
        _ => failed(err, "usage: protoscan FILE [PATH]\n", "", ""),
    }
}
