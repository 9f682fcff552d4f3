//! What `protoparse` does with words.

use protoparse_run::set::add_to_set;
use protoparse_run::{Host, run};
use protox_parse::descriptor::{FileDescriptorProto, FileOptions, UninterpretedOption};
use protox_parse::values::{Items, Text};
use protox_shown::shown::{Brief, Shown};
use std::alloc::{AllocError, Global};
use std::fs;
use std::io::{self, BufWriter, Write};

/// The files of the machine. What is written is printed.
#[derive(Drop)]
struct Machine<'a> {
    rt: &'a HostRuntime,
}

impl Host for Machine<'_> {
    ghost use Rattle.std.specs.Prelude.{⊤};

    // What a file holds is not known.
    ghost holds = { λ _ _ _. ⊤ };

    fn read(&self, name: &str) -> io::Result<Vec<u8>> {
        fs::read(self.rt, name)
    }

    fn write(&self, name: &str, bytes: &[u8]) -> io::Result<()> {
        match str::from_utf8(bytes) {
            Ok(text) => println!(self.rt; "+ {}: {}", Shown(name), Shown(text)),
            Err(_) => println!(self.rt; "+ {}", Shown(name)),
        }
    }
}

// Adds the word. `101*NAME` stands for `NAME` so many times.
fn push_word(alloc: Global, words: &mut Vec<String>, word: &str) -> Result<(), AllocError> {
    let (times, word) = match word.split_once('*') {
        Some((times, word)) => (times.parse::<u8>().unwrap_or(1), word),
        None => (1, word),
    };
    for _ in 0..times {
        words.push(String::from_str(alloc, word)?)?;
    }
    Ok(())
}

/// Writes each line of a text behind a mark.
pub fn write_lines<W: Write>(out: &mut W, mark: char, bytes: &[u8]) -> io::Result<()> {
    match str::from_utf8(bytes) {
        Ok(text) => {
            for line in text.lines() {
                writeln!(out, "{mark} {}", Brief(line))?;
            }
            Ok(())
        }
        Err(_) => writeln!(out, "{mark}"),
    }
}

// An option that is a double of this text.
fn double(alloc: Global, text: &str) -> Result<UninterpretedOption, AllocError> {
    let value = Text::copy(alloc, text)?;
    let mut option = UninterpretedOption::new(alloc);
    option.double_value = Some(value);
    Ok(option)
}

// A file with an option that is a double of this text.
fn file_with_double(alloc: Global, text: &str) -> Result<FileDescriptorProto, AllocError> {
    let mut list = Items::new(alloc);
    list.push(double(alloc, text)?)?;
    let mut options = FileOptions::new(alloc);
    options.uninterpreted_option = list;
    let mut file = FileDescriptorProto::new(alloc);
    file.options = Some(options);
    Ok(file)
}

// Adds a file with a double to a set.
fn add_double(
    alloc: Global,
    text: &str,
    err: &mut Vec<u8>,
    set: &mut Vec<u8>,
) -> Result<bool, AllocError> {
    let file = file_with_double(alloc, text)?;
    Ok(add_to_set(alloc, err, set, "a.proto", &file))
}

// What is said where a double is to be added to a set.
fn write_double(rt: &HostRuntime, text: &str) -> io::Result<()> {
    let alloc = rt.alloc();
    let mut err = Vec::new(alloc);
    let mut set = Vec::new(alloc);
    let added = add_double(alloc, text, &mut err, &mut set)?;
    println!(rt; "$ double {text}")?;
    let mut lines = BufWriter::new(alloc, rt.stdout())?;
    write_lines(&mut lines, '>', set.as_slice())?;
    write_lines(&mut lines, '!', err.as_slice())?;
    writeln!(lines, "= {added}")?;
    lines.flush()
}

// What comes of a line.
fn write_case(rt: &HostRuntime, line: &str) -> io::Result<()> {
    if let Some(text) = line.strip_prefix("double ") {
        return write_double(rt, text);
    }
    let alloc = rt.alloc();
    let mut words = Vec::new(alloc);
    let said = line.strip_prefix("tty ");
    for word in said.unwrap_or(line).split_whitespace() {
        push_word(alloc, &mut words, word)?;
    }
    println!(rt; "$ {line}")?;
    let machine = Machine { rt };
    let mut out = Vec::new(alloc);
    let mut err = Vec::new(alloc);
    let status = run(
        alloc,
        &machine,
        words.as_slice(),
        &mut out,
        &mut err,
        said.is_some(),
    );
    let mut lines = BufWriter::new(alloc, rt.stdout())?;
    write_lines(&mut lines, '>', out.as_slice())?;
    write_lines(&mut lines, '!', err.as_slice())?;
    writeln!(lines, "= {status}")?;
    lines.flush()
}

/// Prints what `protoparse` does with the words of each line: the line behind `$`, what it writes
/// to a file behind `+`, the output behind `>`, what goes where errors go behind `!`, and the
/// status behind `=`. If `tty` is the first word, errors go to a terminal. `double TEXT` is a line
/// for a file with an option that is a double of this text, which is added to a set.
pub fn write_words(rt: &HostRuntime, list: &str) -> io::Result<()> {
    for line in list.lines() {
        write_case(rt, line)?;
    }
    Ok(())
}
