//! What is printed for a line.

use crate::set::{Set, note};
use protox_descriptor::values::Numbers;
use protox_names::is_identifier;
use protox_scopes::{Kind, Wanted, resolve, resolve_in};
use protox_symbols::{Symbols, Thing};
use std::alloc::{AllocError, Global};

fn kind_of(word: &str) -> Option<Kind> {
    match word {
        "message" => Some(Kind::Message),
        "enum" => Some(Kind::Enum),
        "service" => Some(Kind::Service),
        "package" => Some(Kind::Package),
        "member" => Some(Kind::Member),
        _ => None,
    }
}

fn kind_word(kind: Kind) -> &'static str {
    match kind {
        Kind::Message => "message",
        Kind::Enum => "enum",
        Kind::Service => "service",
        Kind::Package => "package",
        Kind::Member => "member",
    }
}

fn told(
    alloc: Global,
    symbols: &Symbols,
    line: &str,
    number: Option<usize>,
) -> Result<String, AllocError> {
    let Some(number) = number else {
        return format!(in alloc; "{line}: none");
    };
    let kind = kind_word(symbols.kind(number));
    match symbols.thing(number) {
        Some(thing) => format!(in alloc; "{line}: {kind} {number} of line {}", thing.file),
        None => format!(in alloc; "{line}: {kind} {number} of no line"),
    }
}

fn added(
    alloc: Global,
    symbols: &mut Symbols,
    name: &str,
    scope: &str,
    count: usize,
) -> Result<Option<usize>, AllocError> {
    let place = symbols.find_within("", scope);
    if !is_identifier(name) {
        return Ok(None);
    }
    let path = Numbers::new();
    let thing = Thing { file: count, path };
    symbols
        .add(alloc, place, name, Kind::Member, thing)
        .map(Some)
}

// What has a full name, with its file and its path.
fn found_at(
    alloc: Global,
    symbols: &Symbols,
    line: &str,
    full_name: &str,
) -> Result<String, AllocError> {
    let Some(number) = symbols.find(None, full_name) else {
        return format!(in alloc; "{line}: none");
    };
    let kind = kind_word(symbols.kind(number));
    let Some(thing) = symbols.thing(number) else {
        return format!(in alloc; "{line}: {kind} {number} of no file");
    };
    let mut text = format!(in alloc; "{line}: {kind} {number} of file {} at", thing.file)?;
    for step in thing.path.as_slice() {
        text = format!(in alloc; "{text} {step}")?;
    }
    Ok(text)
}

// The table of the files so far, in place of the one before.
fn ended(alloc: Global, symbols: &mut Symbols, set: &mut Set) -> Result<String, AllocError> {
    *symbols = Symbols::of(alloc, set.files.as_slice())?;
    set.files.clear();
    format!(in alloc; "end: {}", symbols.len())
}

// What a name stands for, if both ways of asking agree.
fn resolved(
    alloc: Global,
    symbols: &Symbols,
    line: &str,
    wanted: Wanted,
    name: &str,
    user: &str,
) -> Result<String, AllocError> {
    let found = resolve(symbols, wanted, name, user);
    let scope = symbols
        .find(None, user)
        .and_then(|user| symbols.outer(user));
    if found == resolve_in(symbols, wanted, name, scope) {
        told(alloc, symbols, line, found)
    } else {
        format!(in alloc; "{line}: two answers")
    }
}

/// Answers one line, or declares what it declares. What says something of a file is printed as it
/// is.
pub(crate) fn answer(
    alloc: Global,
    symbols: &mut Symbols,
    set: &mut Set,
    line: &str,
    count: usize,
) -> Result<String, AllocError> {
    let (verb, rest) = line.split_once(' ').unwrap_or((line, ""));
    if let Some(kind) = kind_of(verb) {
        symbols.declare(alloc, rest, kind, count, &[])?;
        return told(alloc, symbols, line, symbols.find_within("", rest));
    }
    let (name, scope) = rest.split_once(" in ").unwrap_or((rest, ""));
    match verb {
        "add" => {
            let number = added(alloc, symbols, name, scope, count)?;
            told(alloc, symbols, line, number)
        }
        "find" => told(alloc, symbols, line, symbols.find_within(scope, name)),
        "type" => resolved(alloc, symbols, line, Wanted::AType, name, scope),
        "anything" => resolved(alloc, symbols, line, Wanted::Anything, name, scope),
        "names" => format!(in alloc; "{line}: {}", symbols.len()),
        "at" => found_at(alloc, symbols, line, rest),
        "end" => ended(alloc, symbols, set),
        _ => {
            note(alloc, set, verb, rest)?;
            String::from_str(alloc, line)
        }
    }
}
