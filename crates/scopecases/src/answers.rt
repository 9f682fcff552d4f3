//! What is printed for a line.

use crate::listed::{Entry, Listed};
use crate::nested::Nested;
use protox_names::cases::{json_name, without_case};
use protox_names::enclosing;
use protox_scopes::{Kind, Table, Wanted, resolve, resolve_in};
use std::alloc::{AllocError, Global};

fn kind_of(word: &str) -> Option<Kind> {
    match word {
        "message" => Some(Kind::Message),
        "enum" => Some(Kind::Enum),
        "service" => Some(Kind::Service),
        "package" => Some(Kind::Package),
        "member" => Some(Kind::Member),
        _ => None,
    }
}

// What protoc would say of what was found.
fn judged(alloc: Global, wanted: Wanted, entry: &Entry) -> Result<String, AllocError> {
    match (wanted, entry.kind) {
        (Wanted::AType, Kind::Message | Kind::Enum) | (Wanted::Anything, Kind::Message) => {
            format!(in alloc; ".{}", entry.full_name)
        }
        (Wanted::AType, _) => String::from_str(alloc, "not a type"),
        (Wanted::Anything, _) => String::from_str(alloc, "not a message"),
    }
}

// What a tree of the same names finds, if each scope is among them.
fn found_in_tree(listed: &Listed, wanted: Wanted, name: &str, user: &str) -> Option<usize> {
    let nested = Nested::new(listed)?;
    let scope = enclosing(user).and_then(|scope| listed.find("", scope));
    resolve_in(&nested, wanted, name, scope)
}

fn found(
    alloc: Global,
    listed: &Listed,
    wanted: Wanted,
    name: &str,
    user: &str,
) -> Result<String, AllocError> {
    let place = resolve(listed, wanted, name, user);
    if place != found_in_tree(listed, wanted, name, user) {
        return String::from_str(alloc, "two answers");
    }
    match place.and_then(|place| listed.entries.get(place)) {
        Some(entry) => judged(alloc, wanted, entry),
        None => String::from_str(alloc, "not defined"),
    }
}

fn are_alike(alloc: Global, one: &str, other: &str) -> Result<String, AllocError> {
    let one = without_case(alloc, one)?;
    let other = without_case(alloc, other)?;
    String::from_str(alloc, if one == other { "alike" } else { "different" })
}

fn declare(alloc: Global, listed: &mut Listed, kind: Kind, name: &str) -> Result<(), AllocError> {
    let full_name = String::from_str(alloc, name)?;
    listed.entries.push(Entry { full_name, kind })?;
    Ok(())
}

/// Answers one line, or declares what it declares.
pub(crate) fn answer(
    alloc: Global,
    listed: &mut Listed,
    line: &str,
) -> Result<Option<String>, AllocError> {
    let Some((verb, rest)) = line.split_once(' ') else {
        listed.entries.clear();
        return Ok(None);
    };
    if let Some(kind) = kind_of(verb) {
        declare(alloc, listed, kind, rest)?;
        return Ok(None);
    }
    let (name, user) = rest.split_once(' ').unwrap_or((rest, ""));
    let user = user.strip_prefix("in ").unwrap_or(user);
    let text = match verb {
        "type" => found(alloc, listed, Wanted::AType, name, user)?,
        "anything" => found(alloc, listed, Wanted::Anything, name, user)?,
        "json" => json_name(alloc, name)?,
        _ => are_alike(alloc, name, user)?,
    };
    format!(in alloc; "{line}: {text}").map(Some)
}
