//! Messages as they are printed.

use protox_lexeme::token::Token;
use protox_text_format::{Item, Piece};
use std::alloc::Global;
use std::io::{self, Write};

// The index of the item with the name of the last field, and those for the messages that are open:
// each value of a list has the name of its field in front.
#[derive(Drop)]
struct Names {
    last: usize,
    outer: Vec<usize>,
}

// A byte of a string, where it can be printed.
fn write_byte<W: Write>(out: &mut W, byte: u8) -> io::Result<()> {
    write!(out, "{}", char::from(byte))
}

fn write_bytes<W: Write>(out: &mut W, bytes: &[u8]) -> io::Result<()> {
    for byte in bytes {
        write_byte(out, *byte)?;
    }
    Ok(())
}

// The strings of a value, joined.
fn write_strings<W: Write>(out: &mut W, value: &[Piece<'_>]) -> io::Result<()> {
    write!(out, "\"")?;
    for piece in value {
        if let Token::StringLiteral(bytes) = &piece.token {
            write_bytes(out, bytes.as_slice())?;
        }
    }
    write!(out, "\"")
}

fn write_pieces<W: Write>(out: &mut W, pieces: &[Piece<'_>]) -> io::Result<()> {
    for piece in pieces {
        write!(out, "{}", piece.token)?;
    }
    Ok(())
}

// The name that is the item with an index.
fn write_name<W: Write>(out: &mut W, items: &[Item<'_, '_>], index: usize) -> io::Result<()> {
    let Some(item) = items.get(index) else {
        return Ok(());
    };
    match *item {
        Item::Name(name, _) => write_pieces(out, name),
        _ => Ok(()),
    }
}

fn write_scalar<W: Write>(out: &mut W, value: &[Piece<'_>]) -> io::Result<()> {
    write!(out, ": ")?;
    match value {
        [
            Piece {
                token: Token::StringLiteral(_),
                ..
            },
            ..
        ] => write_strings(out, value)?,
        _ => write_pieces(out, value)?,
    }
    write!(out, " ")
}

fn write_open<W: Write>(out: &mut W, names: &mut Names, items: &[Item<'_, '_>]) -> io::Result<()> {
    write_name(out, items, names.last)?;
    write!(out, " {{ ")?;
    names.outer.push(names.last)?;
    Ok(())
}

fn write_close<W: Write>(out: &mut W, names: &mut Names) -> io::Result<()> {
    if let Some(name) = names.outer.pop() {
        names.last = name;
    }
    write!(out, "}} ")
}

fn write_item<W: Write>(
    out: &mut W,
    names: &mut Names,
    items: &[Item<'_, '_>],
    index: usize,
) -> io::Result<()> {
    let Some(item) = items.get(index) else {
        return Ok(());
    };
    match *item {
        Item::Name(_, _) => {
            names.last = index;
            Ok(())
        }
        Item::Scalar(value) => {
            write_name(out, items, names.last)?;
            write_scalar(out, value)
        }
        Item::Open => write_open(out, names, items),
        Item::Close => write_close(out, names),
        _ => Ok(()),
    }
}

fn write_all<W: Write>(out: &mut W, names: &mut Names, items: &[Item<'_, '_>]) -> io::Result<()> {
    for index in 0..items.len() {
        write_item(out, names, items, index)?;
    }
    writeln!(out, ".")
}

/// A message with one space between what it is made of. Lists are told value by value.
pub(crate) fn write_items<W: Write>(
    alloc: Global,
    out: &mut W,
    items: &[Item<'_, '_>],
) -> io::Result<()> {
    let mut names = Names {
        last: 0,
        outer: Vec::new(alloc),
    };
    write_all(out, &mut names, items)
}
