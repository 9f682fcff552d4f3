//! What remains of a state after memory was refused to a call.

use protox_parse::comments::Comments;
use protox_parse::lex::{Lexer, MAX, Token, TokenTable};
use protox_parse::values::{Items, Text};
use std::alloc::{AllocError, Global};
use std::borrow::CowStr;

// Makes each call once more if memory was refused.
fn add_line(comments: &mut Comments, text: &str) -> Result<(), AllocError> {
    if comments.line_comment(CowStr::Borrowed(text)).is_err() {
        comments.line_comment(CowStr::Borrowed(text))?;
    }
    Ok(())
}

fn add_block(comments: &mut Comments, text: &str) -> Result<(), AllocError> {
    if comments.block_comment(CowStr::Borrowed(text)).is_err() {
        comments.block_comment(CowStr::Borrowed(text))?;
    }
    Ok(())
}

fn close(comments: &mut Comments) -> Result<(), AllocError> {
    if comments.flush().is_err() {
        comments.flush()?;
    }
    Ok(())
}

fn fill(comments: &mut Comments) -> Result<(), AllocError> {
    comments.reset();
    add_line(comments, " a\n")?;
    add_line(comments, " b, which is longer than what lies in place\n")?;
    add_block(comments, " c ")?;
    close(comments)?;
    comments.detach();
    add_line(comments, " d\n")
}

// Marks comments: `<` the one that trails, `=` each detached one, `>` the one that leads.
fn push_marked(out: &mut String, mark: &str, text: &Option<Text>) -> Result<(), AllocError> {
    if let Some(text) = text {
        out.push_str(mark)?;
        out.push_str(text.as_str())?;
    }
    Ok(())
}

fn push_detached(out: &mut String, texts: &Items<Text>) -> Result<(), AllocError> {
    for text in texts.as_slice() {
        out.push_str("=")?;
        out.push_str(text.as_str())?;
    }
    Ok(())
}

fn push_all(out: &mut String, comments: &mut Comments) -> Result<(), AllocError> {
    let trailing = comments.take_trailing();
    push_marked(out, "<", &trailing)?;
    let (detached, leading) = comments.take_leading();
    push_detached(out, &detached)?;
    push_marked(out, ">", &leading)
}

/// Writes the comments that a state hands out. A call to which memory was refused has changed
/// nothing: made once more, it gives what it would have given.
pub fn comments_stay(alloc: Global) -> Result<String, AllocError> {
    let mut comments = Comments::new(alloc);
    fill(&mut comments)?;
    let mut out = String::new(alloc);
    push_all(&mut out, &mut comments)?;
    format!(in alloc; "{out:?}")
}

// Whether a lexer that was refused memory says so again, with the same faults.
fn says_so_again(lexer: &mut Lexer<'_>, faults: usize) -> bool {
    let again = lexer.next().is_err();
    again && lexer.next().is_err() && lexer.errors().len() == faults
}

// Takes all lexemes, and counts them. If memory was refused: whether the lexer says so again, with
// the same faults.
fn drained(lexer: &mut Lexer<'_>) -> Result<usize, bool> {
    let mut count: usize = 0;
    for _ in 0..u64::MAX {
        let faults = lexer.errors().len();
        match lexer.next() {
            Ok(Some(_)) => count = count.saturating_add(1),
            Ok(None) => break,
            Err(_) => return Err(says_so_again(lexer, faults)),
        }
    }
    Ok(count)
}

/// How many lexemes and faults there are; each of these lexemes takes memory. If memory was
/// refused, the lexer keeps saying so, and its faults stay.
pub fn lexer_stays(alloc: Global) -> Result<String, AllocError> {
    let mut lexer = Token::lexer(alloc, "'a\\n' 10f 0x1g /* a\nb */ // c\r\n");
    match drained(&mut lexer) {
        Ok(count) => format!(in alloc; "{count} lexemes, {} faults", lexer.errors().len()),
        Err(true) => Err(AllocError),
        Err(false) => String::from_str(alloc, "goes on where memory was refused"),
    }
}

/// Whether the second row of a source is the word that it holds, and whether a row that is not
/// there is.
pub fn keywords(alloc: Global) -> Result<String, AllocError> {
    let table = TokenTable::new(alloc, "@ max")?;
    let word = Token::keyword(MAX);
    let is = matches!(table.row(1), Some(Ok(token)) if *token == word);
    let none = matches!(table.row(2), Some(Ok(token)) if *token == word);
    format!(in alloc; "{is} {none}")
}
