//! Lexemes that take no memory.

use protox_lex::laws::five_lexemes;
use protox_lex::lex::*;
use std::borrow::{CowSlice, CowStr};
use std::test::Fail;

fn is_token(found: &Option<Result<Token<'static>, ()>>, expected: &Token<'_>) -> bool {
    matches!(found, Some(Ok(token)) if token == expected)
}

#[test]
fn lexemes_without_memory(rt: HostRuntime) -> Result<(), Fail> {
    let found = five_lexemes(rt.alloc());
    let float = EqFloat(CowStr::Borrowed(".5"));
    let all = is_token(&found[0], &Token::Ident("foo"))
        && is_token(&found[1], &Token::StringLiteral(CowSlice::Borrowed(b"bar")))
        && is_token(&found[2], &Token::IntLiteral(12))
        && is_token(&found[3], &Token::FloatLiteral(float))
        && is_token(&found[4], &Token::LineComment(CowStr::Borrowed(" c\n")));
    assert!(rt; all);
    Ok(())
}
