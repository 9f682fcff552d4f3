//! Cuts a Protocol Buffers source into lexemes.
#![tactic(auto)]

mod block_comment;
pub mod bytes;
pub mod class;
mod comment;
mod comment_text;
pub mod fault_list;
pub mod found;
pub mod lexeme_fault;
pub mod lexer;
mod number;
mod piece;
pub mod scan;
mod string;
pub mod token;
