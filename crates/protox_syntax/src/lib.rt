//! Reads the tokens of a source into its syntax tree.
#![tactic(auto)]

mod checks;
mod expected_token;
mod fault_list;
mod front;
mod last_part;
pub mod laws;
pub mod parse;
mod parts;
mod recovery;
mod some_part;
mod statement_loop;
pub mod statement_types;
mod statements;
pub mod taking;
