//! Cuts a Protocol Buffers source into tokens, and keeps them in a table.
#![tactic(auto)]

mod groups;
mod late_groups;
pub mod laws;
pub mod lex;
mod row_list;
mod shared_gaps;
mod shared_rows;
mod table_draft;
mod token_table;

pub use protox_comments::comments;
pub use protox_fault::error;
