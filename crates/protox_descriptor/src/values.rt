//! A text and two kinds of lists. Contracts see a text as the list of its bytes, and a list as its
//! elements. So a tree of them is plain data in a contract.

mod items;
mod numbers;
mod text;

pub use items::Items;
pub use numbers::Numbers;
pub use text::Text;
