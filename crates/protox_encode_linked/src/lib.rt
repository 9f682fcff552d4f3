//! Descriptors of linked files as bytes, in the wire format of Protocol Buffers. In place of the
//! statements of an options message stands what they set.
//!
//! ```
//! let mut set = OptionBytes::new(alloc);
//! // The options of the first message of the file.
//! set.insert(vec![in alloc; 4, 0, 7]?, bytes)?;
//! let file = encode_linked(alloc, &file, &set)?;
//! ```
#![tactic(auto)]

mod file;
pub mod laws;
mod messages;
mod option_bytes;
mod wire;

pub use crate::file::{encode_linked, encode_linked_entry};
pub use crate::option_bytes::OptionBytes;
