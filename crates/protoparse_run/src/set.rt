//! The set of descriptors that is written.

ghost use Rattle.std.specs.Prelude.{◌≡◌, [], ◌∷◌, ◌++◌, if◌then◌else◌};
ghost use Rattle.protox_encode.specs.Messages.{file_set};
ghost use Rattle.protox_encode.specs.Wire.{message};

use crate::complaints::complain;
use crate::floats::HasDoubles;
use protox_encode::{EncodeError, encode_entry};
use protox_parse::descriptor::FileDescriptorProto;
use std::alloc::Global;
use std::io::Write;

// Says that a double of the file is no float's text.
fn complain_of_double<E: Write>(alloc: Global, err: &mut E, path: &str, text: &str) {
    match format!(in alloc; "the value of an option is no float, and has no bytes: {text}") {
        Ok(why) => complain(alloc, err, path, why.as_str()),
        Err(_) => complain(alloc, err, path, "out of memory"),
    };
}

// Says why a file has no bytes.
fn complain_of_bytes<E: Write>(
    alloc: Global,
    err: &mut E,
    path: &str,
    file: &FileDescriptorProto,
    error: EncodeError,
) {
    match error {
        EncodeError::TooLarge => {
            complain(alloc, err, path, "its descriptor takes 2 GiB or more");
        }
        EncodeError::NotAFloat => {
            complain_of_double(alloc, err, path, file.odd_double().unwrap_or(""));
        }
        EncodeError::OutOfMemory => {
            complain(alloc, err, path, "out of memory");
        }
    }
}

/// Appends the bytes of a set with this file alone, and returns true. (Sets one after the other are
/// one set of all their files.) If the file has no bytes, it writes why to `err`, leaves the set as it
/// is, and returns false: memory ran out, the bytes would be 2 GiB or more, or a double of an option
/// is no float.
pub fn add_to_set<E: Write>(
    alloc: Global,
    err: &mut E,
    set: &mut Vec<u8>,
    path: &str,
    file: &FileDescriptorProto,
) -> bool
    ensures { set.new.items ≡ (if result then set.old.items ++ message (file_set (file.now ∷ [])) else set.old.items) }
{
    match encode_entry(alloc, file) {
        Ok(bytes) => {
            let added = set.extend_from_slice(bytes.as_slice()).is_ok();
            if !added {
                complain(alloc, err, path, "out of memory");
            }
            added
        }
        Err(error) => {
            complain_of_bytes(alloc, err, path, file, error);
            false
        }
    }
}
