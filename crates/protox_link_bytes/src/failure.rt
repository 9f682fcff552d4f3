//! Why there is no linked set, or none in bytes.

/// Why files have no linked set.
#[derive(Drop)]
pub enum LinkSourcesFailure {
    /// Something is wrong with the files. These are its records: of the faults of syntax of all files
    /// if there are some, else of the errors of linking (`protox_link_records`).
    Refused(Vec<u8>),
    /// Memory ran out.
    OutOfMemory,
}

/// Why there are no bytes of a linked set.
#[derive(Drop)]
pub enum LinkBytesFailure {
    /// Something is wrong with the files. These are its records: of the faults of syntax of all files
    /// if there are some, else of the errors of linking (`protox_link_records`).
    Refused(Vec<u8>),
    /// The bytes would be 2 GiB or more.
    TooLarge,
    /// An option needs a float, and its value is none.
    NotAFloat,
    /// Memory ran out.
    OutOfMemory,
}
