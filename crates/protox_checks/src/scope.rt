//! The places where fields stand.

/// What a field stands in: a message, a oneof or an `extend`.
#[derive(Clone, Copy)]
pub(crate) enum Scope {
    InMessage,
    InOneof,
    InExtend,
}
