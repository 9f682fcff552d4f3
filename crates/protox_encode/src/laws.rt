//! Laws of the wire format. Each is a function that does nothing. Its contract is the law.

ghost use Rattle.protox_encode.specs.Exact.{NothingIsLost};
ghost use Rattle.protox_encode.specs.Reading.{NumbersAreApart, OneReading, AreItsFields, FilesHaveRoom, OneMessage, SetsJoin};

/// No encoded number is the beginning of another. So a reader knows where each number ends.
#[tactic(auto, using(crate::proofs::Apart::numbers_are_apart_law))]
pub fn numbers_are_apart()
    ensures { NumbersAreApart }
{}

/// Bytes are the encoding of at most one list of fields. So whoever reads them by the wire format
/// finds the fields that were written, in order, and no others.
#[tactic(auto, using(crate::proofs::Readings::one_reading))]
pub fn one_reading()
    ensures { OneReading }
{}

/// The law on fields applies to every file: each payload of a file has room for its value.
#[tactic(auto, using(crate::proofs::Exactness::files_have_room))]
pub fn files_have_room()
    ensures { FilesHaveRoom }
{}

/// The bytes of a message are the bytes of its fields, in order.
#[tactic(auto, using(crate::proofs::Readings::are_its_fields))]
pub fn are_its_fields()
    ensures { AreItsFields }
{}

/// Two messages of one kind with the same bytes have the same values in each field.
#[tactic(auto, using(crate::proofs::OneKind::one_message))]
pub fn one_message()
    ensures { OneMessage }
{}

/// The bytes of two file sets, one after the other, are the bytes of the set of all their files.
#[tactic(auto, using(crate::proofs::OneKind::sets_join))]
pub fn sets_join()
    ensures { SetsJoin }
{}

/// Two files with the same bytes are the same file, if their signed numbers have 64 bits and no
/// option in them has a double.
#[tactic(auto, using(crate::proofs::Exactness::nothing_is_lost))]
pub fn nothing_is_lost()
    ensures { NothingIsLost }
{}
