//! Laws of reading. Each is a function that does nothing. Its contract is the law.

ghost use Rattle.protox_reading.specs.Laws.{
  MessagesReadBack,
  NamedValues,
  NumbersAreRead,
  OneFound,
  OneReading,
  OneTaken,
  OptionsReadBack,
  ValuesReadBack,
};

/// A number below 2 ^ 64 is read by the rule of the wire format.
#[tactic(auto, using(crate::proofs::Numbers::numbers_are_read))]
pub fn numbers_are_read()
    ensures { NumbersAreRead }
{}

/// Bytes are read as one list of fields at most.
#[tactic(auto, using(crate::proofs::Apart::one_reading))]
pub fn one_reading()
    ensures { OneReading }
{}

/// So at most one list of payloads is found at a path.
#[tactic(auto, using(crate::proofs::Apart::one_found))]
pub fn one_found()
    ensures { OneFound }
{}

/// In the bytes of a message the payloads are found, at each path, that its parts say there.
#[tactic(auto, using(crate::proofs::Messages::messages_read_back))]
pub fn messages_read_back()
    ensures { MessagesReadBack }
{}

/// At most one list of values of a kind is found at a path.
pub fn one_taken()
    ensures { OneTaken }
{}

/// So are the values, whether they are packed or not.
#[tactic(auto, using(crate::proofs::Taken::values_read_back))]
pub fn values_read_back()
    ensures { ValuesReadBack }
{}

/// What a statement gives to the last field of its name is said at the path of the name.
#[tactic(auto, using(crate::proofs::Named::named_values))]
pub fn named_values()
    ensures { NamedValues }
{}

/// In the bytes that `interpret` answers the values and payloads are found, at each path, that the
/// statements say there, in their order.
#[tactic(auto, using(crate::proofs::Options::options_read_back))]
pub fn options_read_back()
    ensures { OptionsReadBack }
{}
