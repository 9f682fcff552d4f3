//! What is answered of the options messages of a file.

use protox_descriptor::values::Numbers;
use protox_encode_linked::OptionBytes;
use protox_interpret::StatementFault;
use protox_moved::Move;

/// What is wrong with the statements of an options message.
#[derive(Clone, PartialEq, Debug, Drop)]
pub enum PlaceFault {
    /// No file of the set declares the type of the options message, as
    /// `google.protobuf.FieldOptions`.
    NoType,
    /// A statement is wrong.
    Statement(StatementFault),
}

/// An options message of which something is wrong.
#[derive(PartialEq, Debug, Drop)]
pub struct OptionsFault {
    /// The path of the options message, from the file's descriptor on, as locations have it.
    pub path: Numbers,
    /// The number of the scope in which what has the options stands. Of a file it is that of its
    /// package. None in the nameless scope.
    pub scope: Option<usize>,
    /// The number of the type of the options message. None if no file of the set declares it.
    pub message: Option<usize>,
    /// What is wrong.
    pub fault: PlaceFault,
}

/// What the statements of a file set, and what is wrong with them.
#[derive(Drop)]
pub struct InterpretedFile {
    /// The bytes of each options message of which no statement is wrong, by its path.
    pub options: OptionBytes,
    /// Where the locations of their statements go: from the path of each statement to that of what
    /// it sets. Of a repeated field that path ends with the index among the values of the field.
    pub moves: Vec<Move>,
    /// What is wrong with the others, in the order in which `walk` visits what has them. What is
    /// wrong with the options of the file as a whole stands behind the rest.
    pub faults: Vec<OptionsFault>,
}
