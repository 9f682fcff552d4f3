//! Why statements set nothing.

use protox_aggregate::AggregateFault;
use protox_fault::error::Span;
use protox_settings::{NameFault, SettingFault};
use protox_text_format::TextFault;

/// What is wrong with a statement.
#[derive(Clone, PartialEq, Debug, Drop)]
pub enum StatementFaultKind {
    /// Its name leads to no field.
    Name(NameFault),
    /// A statement before it set the field, or a field inside of it.
    AlreadySet,
    /// Its value is none of the field's type.
    Value(SettingFault),
    /// What stands at this place of its text in braces, in byte offsets, is no token, or has a
    /// fault as a token.
    Token(Span),
    /// Its text in braces is no message in text format.
    Text(TextFault),
    /// The message in braces says nothing.
    Aggregate(AggregateFault),
}

/// What is wrong with the statements of an options message.
#[derive(Clone, PartialEq, Debug, Drop)]
pub struct StatementFault {
    /// The index of the first statement that is wrong, from 0.
    pub index: usize,
    /// What is wrong with it.
    pub kind: StatementFaultKind,
}

/// Why there is no answer about statements.
#[derive(Clone, PartialEq, Debug, Drop)]
pub enum InterpretFailure {
    /// A statement is wrong.
    Fault(StatementFault),
    /// Memory ran out.
    OutOfMemory,
}

// Why there is no answer about one statement.
#[derive(Drop)]
pub(crate) enum Refusal {
    Fault(StatementFaultKind),
    OutOfMemory,
}
