//! What may be wrong with words.

use std::fmt;

/// Words that ask for nothing that can be done. It is shown in protoc's words, but for `EmptyWord`
/// and `NoSet`.
#[derive(Clone, Copy, Debug)]
pub enum Wrong<'a> {
    /// No file is named.
    NoFile,
    /// A word is empty.
    EmptyWord,
    /// There is no such option.
    Unknown(&'a str),
    /// The option needs a value.
    NoValue(&'a str),
    /// The value of the option is empty.
    EmptyValue(&'a str),
    /// The option is there twice.
    Twice(&'a str),
    /// There is no such format of errors.
    Format(&'a str),
    /// A folder has no path.
    EmptyFolder,
    /// What the set was made of is asked for, and no set is.
    NoSet,
    /// What the set was made of is asked for, of several files.
    SeveralFiles,
}

impl fmt::Display for Wrong<'_> {
    fn fmt<W: fmt::Write>(&self, f: &mut fmt::Formatter<W>) -> fmt::Result {
        match self {
            Wrong::NoFile => f.write_str("Missing input file."),
            Wrong::EmptyWord => f.write_str("A word is empty."),
            Wrong::Unknown(option) => write!(f, "Unknown flag: {option}"),
            Wrong::NoValue(option) => write!(f, "Missing value for flag: {option}"),
            Wrong::EmptyValue(option) => write!(f, "{option} requires a non-empty value."),
            Wrong::Twice(option) => write!(f, "{option} may only be passed once."),
            Wrong::Format(format) => write!(f, "Unknown error format: {format}"),
            Wrong::EmptyFolder => f.write_str(
                "--proto_path passed empty directory name.  (Use \".\" for current directory.)",
            ),
            Wrong::NoSet => { f.write_str("--dependency_out needs a set (--descriptor_set_out).") }
            Wrong::SeveralFiles => f.write_str(
                "Can only process one input file when using --dependency_out=FILE.",
            ),
        }
    }
}
