//! The options.

/// What an option is about.
#[derive(Clone, Copy)]
pub(crate) enum Flag {
    Folders,
    Set,
    Dependencies,
    Imports,
    SourceInfo,
    FatalWarnings,
    Format,
    // taken, and without any effect
    Ignored,
    Help,
    Version,
    Unknown,
}

/// What an option is about.
pub(crate) fn flag_of(option: &str) -> Flag {
    match option {
        "-I" | "--proto_path" => Flag::Folders,
        "-o" | "--descriptor_set_out" => Flag::Set,
        "--dependency_out" => Flag::Dependencies,
        "--include_imports" => Flag::Imports,
        "--include_source_info" => Flag::SourceInfo,
        "--fatal_warnings" => Flag::FatalWarnings,
        "--error_format" => Flag::Format,
        "--experimental_allow_proto3_optional" => Flag::Ignored,
        "-h" | "--help" => Flag::Help,
        "--version" => Flag::Version,
        _ => Flag::Unknown,
    }
}

/// Whether the word behind an option is its value, if none stands in its own word.
pub(crate) fn takes_value(option: &str) -> bool {
    match flag_of(option) {
        Flag::Imports
        | Flag::SourceInfo
        | Flag::FatalWarnings
        | Flag::Ignored
        | Flag::Help
        | Flag::Version => false,
        _ => true,
    }
}
