//! Tokens, the lexer, the table of tokens, and the keywords. The value of each constant is its own
//! name in small letters.

pub use crate::token_table::TokenTable;
pub use protox_lexeme::lexer::Lexer;
pub use protox_lexeme::token::{EqFloat, Token};

/// The word `syntax`.
pub const SYNTAX: &str = "syntax";

/// The word `package`.
pub const PACKAGE: &str = "package";

/// The word `import`.
pub const IMPORT: &str = "import";

/// The word `weak`.
pub const WEAK: &str = "weak";

/// The word `public`.
pub const PUBLIC: &str = "public";

/// The word `enum`.
pub const ENUM: &str = "enum";

/// The word `option`.
pub const OPTION: &str = "option";

/// The word `service`.
pub const SERVICE: &str = "service";

/// The word `rpc`.
pub const RPC: &str = "rpc";

/// The word `stream`.
pub const STREAM: &str = "stream";

/// The word `returns`.
pub const RETURNS: &str = "returns";

/// The word `extend`.
pub const EXTEND: &str = "extend";

/// The word `message`.
pub const MESSAGE: &str = "message";

/// The word `optional`.
pub const OPTIONAL: &str = "optional";

/// The word `required`.
pub const REQUIRED: &str = "required";

/// The word `repeated`.
pub const REPEATED: &str = "repeated";

/// The word `map`.
pub const MAP: &str = "map";

/// The word `oneof`.
pub const ONEOF: &str = "oneof";

/// The word `group`.
pub const GROUP: &str = "group";

/// The word `double`.
pub const DOUBLE: &str = "double";

/// The word `float`.
pub const FLOAT: &str = "float";

/// The word `int32`.
pub const INT32: &str = "int32";

/// The word `int64`.
pub const INT64: &str = "int64";

/// The word `uint32`.
pub const UINT32: &str = "uint32";

/// The word `uint64`.
pub const UINT64: &str = "uint64";

/// The word `sint32`.
pub const SINT32: &str = "sint32";

/// The word `sint64`.
pub const SINT64: &str = "sint64";

/// The word `fixed32`.
pub const FIXED32: &str = "fixed32";

/// The word `fixed64`.
pub const FIXED64: &str = "fixed64";

/// The word `sfixed32`.
pub const SFIXED32: &str = "sfixed32";

/// The word `sfixed64`.
pub const SFIXED64: &str = "sfixed64";

/// The word `bool`.
pub const BOOL: &str = "bool";

/// The word `string`.
pub const STRING: &str = "string";

/// The word `bytes`.
pub const BYTES: &str = "bytes";

/// The word `reserved`.
pub const RESERVED: &str = "reserved";

/// The word `extensions`.
pub const EXTENSIONS: &str = "extensions";

/// The word `to`.
pub const TO: &str = "to";

/// The word `max`.
pub const MAX: &str = "max";
