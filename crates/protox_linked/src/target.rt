//! What a name stands for.

use protox_descriptor::values::Text;
use protox_scopes::Kind;

/// What a name stands for.
#[derive(Drop)]
pub struct Target {
    /// A dot, and its full name.
    pub name: Text,
    /// Its kind.
    pub kind: Kind,
}
