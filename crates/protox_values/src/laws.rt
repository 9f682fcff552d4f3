//! Laws of values on the wire. Each is a function that does nothing. Its contract is the law.

ghost use Rattle.protox_values.specs.Enums.{EnumsReadBack};
ghost use Rattle.protox_values.specs.Wire.{ScalarsReadBack};

/// Each value of a scalar type is read back from what lies on the wire for it.
#[tactic(auto, using(crate::proofs::Back::scalars))]
pub fn scalars_read_back()
    ensures { ScalarsReadBack }
{}

/// Each number of 32 bits with a sign is read back from what lies on the wire for it as the number
/// of an enum's value.
#[tactic(auto, using(crate::proofs::Back::enums))]
pub fn enums_read_back()
    ensures { EnumsReadBack }
{}
