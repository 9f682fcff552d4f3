use protox_descriptor::values::Items;

/// What a field is set to, as it lies on the wire behind the field's number.
#[derive(PartialEq, Debug, Drop)]
pub enum SettingValue {
    /// A number, written in groups of seven bits.
    Varint(u64),
    /// Four bytes, the lowest first.
    Four(u32),
    /// Eight bytes, the lowest first.
    Eight(u64),
    /// Bytes with their length in front.
    Bytes(Items<u8>),
}
