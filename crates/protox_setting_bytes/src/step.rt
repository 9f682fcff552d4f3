/// A field whose type is a message, on the way to the field that a statement sets.
#[derive(Clone, Copy, PartialEq, Debug)]
pub struct Step {
    /// The number of the field.
    pub number: u32,
    /// Whether it is a group: that ends with a mark, and has no length in front.
    pub is_group: bool,
}
