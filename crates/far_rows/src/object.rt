// The objects of a table.

/// An object of a table: its number among the objects of numbers, or among the objects of texts.
#[derive(Clone, Copy, Debug, PartialEq, Eq)]
pub enum Object {
    /// An object of numbers.
    Number(u32),
    /// An object of texts, whose elements are bytes.
    Text(u32),
}
