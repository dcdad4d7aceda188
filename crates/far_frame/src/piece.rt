// Copies of parts of columns, which the step `Lend` returns.
use far_types::Text;

/// The numbers of adjacent places of one row group.
#[derive(Drop, Debug)]
pub struct IntPiece {
    /// The number of each place, or `None` if it is missing.
    pub values: Vec<Option<i64>>,
    /// Whether each place is alive.
    pub flags: Vec<bool>,
}

/// The texts of adjacent places of one row group.
#[derive(Drop, Debug)]
pub struct TextPiece {
    /// The text of each place, or `None` if it is missing.
    pub values: Vec<Option<Text>>,
    /// Whether each place is alive.
    pub flags: Vec<bool>,
}
