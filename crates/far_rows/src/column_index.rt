// Indexes of columns by kind.

/// Index of a column among the number columns or among the text columns.
#[derive(Clone, Copy, Debug, PartialEq, Eq)]
pub enum ColumnIndex {
    /// Index among the number columns.
    Number(usize),
    /// Index among the text columns.
    Text(usize),
}
