// Borrowed row groups of columns.

/// The borrowed values of a row group of a column, one for each used place. `specs/Lending.antt` defines their cells
/// (`cells_lent`).
#[derive(Clone, Copy, Debug)]
pub enum LentColumn<'a> {
    /// For a number column.
    Numbers(&'a [Option<i64>]),
    /// For a text column: the far form of its texts.
    Form(&'a [u8]),
}
