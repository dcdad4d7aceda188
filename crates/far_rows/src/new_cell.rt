// A new value for a cell.
ghost use Rattle.std.specs.Prelude.{◌≡◌, true};
ghost use Rattle.far_types.specs.Cells.{is_of_kind};
ghost use Rattle.far_types.specs.Lent.{lent_cell, text_cell};
ghost use Rattle.far_rows.specs.Setting.{cell_of, kind_in};

use far_types::{Cell, CellRef, Kind, Text};

/// A new value for a cell: a number or a text, each of which may be missing.
#[derive(Drop, Debug)]
pub enum NewCell {
    /// For a number column.
    Number(Option<i64>),
    /// For a text column.
    Text(Option<Text>),
}

impl NewCell {
    /// Converts a cell of this kind, or a missing one, into a value for a column of this kind. Allocates nothing.
    pub fn new(kind: Kind, cell: Cell) -> NewCell
        requires { is_of_kind kind cell ≡ true }
        ensures cell { cell_of result ≡ cell }
        ensures kind { kind_in result ≡ kind }
    {
        match (kind, cell) {
            (Kind::Int, Cell::Int(number)) => NewCell::Number(Some(number)),
            (Kind::Int, Cell::Missing) => NewCell::Number(None),
            (Kind::Text, Cell::Text(text)) => NewCell::Text(Some(text)),
            (Kind::Text, Cell::Missing) => NewCell::Text(None),
            _ => unreachable!(),
        }
    }

    /// Borrows the value as a cell. Allocates nothing.
    pub fn lend(&self) -> CellRef<'_>
        ensures { lent_cell result ≡ cell_of self.now }
    {
        match self {
            NewCell::Number(number) => CellRef::of_int(*number),
            NewCell::Text(text) => text_ref(text),
        }
    }
}

// Borrows a text, which may be missing, as a cell.
#[inline(always)]
pub(crate) fn text_ref(text: &Option<Text>) -> CellRef<'_>
    ensures { lent_cell result ≡ text_cell text.now }
{
    match text {
        Some(text) => CellRef::Text(text.as_str()),
        None => CellRef::Missing,
    }
}
