// The row of a place, whose columns are looked up once and whose numbers are read on demand.
ghost use Rattle.std.specs.Prelude.{◌≡◌, ◌<◌, [], ◌∷◌, ◌++◌, length, slice_get, option_map};
ghost use Rattle.far_types.specs.Cells.{cells_of};
ghost use Rattle.far_types.specs.Lent.{lent_cell};
ghost use Rattle.far_rows.specs.PlaceRows.{place_cell};

use far_types::{CellRef, LendCells};
use std::marker::Model;

/// A cell of a place.
#[derive(Clone, Copy)]
pub(crate) enum PlaceCell<'a> {
    /// A number that was not read yet.
    Number(&'a Option<i64>),
    /// A cell that was read.
    Lent(CellRef<'a>),
}

impl<'a> PlaceCell<'a> {
    // Reads the cell.
    #[inline(always)]
    fn lend(self) -> CellRef<'a>
        ensures { lent_cell result ≡ place_cell self.entry }
    {
        match self {
            PlaceCell::Number(number) => CellRef::of_int(*number),
            PlaceCell::Lent(cell) => cell,
        }
    }
}

/// The row of a place, for which each column was looked up once for all readers. It reads a number only on demand, so the numbers
/// of columns that nobody reads are not touched. Contracts see the list of the cells.
///
/// It has at most 16 cells, since a table has at most 16 columns. Nothing here allocates.
#[derive(Drop)]
pub struct PlaceRow<'a> {
    cells: [PlaceCell<'a>; 16],
    width: usize,
}

impl<'a> Model for PlaceRow<'a> {
    ghost use Rattle.std.specs.Prelude.{List, ◌≡◌, ◌≤◌, map, take, length};
    ghost use Rattle.far_types.specs.declared.cell.Cell.{Cell};
    ghost use Rattle.far_rows.specs.PlaceRows.{place_cell};

    ghost Value = { List Cell };

    ghost view = { λ row. map place_cell (take row.width row.cells) };

    ghost invariant = { λ row. (row.width ≤ 16) × (length row.cells ≡ 16) };
}

impl<'a> PlaceRow<'a> {
    /// Makes a row without cells. Allocates nothing.
    #[inline(always)]
    pub fn new() -> PlaceRow<'a>
        ensures { result ≡ [] }
    {
        PlaceRow {
            cells: [PlaceCell::Lent(CellRef::Missing); 16],
            width: 0,
        }
    }

    // Appends a cell.
    #[inline(always)]
    pub(crate) fn push(&mut self, cell: PlaceCell<'a>)
        requires { length self.old < 16 }
        ensures { self.new ≡ self.old ++ place_cell cell.entry ∷ [] }
    {
        self.cells[self.width] = cell;
        self.width += 1;
    }

    /// Returns the cell of a column, or `None` if the row has no such column. Allocates nothing.
    #[inline(always)]
    pub fn get(&self, column: usize) -> Option<CellRef<'a>>
        ensures { option_map lent_cell result ≡ slice_get self.now column }
    {
        if column < self.width {
            Some(self.cells[column].lend())
        } else {
            None
        }
    }
}

impl<'a> LendCells for PlaceRow<'a> {
    ghost cells = { cells_of };

    #[inline(always)]
    fn cell(&self, column: u32) -> Option<CellRef<'_>> {
        self.get(column as usize)
    }
}
