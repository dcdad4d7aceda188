// A row whose columns are found once: its cells, borrowed in place.
ghost use Rattle.std.specs.Prelude.{◌≡◌, ◌<◌, ◌≤◌, [], ◌∷◌, ◌++◌, length, slice_get, slice_set, option_map};
ghost use Rattle.far_types.specs.Cells.{cells_of};
ghost use Rattle.far_types.specs.Lent.{lent_cell};

use super::cell_ref::CellRef;
use super::lend_cells::LendCells;
use super::row::Row;
use std::marker::Model;

/// The cells of a row, each borrowed in place, so that the row's columns are found once for all its readers.
///
/// It has at most 16 cells, since a table has at most 16 columns. Nothing here allocates. Contracts see the list of the cells.
#[derive(Drop)]
pub struct LentRow<'a> {
    cells: [CellRef<'a>; 16],
    width: usize,
}

impl<'a> Model for LentRow<'a> {
    ghost use Rattle.std.specs.Prelude.{List, ◌≡◌, ◌≤◌, map, take, length};
    ghost use Rattle.far_types.specs.declared.cell.Cell.{Cell};
    ghost use Rattle.far_types.specs.Lent.{lent_cell};

    ghost Value = { List Cell };

    ghost view = { λ row. map lent_cell (take row.width row.cells) };

    ghost invariant = { λ row. (row.width ≤ 16) × (length row.cells ≡ 16) };
}

impl<'a> LentRow<'a> {
    /// Returns a row without cells.
    #[inline(always)]
    pub fn new() -> LentRow<'a>
        ensures { result ≡ [] }
    {
        LentRow {
            cells: [CellRef::Missing; 16],
            width: 0,
        }
    }

    /// Borrows the cells of a row of at most 16 columns in place.
    pub fn of_row(row: &'a Row) -> LentRow<'a>
        requires { length row.now ≤ 16 }
        ensures { result ≡ row.now }
    {
        let mut lent = LentRow::new();
        for cell in row.as_slice() {
            lent.push(cell.lend());
        }
        lent
    }

    /// Returns how many cells the row has: at most 16.
    #[inline(always)]
    pub fn len(&self) -> usize
        ensures len { result ≡ length self.now }
        ensures within { length self.now ≤ 16 }
    {
        self.width
    }

    /// Returns the cell of a column, or `None` if the row has no such column.
    #[inline(always)]
    pub fn get(&self, column: usize) -> Option<CellRef<'a>>
        ensures { option_map lent_cell result ≡ slice_get self.now column }
    {
        if column < self.width {
            Some(self.cells[column])
        } else {
            None
        }
    }

    /// Appends a cell.
    #[inline(always)]
    pub fn push(&mut self, cell: CellRef<'a>)
        requires { length self.old < 16 }
        ensures { self.new ≡ self.old ++ lent_cell cell.entry ∷ [] }
    {
        self.cells[self.width] = cell;
        self.width += 1;
    }

    /// Returns the row with the cell of a column replaced, or unchanged if there is no such column.
    #[inline(always)]
    pub fn with(self, column: usize, cell: CellRef<'a>) -> LentRow<'a>
        ensures { result ≡ slice_set self.entry column (lent_cell cell.entry) }
    {
        let mut row = self;
        if column < row.width {
            row.cells[column] = cell;
        }
        row
    }
}

impl<'a> LendCells for LentRow<'a> {
    ghost cells = { cells_of };

    #[inline(always)]
    fn cell(&self, column: u32) -> Option<CellRef<'_>> {
        self.get(column as usize)
    }
}
