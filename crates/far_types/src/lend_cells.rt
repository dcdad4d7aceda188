// Cells by column.
ghost use Rattle.std.specs.Prelude.{◌≡◌, option_map};
ghost use Rattle.far_types.specs.Cells.{Cells, cells_of};
ghost use Rattle.far_types.specs.Lent.{lent_cell};

use super::cell_ref::CellRef;
use super::row::Row;

/// A lender of a row's cells by column number: a row, or a value that has only the columns that a reader needs.
/// Filters and aggregates read rows through it.
pub trait LendCells {
    /// The cells by column number: `None` if there is no such column.
    ghost cells: { Self → Cells };

    /// Borrows the cell of a column in place. Returns `None` if there is no such column. Allocates nothing.
    fn cell(&self, column: u32) -> Option<CellRef<'_>>
        ensures { option_map lent_cell result ≡ cells self.now column };
}

impl LendCells for Row {
    ghost cells = { cells_of };

    #[inline(always)]
    fn cell(&self, column: u32) -> Option<CellRef<'_>> {
        match self.get(column as usize) {
            Some(cell) => Some(cell.lend()),
            None => None,
        }
    }
}
