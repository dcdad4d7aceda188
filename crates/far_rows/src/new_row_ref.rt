// A view of a new row, read cell by cell.
ghost use Rattle.std.specs.Prelude.{◌≡◌, length};
ghost use Rattle.far_types.specs.Cells.{cells_of};
ghost use Rattle.far_rows.specs.ColumnIndexes.{AreColumnIndexes, row_of};

use super::column_index::ColumnIndex;
use super::new_row::NewRow;
use far_types::{CellRef, LendCells};
use std::marker::Model;

/// A view of a new row that copies nothing: it borrows each cell when it is read. Contracts see the list of the
/// cells.
#[derive(Drop)]
pub struct NewRowRef<'a> {
    values: &'a NewRow,
    column_indexes: &'a [ColumnIndex],
}

impl<'a> Model for NewRowRef<'a> {
    ghost use Rattle.std.specs.Prelude.{List, length};
    ghost use Rattle.far_types.specs.declared.cell.Cell.{Cell};
    ghost use Rattle.far_rows.specs.ColumnIndexes.{AreColumnIndexes, row_of};

    ghost Value = { List Cell };

    ghost view = { λ row. row_of row.column_indexes.now row.values.now };

    ghost invariant = { λ row. AreColumnIndexes row.column_indexes.now
        (length row.values.now.numbers) (length row.values.now.texts) };
}

impl<'a> NewRowRef<'a> {
    // Makes a view of these values for columns with these indexes.
    #[inline(always)]
    pub(crate) fn new(values: &'a NewRow, column_indexes: &'a [ColumnIndex]) -> NewRowRef<'a>
        requires { AreColumnIndexes column_indexes.now (length values.now.numbers)
            (length values.now.texts) }
        ensures { result ≡ row_of column_indexes.now values.now }
    {
        NewRowRef {
            values,
            column_indexes,
        }
    }
}

impl<'a> LendCells for NewRowRef<'a> {
    ghost cells = { cells_of };

    #[inline(always)]
    fn cell(&self, column: u32) -> Option<CellRef<'_>> {
        let column_index = self.column_indexes.get(column as usize)?;
        Some(self.values.cell(*column_index))
    }
}
