// A row with one cell changed.
ghost use Rattle.std.specs.Prelude.{◌≡◌};
ghost use Rattle.far_aggregates.specs.Changed.{with_cell_at};
ghost use Rattle.far_types.specs.Lent.{lent_cell};

use far_types::{CellRef, LendCells};

/// A row as it will be with another cell in one of its columns. Neither the row nor its cells are copied.
#[derive(Drop)]
pub struct Changed<'a, R> {
    pub row: &'a R,
    pub column: u32,
    pub cell: CellRef<'a>,
}

impl<'a, R: LendCells> LendCells for Changed<'a, R> {
    ghost cells = { λ changed. with_cell_at changed.column (lent_cell changed.cell)
        (R.cells changed.row.now) };

    #[inline(always)]
    fn cell(&self, column: u32) -> Option<CellRef<'_>> {
        if column == self.column {
            return Some(self.cell);
        }
        self.row.cell(column)
    }
}
