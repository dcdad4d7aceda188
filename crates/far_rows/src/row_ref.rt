// A view of the row of a place, read cell by cell.
ghost use Rattle.std.specs.Prelude.{◌≡◌, ◌<◌, ◌/◌, None, length, slice_get, option_map};
ghost use Rattle.far_types.specs.FirstOf.{first_of};
ghost use Rattle.far_types.specs.Lent.{lent_cell};
ghost use Rattle.far_rows.specs.Rows.{all_cells};
ghost use Rattle.far_rows.specs.Places.{row_at};
ghost use Rattle.far_rows.specs.Refusing.{absents};

use super::rows::Rows;
use far_store::FarTickets;
use far_types::CellRef;
use std::marker::Model;

/// A view of the row of a place whose objects are all local. It copies nothing: it borrows each cell when it is read.
/// Contracts see the list of the cells.
#[derive(Drop)]
pub struct RowRef<'a, S: FarTickets> {
    rows: &'a Rows<S>,
    place: usize,
}

impl<'a, S: FarTickets> Model for RowRef<'a, S> {
    ghost use Rattle.std.specs.Prelude.{List, ◌≡◌, ◌<◌, ◌/◌, None, length};
    ghost use Rattle.far_types.specs.declared.cell.Cell.{Cell};
    ghost use Rattle.far_types.specs.FirstOf.{first_of};
    ghost use Rattle.far_rows.specs.Rows.{all_cells};
    ghost use Rattle.far_rows.specs.Places.{row_at};
    ghost use Rattle.far_rows.specs.Refusing.{absents};

    ghost Value = { List Cell };

    ghost view = { λ row. row_at (all_cells S.content row.rows.now) row.place };

    ghost invariant = { λ row. (row.place < length row.rows.now.alive)
        × (first_of (absents row.rows.now (row.place / row.rows.now.size)) ≡ None) };
}

impl<'a, S: FarTickets> RowRef<'a, S> {
    // Makes a view of the row of a place whose objects are all local.
    #[inline(always)]
    pub(crate) fn new(rows: &'a Rows<S>, place: usize) -> RowRef<'a, S>
        requires place { place < length rows.now.alive }
        requires here { first_of (absents rows.now (place / rows.now.size)) ≡ None }
        ensures { result ≡ row_at (all_cells S.content rows.now) place }
    {
        RowRef { rows, place }
    }

    /// Returns how many cells the row has. Allocates nothing.
    #[inline(always)]
    pub fn len(&self) -> usize
        ensures { result ≡ length self.now }
    {
        self.rows.column_indexes().len()
    }

    /// Borrows the cell of a column, or returns `None` if the row has no such column. Allocates nothing.
    #[inline(always)]
    pub fn get(&self, column: usize) -> Option<CellRef<'_>>
        ensures { option_map lent_cell result ≡ slice_get self.now column }
    {
        let column_index = self.rows.column_indexes().get(column)?;
        let Ok(cell) = self.rows.cell_in(column, *column_index, self.place) else {
            unreachable!()
        };
        Some(cell)
    }
}
