// Checks that the objects of a row group are local, and reads cells in place.
ghost use Rattle.std.specs.Prelude.{◌≡◌, ℕ, ◌∷◌, ◌<◌, ◌/◌, [], length, false, slice_get, option_map, slice_index_or, Some, None, IsTrue, IfOk, OnOk};
ghost use Rattle.std.specs.Option.{option_copied, option_map_or};
ghost use Rattle.far_types.specs.declared.cell.Cell.TheVariants.{Missing};
ghost use Rattle.far_types.specs.FirstOf.{first_of};
ghost use Rattle.far_scopes.specs.Refusing.{refusal_in, absent};
ghost use Rattle.far_columns.specs.Vector.{IsVector};
ghost use Rattle.far_columns.specs.Numbers.{number_lists};
ghost use Rattle.far_texts.specs.Texts.{lists_of, IsTextColumn};
ghost use Rattle.far_rows.specs.declared.column_index.ColumnIndex.TheVariants as column_index;
ghost use Rattle.far_types.specs.Lent.{int_cell, text_cell, lent_cell};
ghost use Rattle.far_rows.specs.ColumnIndexes.{IsColumnIn, column_in};
ghost use Rattle.far_rows.specs.Places.{row_at};
ghost use Rattle.far_rows.specs.PlaceRows.{place_cell};
ghost use Rattle.far_rows.specs.Rows.{all_numbers, all_texts, all_cells};
ghost use Rattle.far_rows.specs.Refusing.{away_at, absent_at, absents, cell_refusal, text_refusal};

use super::Rows;
use crate::column_index::ColumnIndex;
use crate::place_row::{PlaceCell, PlaceRow};
use crate::row_ref::RowRef;
use far_columns::IntColumn;
use far_scopes::Objects;
use far_store::FarTickets;
use far_texts::TextColumn;
use far_types::{CellRef, LentRow, Refusal};

impl<S: FarTickets> Rows<S> {
    /// Checks that all objects of a row group are local. A row group without a used place has no objects. Allocates nothing.
    ///
    /// Refused with `Absent` (16) exactly if an object is away. The refusal names the column and the row group of the first
    /// such object in the order of the columns.
    pub fn here(&self, group: u32) -> Result<(), Refusal>
        ensures { refusal_in result ≡ first_of (absents self.now group) }
    {
        // For the proof: shows that each column index is in range.
        let _len = self.len();
        if self.are_all_local() {
            return Ok(());
        }
        for column_index in self.column_indexes() {
            self.is_here(*column_index, group)?;
        }
        Ok(())
    }

    // Returns whether every object of every column is local, without reading an object. So while no object is away, the cost of
    // `here` does not depend on the number of columns.
    fn are_all_local(&self) -> bool
        ensures { IsTrue result → (g : ℕ) → first_of (absents self.now g) ≡ None }
    {
        // For the proof: shows `AreRows`, and that an object with a list is in use.
        let _len = self.len();
        let _numbers = self.number_objects.number();
        let _texts = self.text_objects.number();
        let numbers = self.number_objects.are_all_local();
        let texts = self.text_objects.are_all_local();
        numbers && texts
    }

    // Checks that the object of a row group of a column is local, if there is one.
    pub(super) fn is_here(&self, column_index: ColumnIndex, group: u32) -> Result<(), Refusal>
        requires { IsColumnIn (length self.now.numbers) (length self.now.texts) column_index }
        ensures { refusal_in result ≡ first_of (away_at self.now group column_index ∷ []) }
    {
        match column_index {
            ColumnIndex::Number(number) => {
                numbers_are_here(&self.number_objects, &self.numbers[number], group)
            }
            ColumnIndex::Text(text) => texts_are_here(&self.text_objects, &self.texts[text], group),
        }
    }

    /// Borrows a cell. Allocates nothing.
    ///
    /// Refused with the first of these that applies:
    ///
    /// - `NoColumn` (4): there is no such column.
    /// - `NoRow` (8): the place is past the end.
    /// - `Absent` (16): the object of the cell is away.
    pub fn cell(&self, column: usize, place: usize) -> Result<CellRef<'_>, Refusal>
        ensures cell { IfOk result
            (λ cell. option_map (λ cells. slice_index_or cells place Missing)
            (slice_get (all_cells S.content self.now) column) ≡ Some (lent_cell cell)) }
        ensures refused { refusal_in result ≡ cell_refusal self.now column place }
    {
        let Some(column_index) = self.column_indexes.get(column) else {
            return Err(Refusal::NoColumn);
        };
        if place >= self.alive.len() {
            return Err(Refusal::NoRow);
        }
        self.cell_in(column, *column_index, place)
    }

    // Borrows the cell of a place that exists, in the column with this index.
    #[inline(always)]
    pub(crate) fn cell_in(
        &self,
        column: usize,
        column_index: ColumnIndex,
        place: usize,
    ) -> Result<CellRef<'_>, Refusal>
        requires lies { slice_get self.now.column_indexes column ≡ Some column_index }
        requires place { place < length self.now.alive }
        ensures cell { IfOk result
            (λ cell. slice_index_or
            (column_in (all_numbers S.content self.now) (all_texts S.content self.now) column_index)
            place Missing ≡ lent_cell cell) }
        ensures refused { refusal_in result
            ≡ first_of (absent_at self.now column (place / self.now.size) column_index ∷ []) }
    {
        // For the proof: shows that each column index is in range.
        let _len = self.len();
        match column_index {
            ColumnIndex::Number(number) => Ok(CellRef::of_int(self.number_at(
                column, number, place,
            )?)),
            ColumnIndex::Text(text) => Ok(CellRef::of_text(self.text_at(column, text, place)?)),
        }
    }

    /// Borrows the row of a place, cell by cell. Looks up each column once. Allocates nothing.
    ///
    /// Refused with `Absent` (16) exactly if an object of the place's row group is away. The refusal names the first in the
    /// order of the columns.
    pub fn row(&self, place: usize) -> Result<LentRow<'_>, Refusal>
        requires { place < length self.now.alive }
        ensures row { IfOk result (λ row. row ≡ row_at (all_cells S.content self.now) place) }
        ensures refused { refusal_in result
            ≡ first_of (absents self.now (place / self.now.size)) }
    {
        // For the proof: shows that a table has at most 16 columns.
        let _len = self.len();
        let mut row = LentRow::new();
        for (column, column_index) in self.column_indexes.iter().enumerate() {
            row.push(self.cell_in(column, *column_index, place)?);
        }
        Ok(row)
    }

    /// Borrows the cells of a place into an empty row. Looks up each column once, and reads a number only on demand. The caller
    /// makes the row, so that it is not moved. Allocates nothing.
    ///
    /// Refused as `row` is, only with `Absent` (16). Then the row has the cells of the columns before the refused one.
    pub fn place_row<'a>(&'a self, place: usize, row: &mut PlaceRow<'a>) -> Result<(), Refusal>
        requires place { place < length self.now.alive }
        requires empty { row.old ≡ [] }
        ensures row { OnOk result (row.new ≡ row_at (all_cells S.content self.now) place) }
        ensures refused { refusal_in result
            ≡ first_of (absents self.now (place / self.now.size)) }
    {
        // For the proof: shows that a table has at most 16 columns.
        let _len = self.len();
        for (column, column_index) in self.column_indexes.iter().enumerate() {
            row.push(self.place_cell(column, *column_index, place)?);
        }
        Ok(())
    }

    // Borrows the cell of a place that exists, in the column with this index, without reading a number.
    #[inline(always)]
    fn place_cell(
        &self,
        column: usize,
        column_index: ColumnIndex,
        place: usize,
    ) -> Result<PlaceCell<'_>, Refusal>
        requires lies { slice_get self.now.column_indexes column ≡ Some column_index }
        requires place { place < length self.now.alive }
        ensures cell { IfOk result
            (λ cell. slice_index_or
            (column_in (all_numbers S.content self.now) (all_texts S.content self.now) column_index)
            place Missing ≡ place_cell cell) }
        ensures refused { refusal_in result
            ≡ first_of (absent_at self.now column (place / self.now.size) column_index ∷ []) }
    {
        // For the proof: shows that each column index is in range.
        let _len = self.len();
        match column_index {
            ColumnIndex::Number(number) => Ok(PlaceCell::Number(self.number_ref(
                column, number, place,
            )?)),
            ColumnIndex::Text(text) => Ok(PlaceCell::Lent(CellRef::of_text(self.text_at(
                column, text, place,
            )?))),
        }
    }

    // Borrows the number at a place that exists, without reading it.
    fn number_ref(&self, at: usize, number: usize, place: usize) -> Result<&Option<i64>, Refusal>
        requires lies { slice_get self.now.column_indexes at ≡ Some (column_index.Number number) }
        requires column { number < length self.now.numbers }
        requires place { place < length self.now.alive }
        ensures number { IfOk result
            (λ value. slice_index_or
            (column_in (all_numbers S.content self.now) (all_texts S.content self.now)
            (column_index.Number number)) place Missing ≡ int_cell value.now) }
        ensures refused { refusal_in result
            ≡ first_of (absent_at self.now at (place / self.now.size) (column_index.Number number)
            ∷ []) }
    {
        let column = &self.numbers[number];
        // For the proof: shows that the row group of each place has been begun.
        let _len = column.len();
        column.get_ref(&self.number_objects, place)
    }

    /// Returns a view of the row of a place. It borrows each cell when it is read. Allocates nothing.
    ///
    /// Refused as `row` is, only with `Absent` (16).
    pub fn row_ref(&self, place: usize) -> Result<RowRef<'_, S>, Refusal>
        requires { place < length self.now.alive }
        ensures row { IfOk result (λ row. row ≡ row_at (all_cells S.content self.now) place) }
        ensures refused { refusal_in result
            ≡ first_of (absents self.now (place / self.now.size)) }
    {
        // For the proof: shows that each place fits into 32 bits.
        let _len = self.len();
        self.here(self.group_of(place))?;
        Ok(RowRef::new(self, place))
    }

    /// Borrows the text at a place, or returns `None` if it is missing. Allocates nothing.
    ///
    /// Refused with the first of these that applies:
    ///
    /// - `NoColumn` (4): there is no such column.
    /// - `WrongKind` (5): it is a number column.
    /// - `NoRow` (8): the place is past the end.
    /// - `Absent` (16): the object of the text is away.
    pub fn text(&self, column: usize, place: usize) -> Result<Option<&str>, Refusal>
        ensures text { IfOk result
            (λ text. option_map (λ cells. slice_index_or cells place Missing)
            (slice_get (all_cells S.content self.now) column)
            ≡ Some (text_cell (option_copied text))) }
        ensures refused { refusal_in result ≡ text_refusal self.now column place }
    {
        let Some(column_index) = self.column_indexes.get(column) else {
            return Err(Refusal::NoColumn);
        };
        let ColumnIndex::Text(text) = *column_index else {
            return Err(Refusal::WrongKind);
        };
        if place >= self.alive.len() {
            return Err(Refusal::NoRow);
        }
        self.text_at(column, text, place)
    }

    // Returns the number at a place that exists.
    fn number_at(&self, at: usize, number: usize, place: usize) -> Result<Option<i64>, Refusal>
        requires lies { slice_get self.now.column_indexes at ≡ Some (column_index.Number number) }
        requires column { number < length self.now.numbers }
        requires place { place < length self.now.alive }
        ensures number { IfOk result
            (λ value. slice_index_or
            (column_in (all_numbers S.content self.now) (all_texts S.content self.now)
            (column_index.Number number)) place Missing ≡ int_cell value) }
        ensures refused { refusal_in result
            ≡ first_of (absent_at self.now at (place / self.now.size) (column_index.Number number)
            ∷ []) }
    {
        let column = &self.numbers[number];
        // For the proof: shows that the row group of each place has been begun.
        let _len = column.len();
        column.get(&self.number_objects, place)
    }

    // Borrows the text at a place that exists.
    fn text_at(&self, at: usize, text: usize, place: usize) -> Result<Option<&str>, Refusal>
        requires lies { slice_get self.now.column_indexes at ≡ Some (column_index.Text text) }
        requires column { text < length self.now.texts }
        requires place { place < length self.now.alive }
        ensures text { IfOk result
            (λ value. slice_index_or
            (column_in (all_numbers S.content self.now) (all_texts S.content self.now)
            (column_index.Text text)) place Missing ≡ text_cell (option_copied value)) }
        ensures refused { refusal_in result
            ≡ first_of (absent_at self.now at (place / self.now.size) (column_index.Text text)
            ∷ []) }
    {
        let column = &self.texts[text];
        // For the proof: shows that each place fits into 32 bits, and `HasGroups` of the column.
        let _places = self.len();
        let _len = column.len();
        column.text(&self.text_objects, place as u32)
    }
}

// Checks that the object of a row group of a number column is local, if there is one.
fn numbers_are_here<S: FarTickets>(
    objects: &Objects<Option<i64>, S>,
    column: &IntColumn,
    group: u32,
) -> Result<(), Refusal>
    requires { IsVector (number_lists S.content objects.now) column.now }
    ensures { refusal_in result
        ≡ first_of (option_map_or (absent objects.now) (slice_get column.now.objects group)
        (false, Refusal.StaleJob) ∷ []) }
{
    // For the proof: shows that an object with a list is in use.
    let _number = objects.number();
    if let Some(o) = column.object(group) {
        objects.here(o)?;
    }
    Ok(())
}

// Checks that the object of a row group of a text column is local, if there is one.
fn texts_are_here<S: FarTickets>(
    objects: &Objects<u8, S>,
    column: &TextColumn,
    group: u32,
) -> Result<(), Refusal>
    requires { IsTextColumn (lists_of S.content objects.now) column.now }
    ensures { refusal_in result
        ≡ first_of (option_map_or (absent objects.now) (slice_get column.now.objects group)
        (false, Refusal.StaleJob) ∷ []) }
{
    // For the proof: shows that an object with a list is in use.
    let _number = objects.number();
    if let Some(o) = column.object(group) {
        objects.here(o)?;
    }
    Ok(())
}
