// The values of a new row.
ghost use Rattle.std.specs.Prelude.{◌≡◌, ◌≤◌, None, replicate, true, false, length, map, IfOk, IfErr};
ghost use Rattle.far_types.specs.Edits.{kinds_fit};
ghost use Rattle.std.specs.List.{list_any};
ghost use Rattle.far_types.specs.Cells.{is_of_kind, is_too_long};
ghost use Rattle.far_texts.specs.RefusingTogether.{any_too_long};
ghost use Rattle.far_types.specs.Lent.{int_cell, text_cell, lent_cell};
ghost use Rattle.far_rows.specs.ColumnIndexes.{AreColumnIndexes, IsColumnIn, cell_in, kind_of, row_of, with_value};

use super::column_index::ColumnIndex;
use super::new_cell::text_ref;
use super::new_row_ref::NewRowRef;
use far_types::{Cell, CellRef, Kind, LentRow, Refusal, Row, Text};
use std::alloc::Global;
use std::marker::Model;
use std::mem;

/// The values of a new row: a number for each number column, and a text for each text column. A table makes one, and loads
/// each row into it without allocating.
#[derive(Drop, Debug)]
pub struct NewRow {
    numbers: Vec<Option<i64>>,
    texts: Vec<Option<Text>>,
    // The cells of the row that was loaded last. They hold the texts of the row that was loaded before it.
    spare: Vec<Cell>,
}

impl Model for NewRow {
    ghost use Rattle.std.specs.Prelude.{◌≡◌, false};
    ghost use Rattle.far_texts.specs.RefusingTogether.{any_too_long};
    ghost use Rattle.far_rows.specs.ColumnIndexes.{Values};

    ghost Value = { Values };

    ghost view = { λ row. record { numbers = row.numbers.items; texts = row.texts.items } };

    ghost invariant = { λ row. (any_too_long row.texts.items).0 ≡ false };
}

impl NewRow {
    /// Makes a row of missing values for this many number columns and text columns. Refused only with `NoMemory` (1).
    pub fn new(alloc: Global, numbers: usize, texts: usize) -> Result<NewRow, Refusal>
        ensures numbers { IfOk result (λ row. length row.numbers ≡ numbers) }
        ensures texts { IfOk result (λ row. length row.texts ≡ texts) }
        ensures missing { IfOk result
            (λ row. row
            ≡ record { numbers = replicate numbers None; texts = replicate texts None }) }
        ensures memory { IfErr result (λ e. e ≡ Refusal.NoMemory) }
    {
        Ok(NewRow {
            numbers: nothing(alloc, numbers)?,
            texts: nothing(alloc, texts)?,
            spare: Vec::new(alloc),
        })
    }

    /// Loads the cells of a row, whose columns have these indexes. No text may be too long. Allocates nothing.
    #[inline(always)]
    pub fn load(&mut self, column_indexes: &[ColumnIndex], row: Row)
        requires column_indexes { AreColumnIndexes column_indexes.now (length self.old.numbers)
            (length self.old.texts) }
        requires width { length row ≡ length column_indexes.now }
        requires of_kinds { kinds_fit (map kind_of column_indexes.now) row ≡ true }
        requires short { list_any is_too_long row ≡ false }
        ensures row { row_of column_indexes.now self.new ≡ row }
        ensures numbers { length self.new.numbers ≡ length self.old.numbers }
        ensures texts { length self.new.texts ≡ length self.old.texts }
    {
        let mut cells = row.into_cells();
        for column in 0..cells.len() {
            self.put(column_indexes[column], &mut cells[column]);
        }
        self.spare = cells;
    }

    /// Returns cells that are no longer needed, so that a later row can be made in their memory. Allocates nothing.
    pub fn spare_cells(&mut self) -> Vec<Cell>
        ensures { self.new ≡ self.old }
    {
        let alloc = *self.spare.allocator();
        mem::replace(&mut self.spare, Vec::new(alloc))
    }

    // Sets the value at an index to the value of a cell of the same kind. The cell gets the old text.
    #[inline(always)]
    fn put(&mut self, column_index: ColumnIndex, cell: &mut Cell)
        requires within { IsColumnIn (length self.old.numbers) (length self.old.texts)
            column_index }
        requires of_kind { is_of_kind (kind_of column_index) cell.old ≡ true }
        requires short { is_too_long cell.old ≡ false }
        ensures { self.new ≡ with_value self.old column_index cell.old }
    {
        match column_index {
            ColumnIndex::Number(number) => self.numbers[number] = number_of(cell),
            ColumnIndex::Text(text) => exchange(&mut self.texts[text], cell),
        }
    }

    /// Borrows the row, whose columns have these indexes, cell by cell. Allocates nothing.
    pub fn lend(&self, column_indexes: &[ColumnIndex]) -> LentRow<'_>
        requires column_indexes { AreColumnIndexes column_indexes.now (length self.now.numbers)
            (length self.now.texts) }
        requires few { length column_indexes.now ≤ 16 }
        ensures { result ≡ row_of column_indexes.now self.now }
    {
        let mut row = LentRow::new();
        for column_index in column_indexes {
            row.push(self.cell(*column_index));
        }
        row
    }

    /// Returns a view of the row, whose columns have these indexes. It borrows each cell when it is read. Allocates nothing.
    #[inline(always)]
    pub fn row_ref<'a>(&'a self, column_indexes: &'a [ColumnIndex]) -> NewRowRef<'a>
        requires { AreColumnIndexes column_indexes.now (length self.now.numbers)
            (length self.now.texts) }
        ensures { result ≡ row_of column_indexes.now self.now }
    {
        NewRowRef::new(self, column_indexes)
    }

    // Borrows the cell at an index.
    #[inline(always)]
    pub(crate) fn cell(&self, column_index: ColumnIndex) -> CellRef<'_>
        requires { IsColumnIn (length self.now.numbers) (length self.now.texts) column_index }
        ensures { lent_cell result ≡ cell_in self.now column_index }
    {
        match column_index {
            ColumnIndex::Number(number) => CellRef::of_int(self.numbers[number]),
            ColumnIndex::Text(text) => text_ref(&self.texts[text]),
        }
    }

    /// Borrows the numbers, one for each number column.
    pub fn numbers(&self) -> &[Option<i64>]
        ensures { result.now ≡ self.now.numbers }
    {
        self.numbers.as_slice()
    }

    /// Borrows the texts, one for each text column. None has more than 4,096 bytes.
    pub fn texts(&self) -> &[Option<Text>]
        ensures texts { result.now ≡ self.now.texts }
        ensures short { (any_too_long self.now.texts).0 ≡ false }
    {
        self.texts.as_slice()
    }
}

// Returns a list of `count` missing values.
fn nothing<T: Drop>(alloc: Global, count: usize) -> Result<Vec<Option<T>>, Refusal>
    ensures count { IfOk result (λ values. length values.items ≡ count) }
    ensures missing { IfOk result (λ values. values.items ≡ replicate count None) }
    ensures memory { IfErr result (λ e. e ≡ Refusal.NoMemory) }
{
    let mut values = Vec::with_capacity(alloc, count)?;
    for _ in 0..count {
        values.push(None)?;
    }
    Ok(values)
}

// Returns the number in a cell of a number column.
#[inline(always)]
fn number_of(cell: &Cell) -> Option<i64>
    requires { is_of_kind Kind.Int cell.now ≡ true }
    ensures { int_cell result ≡ cell.now }
{
    match cell {
        Cell::Int(number) => Some(*number),
        Cell::Text(_) => unreachable!(),
        Cell::Missing => None,
    }
}

// Swaps a text with the text in a cell of a text column. Usually neither is missing, and then the cell itself does not move.
#[inline(always)]
fn exchange(text: &mut Option<Text>, cell: &mut Cell)
    requires { is_of_kind Kind.Text cell.old ≡ true }
    ensures { text_cell text.new ≡ cell.old }
{
    if let Some(earlier) = text {
        if let Cell::Text(later) = cell {
            mem::swap(earlier, later);
            return;
        }
    }
    let later = text_of(mem::replace(cell, Cell::Missing));
    *cell = cell_of(mem::replace(text, later));
}

// Makes the cell of a text.
fn cell_of(text: Option<Text>) -> Cell
    ensures { result ≡ text_cell text }
{
    match text {
        Some(text) => Cell::Text(text),
        None => Cell::Missing,
    }
}

// Returns the text in a cell of a text column.
fn text_of(cell: Cell) -> Option<Text>
    requires { is_of_kind Kind.Text cell ≡ true }
    ensures { text_cell result ≡ cell }
{
    match cell {
        Cell::Int(_) => unreachable!(),
        Cell::Text(text) => Some(text),
        Cell::Missing => None,
    }
}
