// Rows that are passed column by column.
ghost use Rattle.std.specs.Prelude.{◌≡◌, ◌≤◌, ◌<◌, ◌+◌, ◌↔◌, IfErr, IfNone, IfOk, IfSome, IsSomeAnd, IsTrue, OnOk, length, slice_range};
ghost use Rattle.far_types.specs.Lent.{lent_cell};
ghost use Rattle.far_c.specs.ColumnFaults.{AreColumnsOf, AreFirstRead, AreNumbers, AreOffsets, AreTexts, CellFaultIn, HasText, IsColumn, IsColumnOf, IsMask, IsNotAppended, IsReadIn, IsRowRead, RowFaultIn};
ghost use Rattle.far_c.specs.Columns.{AreAppended, IsNextRefused, column_cell, column_row, has_value, insert_of, offset_at};
ghost use Rattle.far_c.specs.Outcomes.{IsRefusal, IsStoppedFor};
ghost use Rattle.far_c.specs.Unreadable.{IsUnreadable};

use crate::cell::{INT, TEXT, copy_cell, write_cell};
use crate::code::{BAD_ARGUMENT, CLOSED, OK};
use crate::handle::Handle;
use crate::replies;
use crate::table::Table;
use crate::unread::Unread;
use far_types::{Cell, CellRef, Edit, Kind, Row};
use std::alloc::Global;

/// A column of rows to be inserted, or the cells of a column to be set, in Arrow's layout.
#[repr(C)]
#[derive(Drop)]
pub struct FcColumn<'a> {
    pub numbers: &'a [i64],
    pub offsets: &'a [u64],
    pub bytes: &'a [u8],
    pub valid: &'a [u8],
    pub kind: u32,
}

/// Appends rows that are passed column by column, in order, until one is refused. Writes the number of appended rows.
#[unsafe(no_mangle)]
pub extern "C" fn fc_insert_columns(
    alloc: Global,
    handle: &mut Handle,
    columns: &[FcColumn<'_>],
    rows: usize,
    inserted: &mut usize,
) -> u32
    ensures rows { IfSome handle.old.table
        (λ old. IsSomeAnd handle.new.table (AreAppended columns.now inserted.new old)) }
    ensures all { result ≡ 0 → inserted.new ≡ rows }
    ensures next { IsRefusal result
        → IsSomeAnd handle.new.table (IsNextRefused (insert_of columns.now inserted.new) result) }
    ensures rejected { 100 ≤ result
        → IsStoppedFor (IsNotAppended columns.now rows inserted.new) result
        handle.old.table handle.new.table }
    ensures fit { result < 100
        → IsSomeAnd handle.old.table
        (λ old. AreColumnsOf old.world.state.table.schema rows columns.now) }
    ensures read { IfSome handle.old.table
        (λ _. AreFirstRead (IsRowRead columns.now) inserted.new) }
    ensures closed { result ≡ 100 → inserted.new ≡ inserted.old }
{
    let Some(table) = handle.table() else {
        return CLOSED;
    };
    if !fit(columns, table.world().frame().schema().as_slice(), rows) {
        *inserted = 0;
        return BAD_ARGUMENT;
    }
    insert_rows(alloc, table, columns, rows, inserted)
}

// Returns whether each column of the table has a column of its kind with `rows` rows.
fn fit(columns: &[FcColumn<'_>], kinds: &[Kind], rows: usize) -> bool
    ensures { IsTrue result ↔ AreColumnsOf kinds.now rows columns.now }
{
    if columns.len() != kinds.len() {
        return false;
    }
    for column in 0..columns.len() {
        if !columns[column].fits(kinds[column], rows) {
            return false;
        }
    }
    true
}

// Appends rows that fit, one after another.
fn insert_rows(
    alloc: Global,
    table: &mut Table,
    columns: &[FcColumn<'_>],
    rows: usize,
    inserted: &mut usize,
) -> u32
    ensures rows { AreAppended columns.now inserted.new table.old table.new }
    ensures all { result ≡ 0 → inserted.new ≡ rows }
    ensures next { IsRefusal result
        → IsNextRefused (insert_of columns.now inserted.new) result table.new }
    ensures unread { 100 ≤ result
        → (inserted.new < rows) × IsUnreadable (RowFaultIn columns.now inserted.new) result }
    ensures kept { 100 ≤ result → table.new.refusal ≡ table.old.refusal }
    ensures read { AreFirstRead (IsRowRead columns.now) inserted.new }
{
    for row in 0..rows {
        let cells = match read_column_row(alloc, table.spare_cells(), columns, row) {
            Ok(cells) => cells,
            Err(why) => {
                *inserted = row;
                return table.turn_away(why);
            }
        };
        if let Err(refusal) = replies::place(table.edit(Edit::Insert(cells))) {
            *inserted = row;
            return table.refuse(refusal);
        }
    }
    *inserted = rows;
    OK
}

// Copies a row, into the memory of cells that are no longer needed.
#[inline(always)]
fn read_column_row(
    alloc: Global,
    spare: Vec<Cell>,
    columns: &[FcColumn<'_>],
    row: usize,
) -> Result<Row, Unread>
    ensures ok { IfOk result (λ made. made ≡ column_row columns.now row) }
    ensures read { OnOk result (IsRowRead columns.now row) }
    ensures fault { IfErr result (RowFaultIn columns.now row) }
{
    let mut made = spare;
    for column in 0..columns.len() {
        write_cell(alloc, &mut made, column, columns[column].cell(row)?)?;
    }
    made.truncate(columns.len());
    Ok(Row::new(made))
}

impl<'a> FcColumn<'a> {
    /// Returns whether the column is of a known kind, and has `rows` rows.
    pub fn has_rows(&self, rows: usize) -> bool
        ensures { IsTrue result ↔ IsColumn rows self.now }
    {
        self.has_numbers(rows) || self.has_texts(rows)
    }

    // Returns whether the column is of this kind, and has `rows` rows.
    fn fits(&self, kind: Kind, rows: usize) -> bool
        ensures { IsTrue result ↔ IsColumnOf kind rows self.now }
    {
        match kind {
            Kind::Int => self.has_numbers(rows),
            Kind::Text => self.has_texts(rows),
        }
    }

    // Returns whether the column has `rows` numbers.
    fn has_numbers(&self, rows: usize) -> bool
        ensures { IsTrue result ↔ AreNumbers rows self.now }
    {
        self.kind == INT
            && self.numbers.len() == rows
            && self.offsets.is_empty()
            && is_mask(rows, self.valid)
    }

    // Returns whether the column has `rows` texts.
    fn has_texts(&self, rows: usize) -> bool
        ensures { IsTrue result ↔ AreTexts rows self.now }
    {
        self.kind == TEXT
            && self.numbers.is_empty()
            && are_offsets(self.offsets, rows, self.bytes.len())
            && is_mask(rows, self.valid)
    }

    // Returns the cell of a row, borrowed.
    #[inline(always)]
    fn cell(&self, row: usize) -> Result<CellRef<'_>, Unread>
        ensures cell { IfOk result (λ cell. lent_cell cell ≡ column_cell self.now row) }
        ensures read { OnOk result (IsReadIn row self.now) }
        ensures fault { IfErr result (CellFaultIn row self.now) }
    {
        if !has_value(self.valid, row) {
            return Ok(CellRef::Missing);
        }
        if self.kind == INT {
            return match self.numbers.get(row) {
                Some(number) => Ok(CellRef::Int(*number)),
                None => Err(Unread::BadArgument),
            };
        }
        let Some(bytes) = self.text(row) else {
            return Err(Unread::BadArgument);
        };
        match str::from_utf8(bytes) {
            Ok(text) => Ok(CellRef::Text(text)),
            Err(_) => Err(Unread::NoUtf8),
        }
    }

    /// Returns the cell of a row, copied for a table.
    #[inline(always)]
    pub fn read(&self, alloc: Global, row: usize) -> Result<Cell, Unread>
        ensures ok { IfOk result (λ cell. cell ≡ column_cell self.now row) }
        ensures read { OnOk result (IsReadIn row self.now) }
        ensures fault { IfErr result (CellFaultIn row self.now) }
    {
        copy_cell(alloc, self.cell(row)?)
    }

    // Returns the bytes of a row's text.
    #[inline(always)]
    fn text(&self, row: usize) -> Option<&[u8]>
        ensures bytes { IfSome result
            (λ bytes. bytes.now
            ≡ slice_range self.now.bytes.now (offset_at self.now.offsets.now row)
            (offset_at self.now.offsets.now (row + 1))) }
        ensures none { IfNone result (¬ (HasText row self.now)) }
    {
        let from = *self.offsets.get(row)?;
        let to = *self.offsets.get(row.checked_add(1)?)?;
        self.bytes.get(from as usize..to as usize)
    }
}

// Returns whether there are offsets for `rows` texts, which ascend and are within `len` bytes.
fn are_offsets(offsets: &[u64], rows: usize, len: usize) -> bool
    ensures { IsTrue result ↔ AreOffsets rows len offsets.now }
{
    let Some(last) = offsets.last() else {
        return false;
    };
    if offsets.len() - 1 != rows || *last > len as u64 {
        return false;
    }
    offsets.is_sorted()
}

// Returns whether a mask has a bit for each of `rows` rows, or is left out.
fn is_mask(rows: usize, valid: &[u8]) -> bool
    ensures { IsTrue result ↔ IsMask rows valid.now }
{
    valid.is_empty() || rows.div_ceil(8) <= valid.len()
}

// Returns whether a row has a value: its bit is set, or it has no bit.
#[inline(always)]
fn has_value(valid: &[u8], row: usize) -> bool
    ensures { result ≡ has_value valid.now row }
{
    match valid.get(row / 8) {
        Some(byte) => (byte >> (row % 8)) % 2 == 1,
        None => true,
    }
}
