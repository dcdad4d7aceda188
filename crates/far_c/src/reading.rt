// Rows and parts of columns.
ghost use Rattle.std.specs.Prelude.{◌≡◌, ◌≢◌, ◌≤◌, None, Some, IfOk, IsFalse, IsTrue, IsSomeAnd, length, option_map, slice_get};
ghost use Rattle.std.specs.Option.{MatchOption};
ghost use Rattle.far_types.specs.Lent.{lent_cell, text_cell};
ghost use Rattle.far_types.specs.Table.{column as column_of};
ghost use Rattle.far_rows.specs.Refusing.{text_refusal};
ghost use Rattle.far_scopes.specs.Refusing.{refusal_in};
ghost use Rattle.far_c.specs.Cells.{cell_of, row_of};
ghost use Rattle.far_c.specs.TableState.{places_of};
ghost use Rattle.far_c.specs.Outcomes.{IsNumberOf, IsRefusal};
ghost use Rattle.far_c.specs.Reading.{IsNoRowOf, row_refusal};

use crate::cell::{FcCell, INT, MISSING, TEXT};
use crate::code::{BAD_ARGUMENT, CLOSED, NOTHING, OK};
use crate::handle::Handle;
use crate::table::Table;
use far_types::{CellRef, LentRow, Refusal};

/// Writes whether the row of a place is alive.
#[unsafe(no_mangle)]
pub extern "C" fn fc_is_alive(handle: &mut Handle, place: u32, alive: &mut bool) -> u32
    ensures alive { result ≡ 0
        → IsSomeAnd handle.old.table
        (λ old. option_map (λ p. p.alive) (slice_get (places_of old) place) ≡ Some alive.new) }
    ensures none { result ≡ 8
        → IsSomeAnd handle.old.table (λ old. slice_get (places_of old) place ≡ None) }
    ensures kept { result ≢ 8 → handle.new.table ≡ handle.old.table }
{
    let Some(table) = handle.table() else {
        return CLOSED;
    };
    match table.world().frame().scope().is_alive(place) {
        Some(is) => {
            *alive = is;
            OK
        }
        None => table.refuse(Refusal::NoRow),
    }
}

/// Writes the cells of a place, removed or not. Lends their texts.
#[unsafe(no_mangle)]
pub extern "C" fn fc_row<'a>(handle: &'a mut Handle, place: u32, cells: &mut [FcCell<'a>]) -> u32
    ensures row { result ≡ 0
        → IsSomeAnd handle.old.table
        (λ old. option_map (λ p. p.cells) (slice_get (places_of old) place)
        ≡ Some (row_of cells.new)) }
    ensures refused { IsRefusal result
        → IsSomeAnd handle.old.table
        (λ old. IsNumberOf (row_refusal old.world.state place) result) }
    ensures rejected { 100 ≤ result
        → MatchOption handle.old.table (result ≡ 100)
        (λ old. IsNoRowOf old.world.state.table place (length cells.old) result) }
{
    let Some(table) = handle.table() else {
        return CLOSED;
    };
    if cells.len() != table.world().frame().schema().len() {
        return BAD_ARGUMENT;
    }
    if let Err(refusal) = lent_row(table, place) {
        return table.refuse(refusal);
    }
    lend_row(table, place, cells)
}

// Writes the cells of a place, which borrow their texts. The row can be lent: the caller has checked.
fn lend_row<'a>(table: &'a Table, place: u32, cells: &mut [FcCell<'a>]) -> u32
    requires { row_refusal table.now.world.state place ≡ None }
    ensures row { result ≡ 0
        → option_map (λ p. p.cells) (slice_get (places_of table.now) place)
        ≡ Some (row_of cells.new) }
    ensures width { result ≢ 0
        → (result ≡ 104) × IsSomeAnd (slice_get (places_of table.now) place)
        (λ found. length found.cells ≢ length cells.old) }
{
    match lent_row(table, place) {
        Ok(row) => {
            // For the proof: a row has a cell for each column.
            if row.len() != cells.len() {
                return NOTHING;
            }
            write_row(&row, cells);
            OK
        }
        Err(_) => NOTHING,
    }
}

// Lends the row of a place.
fn lent_row<'a>(table: &'a Table, place: u32) -> Result<LentRow<'a>, Refusal>
    ensures row { IfOk result
        (λ row. option_map (λ p. p.cells) (slice_get (places_of table.now) place) ≡ Some row) }
    ensures refused { refusal_in result ≡ row_refusal table.now.world.state place }
{
    table.world().frame().scope().row(place)
}

// Writes the cells of a row.
fn write_row<'a>(row: &LentRow<'a>, cells: &mut [FcCell<'a>])
    requires { length cells.old ≡ length row.now }
    ensures { row_of cells.new ≡ row.now }
{
    for column in 0..cells.len() {
        if let Some(cell) = row.get(column) {
            cells[column] = FcCell::of(cell);
        }
    }
}

impl<'a> FcCell<'a> {
    // Returns the cell as C receives it.
    fn of(cell: CellRef<'a>) -> FcCell<'a>
        ensures { cell_of result ≡ lent_cell cell.entry }
    {
        match cell {
            CellRef::Missing => FcCell {
                number: 0,
                text: b"",
                kind: MISSING,
            },
            CellRef::Int(number) => FcCell {
                number,
                text: b"",
                kind: INT,
            },
            CellRef::Text(text) => FcCell {
                number: 0,
                text: text.as_bytes(),
                kind: TEXT,
            },
        }
    }
}

/// Lends the text of a place, removed or not, and writes whether it has one.
#[unsafe(no_mangle)]
pub extern "C" fn fc_text<'a>(
    handle: &'a mut Handle,
    column: u32,
    place: u32,
    text: &mut &'a [u8],
    valid: &mut bool,
) -> u32
    ensures text { result ≡ 0 → IsTrue valid.new
        → IsSomeAnd handle.old.table
        (λ old. slice_get (column_of column (places_of old)) place
        ≡ Some (text_cell (Some text.new.now))) }
    ensures missing { result ≡ 0 → IsFalse valid.new
        → IsSomeAnd handle.old.table
        (λ old. slice_get (column_of column (places_of old)) place ≡ Some (text_cell None)) }
    ensures refused { IsRefusal result
        → IsSomeAnd handle.old.table
        (λ old. IsNumberOf (text_refusal old.world.state.rows column place) result) }
    ensures closed { 100 ≤ result → (result ≡ 100) × (handle.old.table ≡ None) }
{
    let Some(table) = handle.table() else {
        return CLOSED;
    };
    if let Err(refusal) = table.world().frame().scope().text(column, place) {
        return table.refuse(refusal);
    }
    lend_text(table, column, place, text, valid)
}

// Lends the text of a place. It can be lent: the caller has checked.
fn lend_text<'a>(
    table: &'a Table,
    column: u32,
    place: u32,
    text: &mut &'a [u8],
    valid: &mut bool,
) -> u32
    requires { text_refusal table.now.world.state.rows column place ≡ None }
    ensures ok { result ≡ 0 }
    ensures text { IsTrue valid.new
        → slice_get (column_of column (places_of table.now)) place
        ≡ Some (text_cell (Some text.new.now)) }
    ensures missing { IsFalse valid.new
        → slice_get (column_of column (places_of table.now)) place ≡ Some (text_cell None) }
{
    match table.world().frame().scope().text(column, place) {
        Ok(Some(found)) => {
            *text = found.as_bytes();
            *valid = true;
        }
        Ok(None) => {
            *text = b"";
            *valid = false;
        }
        Err(_) => return NOTHING,
    }
    OK
}
