// Facts about a table. One call on the table checks each.
mod naming;

use crate::cell::Cell;
use crate::rows::callers::have_their_objects;
use crate::rows::fixture::Values;
use far_rows::{LentColumn, Rows};
use far_store::FarTickets;
use far_types::{CellRef, Name, Refusal};
use naming::{numbers_named, texts_named};

/// A fact that should hold for a table.
pub enum Look {
    /// A place has these values, read cell by cell and as one row.
    Values(usize, Values),
    /// The coldest object, if there is one, is of this column and row group.
    Coldest(Option<Name>),
    /// Whether the far store has a current copy of a row group of a column.
    Copy(usize, u32, bool),
    /// This many objects of numbers, and of texts, are found by their column and row group.
    AreNamed(u32, u32),
    /// The first two columns have objects of the right kinds (`have_their_objects`).
    HaveTheirObjects,
    /// The refusal to read a column's cell at a place, or `None` if it can be read.
    Cell(usize, usize, Option<Refusal>),
    /// A row group of a column has these numbers.
    Numbers(usize, u32, &'static [Option<i64>]),
}

/// Returns whether a fact holds for a table.
pub fn is_so<S: FarTickets>(rows: &Rows<S>, look: &Look) -> bool {
    match look {
        Look::Values(place, values) => has_values(rows, *place, values),
        Look::Coldest(name) => rows.coldest().map(|found| found.0) == *name,
        Look::Copy(column, group, due) => rows.copy(*column, *group).is_some() == *due,
        Look::AreNamed(numbers, texts) => {
            numbers_named(rows) == *numbers && texts_named(rows) == *texts
        }
        Look::HaveTheirObjects => have_their_objects(rows),
        Look::Cell(column, place, due) => rows.cell(*column, *place).err() == *due,
        Look::Numbers(column, group, numbers) => has_numbers(rows, *column, *group, numbers),
    }
}

// Returns whether a place has exactly these values, read cell by cell and as one row.
fn has_values<S: FarTickets>(rows: &Rows<S>, place: usize, values: &Values) -> bool {
    if place >= rows.len() {
        return false;
    }
    let Ok(row) = rows.row(place) else {
        return false;
    };
    for column in 0..5 {
        let value = value_in(values, column);
        if !is_cell(row.get(column), value) || !is_cell(rows.cell(column, place).ok(), value) {
            return false;
        }
    }
    true
}

// Returns the value for a column, if there is such a column.
fn value_in(values: &Values, column: usize) -> Option<Cell> {
    match column {
        0 => Some(values.0),
        1 => Some(values.1),
        2 => Some(values.2),
        3 => Some(values.3),
        _ => None,
    }
}

// Returns whether both are the same cell, or both are `None`.
fn is_cell(one: Option<CellRef<'_>>, other: Option<Cell>) -> bool {
    match (one, other) {
        (Some(CellRef::Int(one)), Some(Cell::Number(other))) => one == other,
        (Some(CellRef::Text(one)), Some(other)) => other.is_text(Some(one)),
        (Some(CellRef::Missing), Some(Cell::Missing)) | (None, None) => true,
        _ => false,
    }
}

// Returns whether a row group of a column is lent with these numbers.
fn has_numbers<S: FarTickets>(
    rows: &Rows<S>,
    column: usize,
    group: u32,
    numbers: &[Option<i64>],
) -> bool {
    match rows.group_column(column, group) {
        Ok(LentColumn::Numbers(lent)) => lent == numbers,
        _ => false,
    }
}
