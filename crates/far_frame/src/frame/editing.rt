// Edits the rows and the aggregates of a table together.
ghost use Rattle.std.specs.Prelude.{◌≡◌, ◌<◌, ◌/◌, true, None, Some, length};
ghost use Rattle.far_types.specs.FirstOf.{first_of};
ghost use Rattle.far_rows.specs.declared.new_cell.NewCell.TheVariants as new;
ghost use Rattle.far_rows.specs.Refusing.{absents};
ghost use Rattle.far_aggregates.specs.Accumulators.{Keeps, registered_of};
ghost use Rattle.far_aggregates.specs.Pending.{RetractsAll};
ghost use Rattle.far_aggregates.specs.Replacing.{keeps_keys};
ghost use Rattle.far_table.specs.State.{AreChecked};
ghost use Rattle.far_frame.specs.Editing.{ChangesCell, MayChangeCell};

use far_aggregates::laws::an_aggregate_is_served_by_the_columns_of_its_schema;
use far_aggregates::{Aggregates, Pending};
use far_rows::NewCell;
use far_store::FarTickets;
use far_table::TableRows;
use far_types::{CellRef, Refusal};
use std::alloc::Global;

/// Writes a value to a column of a place, for which `TableRows::may_set` returned it. Refused only with `NoMemory` (1). A refused
/// call changes no row and no answer.
pub(super) fn put_cell<S: FarTickets>(
    alloc: Global,
    rows: &mut TableRows<S>,
    aggregates: &mut Aggregates,
    column: u32,
    place: u32,
    value: &NewCell,
) -> Result<(), Refusal>
    requires may { MayChangeCell S.content rows.old aggregates.old column place value.now }
    ensures { ChangesCell S.content rows.old aggregates.old column place value.now S.is_of
        rows.new aggregates.new result }
{
    // No aggregate needs this column, so there is nothing to update.
    if !aggregates.needs(column) {
        // For the proof: shows that a row group has a place.
        let _limits = rows.limits();
        rows.set(alloc, column, place, value)?;
        return Ok(());
    }
    if let NewCell::Number(Some(to)) = value {
        if aggregates.keeps_keys(column) {
            return replace_number(alloc, rows, aggregates, column, place, value, *to);
        }
    }
    change_row(alloc, rows, aggregates, column, place, value)
}

// Does the same as `put_cell` for a number, if aggregates need the column only for the values of totals. If the place had a number,
// each key stays, so one search for each aggregate is enough. The rows are set first: if they refuse, there is nothing to undo.
fn replace_number<S: FarTickets>(
    alloc: Global,
    rows: &mut TableRows<S>,
    aggregates: &mut Aggregates,
    column: u32,
    place: u32,
    value: &NewCell,
    to: i64,
) -> Result<(), Refusal>
    requires may { MayChangeCell S.content rows.old aggregates.old column place value.now }
    requires number { value.now ≡ new.Number (Some to) }
    requires keys { keeps_keys column aggregates.old ≡ true }
    ensures { ChangesCell S.content rows.old aggregates.old column place value.now S.is_of
        rows.new aggregates.new result }
{
    let size = rows.limits().group;
    // For the proof: shows `AreTableRows`, which bounds the number of places and the numbers in them.
    let _len = rows.len();
    let lent: &TableRows<S> = rows;
    let mut row = lent.empty_row();
    let Ok(()) = lent.place_row(place as usize, &mut row) else {
        unreachable!()
    };
    let Some(CellRef::Int(from)) = row.get(column as usize) else {
        // The missing number had no pair, and the new one may have one.
        return change_row(alloc, rows, aggregates, column, place, value);
    };
    let pending = aggregates.note_values(alloc, &row, column, from, size, place as usize)?;
    match rows.set(alloc, column, place, value) {
        Ok(()) => {
            aggregates.replace(pending, to);
            Ok(())
        }
        Err(refusal) => {
            aggregates.end(pending);
            Err(refusal)
        }
    }
}

// Does the same as `put_cell` for any value. Adds the pairs of the row with the new value, sets the rows, and then retracts the pairs
// of the old row.
fn change_row<S: FarTickets>(
    alloc: Global,
    rows: &mut TableRows<S>,
    aggregates: &mut Aggregates,
    column: u32,
    place: u32,
    value: &NewCell,
) -> Result<(), Refusal>
    requires may { MayChangeCell S.content rows.old aggregates.old column place value.now }
    ensures { ChangesCell S.content rows.old aggregates.old column place value.now S.is_of
        rows.new aggregates.new result }
{
    let size = rows.limits().group;
    // For the proof: show the bound of the number of places, and that their rows have all columns.
    let _before = rows.len();
    let _held = rows.held();
    let lent: &TableRows<S> = rows;
    let mut row = lent.empty_row();
    let Ok(()) = lent.place_row(place as usize, &mut row) else {
        unreachable!()
    };
    let pending = aggregates.change_in(alloc, &row, column, value.lend(), size, place as usize)?;
    if let Err(refusal) = rows.set(alloc, column, place, value) {
        // The rows are as before, and now the aggregates are too.
        aggregates.undo(pending);
        return Err(refusal);
    }
    // For the proof: shows that the numbers in the places fit 64 bits.
    let _after = rows.len();
    retract_row(rows, aggregates, place, pending);
    Ok(())
}

/// Retracts the pairs that the row of a place had before an edit, which is already made in the rows. Allocates nothing.
pub(super) fn retract_row<S: FarTickets>(
    rows: &TableRows<S>,
    aggregates: &mut Aggregates,
    place: u32,
    pending: Pending,
)
    requires inside { place < length rows.now.places }
    requires here { first_of (absents rows.now.held (place / rows.now.limits.group)) ≡ None }
    requires checked { AreChecked rows.now.schema (registered_of aggregates.old) }
    requires retracts { RetractsAll rows.now.limits.group (place / rows.now.limits.group)
        rows.now.places aggregates.old pending }
    ensures kept { Keeps rows.now.limits.group rows.now.places aggregates.new }
    ensures registered { registered_of aggregates.new ≡ registered_of aggregates.old }
{
    // A row group is lent only if rows may have to be read.
    if !aggregates.needs_rows(&pending) {
        aggregates.retract_totals(pending);
        return;
    }
    // For the proof: shows `AreRows`.
    let _held = rows.held();
    an_aggregate_is_served_by_the_columns_of_its_schema();
    aggregates.retract(&rows.group(pending.row_group()), pending);
}
