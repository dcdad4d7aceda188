// Edits of the rows.
ghost use Rattle.std.specs.Prelude.{◌≡◌, ◌≢◌, ◌<◌, ◌≤◌, []};
ghost use Rattle.std.specs.List.{All};
ghost use Rattle.far_types.specs.declared.edit.Edit.TheVariants as edit;
ghost use Rattle.far_frame.specs.declared.step.Step.TheVariants as step;
ghost use Rattle.far_frame.specs.declared.step.Reply.TheVariants as reply;
ghost use Rattle.far_c.specs.Cells.{cell_of, row_of};
ghost use Rattle.far_c.specs.Outcomes.{Behind, IsServed, IsRefused, IsRefusedOrStopped, IsRefusal, IsRejected, IsRejectedFor};
ghost use Rattle.far_c.specs.Unreadable.{CellFault, IsReadable, IsUnreadable, RowFault};

use crate::cell::{FcCell, read_row};
use crate::code::CLOSED;
use crate::handle::Handle;
use crate::replies;
use far_types::Edit;
use std::alloc::Global;

/// Appends a row, and writes its place.
#[unsafe(no_mangle)]
pub extern "C" fn fc_insert(
    alloc: Global,
    handle: &mut Handle,
    cells: &[FcCell<'_>],
    place: &mut u32,
) -> u32
    ensures served { result ≡ 0
        → Behind (IsServed (step.Edit (edit.Insert (row_of cells.now))) (reply.Place place.new))
        handle.old.table handle.new.table }
    ensures refused { IsRefusal result
        → Behind (IsRefusedOrStopped result (step.Edit (edit.Insert (row_of cells.now))))
        handle.old.table handle.new.table }
    ensures rejected { 100 ≤ result
        → IsRejectedFor
        (λ _. IsUnreadable (RowFault cells.now)) result handle.old.table handle.new.table }
    ensures read { result ≡ 0 → All IsReadable cells.now }
    ensures place { result ≢ 0 → place.new ≡ place.old }
{
    let Some(table) = handle.table() else {
        return CLOSED;
    };
    let row = match read_row(alloc, table.spare_cells(), cells) {
        Ok(row) => row,
        Err(why) => return table.turn_away(why),
    };
    let outcome = replies::place(table.edit(Edit::Insert(row)));
    table.give(outcome, place)
}

/// Sets the cell of a place in a column.
#[unsafe(no_mangle)]
pub extern "C" fn fc_set(
    alloc: Global,
    handle: &mut Handle,
    column: u32,
    place: u32,
    cell: &FcCell<'_>,
) -> u32
    ensures served { result ≡ 0
        → Behind (IsServed (step.Edit (edit.Set place column (cell_of cell.now))) reply.Done)
        handle.old.table handle.new.table }
    ensures refused { IsRefusal result
        → Behind (IsRefusedOrStopped result (step.Edit (edit.Set place column (cell_of cell.now))))
        handle.old.table handle.new.table }
    ensures rejected { 100 ≤ result
        → IsRejectedFor
        (λ _. IsUnreadable (CellFault cell.now)) result handle.old.table handle.new.table }
    ensures read { result < 100 → IsReadable cell.now }
{
    let Some(table) = handle.table() else {
        return CLOSED;
    };
    let cell = match cell.read(alloc) {
        Ok(cell) => cell,
        Err(why) => return table.turn_away(why),
    };
    let outcome = replies::done(table.edit(Edit::Set {
        place,
        column,
        cell,
    }));
    table.end(outcome)
}

/// Removes the row of a place.
#[unsafe(no_mangle)]
pub extern "C" fn fc_remove(handle: &mut Handle, place: u32) -> u32
    ensures served { result ≡ 0
        → Behind (IsServed (step.Edit (edit.Remove place)) reply.Done)
        handle.old.table handle.new.table }
    ensures refused { IsRefusal result
        → Behind (IsRefused result (step.Edit (edit.Remove place)))
        handle.old.table handle.new.table }
    ensures rejected { 100 ≤ result → IsRejected [] result handle.old.table handle.new.table }
{
    let Some(table) = handle.table() else {
        return CLOSED;
    };
    let outcome = replies::done(table.edit(Edit::Remove(place)));
    table.end(outcome)
}
