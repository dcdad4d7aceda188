// Sets cells of one column at many places.
ghost use Rattle.std.specs.Prelude.{◌≡◌, ◌≤◌, ◌<◌, IfSome, IsSomeAnd, length};
ghost use Rattle.far_c.specs.ColumnFaults.{AreFirstRead, CellFaultIn, IsColumn, IsNotSet, IsReadIn};
ghost use Rattle.far_c.specs.Columns.{AreSet, IsNextRefused, set_of};
ghost use Rattle.far_c.specs.Outcomes.{IsRefusal, IsStoppedFor};
ghost use Rattle.far_c.specs.Unreadable.{IsUnreadable};

use crate::code::{BAD_ARGUMENT, CLOSED, OK};
use crate::columns::FcColumn;
use crate::handle::Handle;
use crate::replies;
use crate::table::Table;
use far_types::Edit;
use std::alloc::Global;

/// Sets a column at many places, in order, until one is refused. Writes the number of cells that were set.
#[unsafe(no_mangle)]
pub extern "C" fn fc_set_column(
    alloc: Global,
    handle: &mut Handle,
    column: u32,
    places: &[u32],
    values: &FcColumn<'_>,
    set: &mut usize,
) -> u32
    ensures cells { IfSome handle.old.table
        (λ old. IsSomeAnd handle.new.table (AreSet column places.now values.now set.new old)) }
    ensures within { IfSome handle.old.table (λ _. set.new ≤ length places.now) }
    ensures all { result ≡ 0 → set.new ≡ length places.now }
    ensures next { IsRefusal result
        → IsSomeAnd handle.new.table
        (IsNextRefused (set_of column places.now values.now set.new) result) }
    ensures rejected { 100 ≤ result
        → IsStoppedFor (IsNotSet values.now (length places.now) set.new) result
        handle.old.table handle.new.table }
    ensures fit { result < 100 → IsColumn (length places.now) values.now }
    ensures read { IfSome handle.old.table
        (λ _. AreFirstRead (λ index. IsReadIn index values.now) set.new) }
    ensures closed { result ≡ 100 → set.new ≡ set.old }
{
    let Some(table) = handle.table() else {
        return CLOSED;
    };
    if !values.has_rows(places.len()) {
        *set = 0;
        return BAD_ARGUMENT;
    }
    set_cells(alloc, table, column, places, values, set)
}

// Sets values that fit a column, one after another.
fn set_cells(
    alloc: Global,
    table: &mut Table,
    column: u32,
    places: &[u32],
    values: &FcColumn<'_>,
    set: &mut usize,
) -> u32
    ensures cells { AreSet column places.now values.now set.new table.old table.new }
    ensures within { set.new ≤ length places.now }
    ensures all { result ≡ 0 → set.new ≡ length places.now }
    ensures next { IsRefusal result
        → IsNextRefused (set_of column places.now values.now set.new) result table.new }
    ensures unread { 100 ≤ result
        → (set.new < length places.now) × IsUnreadable (CellFaultIn set.new values.now) result }
    ensures kept { 100 ≤ result → table.new.refusal ≡ table.old.refusal }
    ensures read { AreFirstRead (λ index. IsReadIn index values.now) set.new }
{
    for index in 0..places.len() {
        table.read_ahead(column, places, index);
        let place = places[index];
        let cell = match values.read(alloc, index) {
            Ok(cell) => cell,
            Err(why) => {
                *set = index;
                return table.turn_away(why);
            }
        };
        if let Err(refusal) = replies::done(table.edit(Edit::Set {
            place,
            column,
            cell,
        })) {
            *set = index;
            return table.refuse(refusal);
        }
    }
    *set = places.len();
    OK
}
