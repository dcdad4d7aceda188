// Numbers of a column, copied.
ghost use Rattle.std.specs.Prelude.{◌≡◌, ◌<◌, ◌≤◌, ◌+◌, ◌++◌, None, Some, map, take, drop, length, is_some, IfErr, IfOk, IsSomeAnd, OnErr, OnOk};
ghost use Rattle.far_types.specs.Lent.{int_cell};
ghost use Rattle.far_types.specs.Table.{part};
ghost use Rattle.far_rows.specs.Refusing.{ints_refusal};
ghost use Rattle.far_frame.specs.Lending.{lend_refusal};
ghost use Rattle.far_c.specs.TableState.{places_of};
ghost use Rattle.far_c.specs.Outcomes.{Behind, IsDue, IsRefusal, IsRejectedFor, IsUnfit};
ghost use Rattle.far_c.specs.Parts.{FitNumbers, IsPartLent, alive_of, flags_in, numbers_in, or_zero, valid_of, values_of};

use crate::code::{BAD_ARGUMENT, CLOSED};
use crate::handle::Handle;
use crate::table::Table;
use far_columns::Lents;
use far_host::HostStore;
use far_types::Refusal;

/// Copies the numbers of the places `from` up to `to` of a column, whether each has a value, and whether each place is alive.
#[unsafe(no_mangle)]
pub extern "C" fn fc_numbers(
    handle: &mut Handle,
    column: u32,
    from: u32,
    to: u32,
    values: &mut [i64],
    valid: &mut [bool],
    alive: &mut [bool],
) -> u32
    ensures values { result ≡ 0
        → IsSomeAnd handle.old.table
        (λ old. values.new ≡ values_of (places_of old) column from to) }
    ensures valid { result ≡ 0
        → IsSomeAnd handle.old.table (λ old. valid.new ≡ valid_of (places_of old) column from to) }
    ensures alive { result ≡ 0
        → IsSomeAnd handle.old.table (λ old. alive.new ≡ alive_of (places_of old) from to) }
    ensures lent { result ≡ 0
        → Behind (IsPartLent column from to) handle.old.table handle.new.table }
    ensures refused { IsRefusal result
        → Behind (IsDue (λ old. ints_refusal old.world.state.rows column from to) result)
        handle.old.table handle.new.table }
    ensures rejected { 100 ≤ result
        → IsRejectedFor
        (IsUnfit (FitNumbers from to (length values.old) (length valid.old) (length alive.old)))
        result handle.old.table handle.new.table }
    ensures lengths { result < 100
        → FitNumbers from to (length values.old) (length valid.old) (length alive.old) }
{
    let Some(table) = handle.table() else {
        return CLOSED;
    };
    let len = (to as usize).saturating_sub(from as usize);
    if values.len() != len || valid.len() != len || alive.len() != len {
        return BAD_ARGUMENT;
    }
    let outcome = read_numbers(table, column, from, to, values, valid, alive);
    table.end(outcome)
}

// Copies numbers into buffers of their length, and records that they were read.
fn read_numbers(
    table: &mut Table,
    column: u32,
    from: u32,
    to: u32,
    values: &mut [i64],
    valid: &mut [bool],
    alive: &mut [bool],
) -> Result<(), Refusal>
    requires { FitNumbers from to (length values.old) (length valid.old) (length alive.old) }
    ensures values { OnOk result (values.new ≡ values_of (places_of table.old) column from to) }
    ensures valid { OnOk result (valid.new ≡ valid_of (places_of table.old) column from to) }
    ensures alive { OnOk result (alive.new ≡ alive_of (places_of table.old) from to) }
    ensures lent { OnOk result (IsPartLent column from to table.old table.new) }
    ensures refused { IfErr result
        (λ why. ints_refusal table.old.world.state.rows column from to ≡ Some why) }
    ensures err { OnErr result (table.new ≡ table.old) }
{
    let lents = lent_numbers(table, column, from, to)?;
    copy_pieces(lents, values, valid, alive);
    table.record_lending(column, from, to)
}

// Lends the numbers of a part of a column.
fn lent_numbers<'a>(
    table: &'a Table,
    column: u32,
    from: u32,
    to: u32,
) -> Result<Lents<'a, HostStore>, Refusal>
    ensures cells { IfOk result
        (λ lents. map int_cell (numbers_in lents) ≡ part column from to (places_of table.now)) }
    ensures flags { IfOk result (λ lents. flags_in lents ≡ alive_of (places_of table.now) from to) }
    ensures free { OnOk result (lend_refusal table.now.world.state.rows column from to ≡ None) }
    ensures refused { IfErr result
        (λ why. ints_refusal table.now.world.state.rows column from to ≡ Some why) }
{
    let frame = table.world().frame();
    // For the proof: shows that a row group has a place.
    let _limits = frame.limits();
    frame.scope().ints(column, from, to)
}

// Copies lent pieces, one after another. The rest of the buffers is unchanged.
fn copy_pieces(
    lents: Lents<'_, HostStore>,
    values: &mut [i64],
    valid: &mut [bool],
    alive: &mut [bool],
)
    requires values { length (numbers_in lents) ≤ length values.old }
    requires valid { length (numbers_in lents) ≤ length valid.old }
    requires alive { length (flags_in lents) ≤ length alive.old }
    ensures values { length (numbers_in lents.entry) ≡ length values.old
        → values.new ≡ map or_zero (numbers_in lents.entry) }
    ensures valid { length (numbers_in lents.entry) ≡ length valid.old
        → valid.new ≡ map is_some (numbers_in lents.entry) }
    ensures alive { length (flags_in lents.entry) ≡ length alive.old
        → alive.new ≡ flags_in lents.entry }
{
    let mut lents = lents;
    let mut at = 0;
    let mut flag = 0;
    while let Some(lent) = lents.next() {
        copy_numbers(lent.values, values, valid, at);
        copy_flags(lent.alive, alive, flag);
        at += lent.values.len();
        flag += lent.alive.len();
    }
}

// Copies numbers to a place of two buffers: their values, with 0 for a missing one, and whether each has a value.
fn copy_numbers(numbers: &[Option<i64>], values: &mut [i64], valid: &mut [bool], at: usize)
    requires values { at + length numbers.now ≤ length values.old }
    requires valid { at + length numbers.now ≤ length valid.old }
    ensures values { values.new
        ≡ take at values.old ++ map or_zero numbers.now
        ++ drop (at + length numbers.now) values.old }
    ensures valid { valid.new
        ≡ take at valid.old ++ map is_some numbers.now
        ++ drop (at + length numbers.now) valid.old }
{
    let end = at + numbers.len();
    write_numbers(numbers, &mut values[at..end], &mut valid[at..end]);
}

// One pass is enough, since most of the time goes to reading the numbers from memory.
fn write_numbers(numbers: &[Option<i64>], values: &mut [i64], valid: &mut [bool])
    requires values { length values.old ≡ length numbers.now }
    requires valid { length valid.old ≡ length numbers.now }
    ensures values { values.new ≡ map or_zero numbers.now }
    ensures valid { valid.new ≡ map is_some numbers.now }
{
    for i in 0..numbers.len() {
        values[i] = numbers[i].unwrap_or(0);
        valid[i] = numbers[i].is_some();
    }
}

// Copies flags to a place of a buffer.
fn copy_flags(flags: &[bool], buffer: &mut [bool], at: usize)
    requires { at + length flags.now ≤ length buffer.old }
    ensures { buffer.new
        ≡ take at buffer.old ++ flags.now ++ drop (at + length flags.now) buffer.old }
{
    buffer[at..at + flags.len()].copy_from_slice(flags);
}
