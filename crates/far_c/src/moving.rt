// Pins, space and the access history.
ghost use Rattle.std.specs.Prelude.{◌≡◌, ◌≢◌, ◌<◌, ◌≤◌, [], take, length, min};
ghost use Rattle.far_c.specs.Carrying.{IsSeen, OnWorld};
ghost use Rattle.far_frame.specs.declared.step.Step.TheVariants as step;
ghost use Rattle.far_frame.specs.declared.step.Reply.TheVariants as reply;
ghost use Rattle.far_c.specs.Opening.{kind_of};
ghost use Rattle.far_c.specs.Outcomes.{Behind, IsServed, IsRefused, IsRefusal, IsRejected, IsRejectedFor, IsUnfit};
ghost use Rattle.far_c.specs.Proposals.{AreProposed};
ghost use Rattle.far_c.specs.Unreadable.{IsKind};

use crate::code::{BAD_ARGUMENT, CLOSED, OK};
use crate::handle::Handle;
use crate::opening::read_kind;
use crate::replies;
use far_frame::Step;

/// Adds a pin to an object.
#[unsafe(no_mangle)]
pub extern "C" fn fc_pin(handle: &mut Handle, column: u32, group: u32) -> u32
    ensures served { result ≡ 0
        → Behind (IsServed (step.Pin column group) reply.Done) handle.old.table handle.new.table }
    ensures refused { IsRefusal result
        → Behind (IsRefused result (step.Pin column group)) handle.old.table handle.new.table }
    ensures rejected { 100 ≤ result → IsRejected [] result handle.old.table handle.new.table }
{
    let Some(table) = handle.table() else {
        return CLOSED;
    };
    let outcome = replies::done(table.serve(Step::Pin { column, group }));
    table.end(outcome)
}

/// Removes a pin from an object.
#[unsafe(no_mangle)]
pub extern "C" fn fc_unpin(handle: &mut Handle, column: u32, group: u32) -> u32
    ensures served { result ≡ 0
        → Behind (IsServed (step.Unpin column group) reply.Done) handle.old.table handle.new.table }
    ensures refused { IsRefusal result
        → Behind (IsRefused result (step.Unpin column group)) handle.old.table handle.new.table }
    ensures rejected { 100 ≤ result → IsRejected [] result handle.old.table handle.new.table }
{
    let Some(table) = handle.table() else {
        return CLOSED;
    };
    let outcome = replies::done(table.serve(Step::Unpin { column, group }));
    table.end(outcome)
}

/// Compacts a segment of the local region of a kind into an empty one.
#[unsafe(no_mangle)]
pub extern "C" fn fc_compact(handle: &mut Handle, kind: u32, segment: u32) -> u32
    ensures served { result ≡ 0
        → Behind (IsServed (step.Compact (kind_of kind) segment) reply.Done)
        handle.old.table handle.new.table }
    ensures refused { IsRefusal result
        → Behind (IsRefused result (step.Compact (kind_of kind) segment))
        handle.old.table handle.new.table }
    ensures rejected { 100 ≤ result
        → IsRejectedFor (IsUnfit (IsKind kind)) result handle.old.table handle.new.table }
    ensures kind { result < 100 → IsKind kind }
{
    let Some(table) = handle.table() else {
        return CLOSED;
    };
    let Some(kind) = read_kind(kind) else {
        return BAD_ARGUMENT;
    };
    let outcome = replies::done(table.serve(Step::Compact(kind, segment)));
    table.end(outcome)
}

/// Records an access to an object, and marks it as recently used.
#[unsafe(no_mangle)]
pub extern "C" fn fc_saw(handle: &mut Handle, column: u32, group: u32) -> u32
    ensures seen { result ≡ 0
        → Behind (OnWorld (IsSeen column group)) handle.old.table handle.new.table }
    ensures rejected { 100 ≤ result → IsRejected [] result handle.old.table handle.new.table }
{
    let Some(table) = handle.table() else {
        return CLOSED;
    };
    let outcome = table.saw(column, group);
    table.end(outcome)
}

/// Writes the row groups of a column to fetch next, and their number: at most two.
#[unsafe(no_mangle)]
pub extern "C" fn fc_proposals(
    handle: &mut Handle,
    column: u32,
    groups: &mut [u32],
    count: &mut usize,
) -> u32
    ensures served { result ≡ 0
        → Behind (AreProposed column groups.new count.new) handle.old.table handle.new.table }
    ensures refused { IsRefusal result
        → Behind (IsRefused result (step.Prefetch column)) handle.old.table handle.new.table }
    ensures rejected { 100 ≤ result
        → IsRejectedFor (IsUnfit (length groups.old ≡ 2)) result handle.old.table handle.new.table }
    ensures two { result < 100 → length groups.old ≡ 2 }
    ensures count { result ≢ 0 → count.new ≡ count.old }
{
    let Some(table) = handle.table() else {
        return CLOSED;
    };
    if groups.len() != 2 {
        return BAD_ARGUMENT;
    }
    match replies::next(table.serve(Step::Prefetch(column))) {
        Ok(found) => {
            *count = write_groups(&found, groups);
            OK
        }
        Err(refusal) => table.refuse(refusal),
    }
}

// Writes the first of these row groups, as many as fit the buffer, and returns their number.
fn write_groups(found: &[u32], groups: &mut [u32]) -> usize
    ensures count { result ≡ min (length found.now) (length groups.old) }
    ensures groups { take result groups.new ≡ take (length groups.old) found.now }
{
    let count = found.len().min(groups.len());
    groups[..count].copy_from_slice(&found[..count]);
    count
}
