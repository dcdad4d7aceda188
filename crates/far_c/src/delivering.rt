// Contents that go to the calling program and come back.
ghost use Rattle.std.specs.Prelude.{◌≡◌, ◌≢◌, ◌≤◌, IfSome, IsSome, IsSomeAnd};
ghost use Rattle.std.specs.Option.{MatchOption};
ghost use Rattle.far_rows.specs.Copies.{copy_of};
ghost use Rattle.far_frame.specs.Delivering.{HasNoCollision, wanted_by};
ghost use Rattle.far_frame.specs.Ending.{no_job};
ghost use Rattle.far_frame.specs.Waiting.{job_at};
ghost use Rattle.far_c.specs.Carrying.{OnWorld};
ghost use Rattle.far_c.specs.Contents.{content, matches, number_of};
ghost use Rattle.far_c.specs.Delivering.{HasNothingOut, IsCounted, IsCountedFor, IsDelivered, IsNotAway, IsOutgoing, IsWanted, WantsNoMore, WhyNoCopy, WhyNotTaken};
ghost use Rattle.far_c.specs.Numbering.{IsRenumbered};
ghost use Rattle.far_c.specs.Outcomes.{Behind, IsDue, IsNumberOf, IsRefusal, IsRejectedFor, IsUsedUp};

use crate::code::{CLOSED, NOTHING, OK, USED_UP};
use crate::handle::Handle;
use crate::table::Table;
use far_types::Refusal;

/// Lends the bytes that the program has to keep for a carried eviction, and writes their number.
#[unsafe(no_mangle)]
pub extern "C" fn fc_outgoing<'a>(
    handle: &'a mut Handle,
    job: u64,
    number: &mut u64,
    bytes: &mut &'a [u8],
) -> u32
    ensures outgoing { result ≡ 0
        → IsSomeAnd handle.old.table
        (λ old. IsOutgoing (job_at old.world.jobs job) number.new bytes.new.now) }
    ensures refused { IsRefusal result
        → IsSomeAnd handle.old.table (λ old. IsNumberOf (no_job old.world job) result) }
    ensures rejected { 100 ≤ result
        → MatchOption handle.old.table (result ≡ 100) (λ old. HasNothingOut job old result) }
{
    let Some(table) = handle.table() else {
        return CLOSED;
    };
    if table.world().job(job).is_none() {
        return table.refuse(Refusal::StaleJob);
    }
    lend_outgoing(table, job, number, bytes)
}

// Lends the bytes that a job sends to the program, and writes their number.
fn lend_outgoing<'a>(table: &'a Table, job: u64, number: &mut u64, bytes: &mut &'a [u8]) -> u32
    requires { IsSome (job_at table.now.world.jobs job) }
    ensures outgoing { result ≡ 0
        → IsOutgoing (job_at table.now.world.jobs job) number.new bytes.new.now }
    ensures nothing { result ≢ 0 → HasNothingOut job table.now result }
{
    let Some(found) = table.world().job(job) else {
        return NOTHING;
    };
    let Some((at, out)) = found.outgoing(table.world().store()) else {
        return NOTHING;
    };
    *number = at;
    *bytes = out;
    OK
}

/// Writes the number of the content at an index, among those that a begun fetch or offload needs.
#[unsafe(no_mangle)]
pub extern "C" fn fc_wanted(handle: &mut Handle, job: u64, index: usize, number: &mut u64) -> u32
    ensures wanted { result ≡ 0
        → IsSomeAnd handle.old.table
        (λ old. IsWanted (job_at old.world.jobs job) index number.new) }
    ensures refused { IsRefusal result
        → Behind (IsDue (λ old. no_job old.world job) result) handle.old.table handle.new.table }
    ensures rejected { 100 ≤ result
        → IsRejectedFor (WantsNoMore job index) result handle.old.table handle.new.table }
    ensures same { result ≢ 20 → handle.new.table ≡ handle.old.table }
{
    let Some(table) = handle.table() else {
        return CLOSED;
    };
    match table.world().wanted(job, index) {
        Ok(Some(wanted)) => {
            *number = wanted;
            OK
        }
        Ok(None) => NOTHING,
        Err(refusal) => table.refuse(refusal),
    }
}

/// Takes the content with a number for a job that wants it. Copies the bytes.
///
/// The premise: if these bytes have the length and the digest of the bytes with this number, they are the same bytes.
#[unsafe(no_mangle)]
pub extern "C" fn fc_deliver(handle: &mut Handle, job: u64, number: u64, bytes: &[u8]) -> u32
    requires no_collision { IfSome handle.old.table
        (λ old. HasNoCollision matches content
        (wanted_by number_of old.world job number) bytes.now) }
    ensures delivered { result ≡ 0
        → Behind
        (λ old. IsDelivered (wanted_by number_of old.world job number) bytes.now old)
        handle.old.table handle.new.table }
    ensures refused { IsRefusal result
        → Behind
        (λ old. IsCountedFor
        (WhyNotTaken (wanted_by number_of old.world job number) bytes.now) result old)
        handle.old.table handle.new.table }
    ensures rejected { 100 ≤ result
        → IsRejectedFor IsUsedUp result handle.old.table handle.new.table }
{
    let Some(table) = handle.table() else {
        return CLOSED;
    };
    if !table.may_fault() {
        return USED_UP;
    }
    let outcome = table.deliver(job, number, bytes);
    table.end(outcome)
}

/// Takes the content of an object that is away, for a migration. Copies the bytes. The premise is the same as in `fc_deliver`.
#[unsafe(no_mangle)]
pub extern "C" fn fc_deliver_copy(handle: &mut Handle, column: u32, group: u32, bytes: &[u8]) -> u32
    requires no_collision { IfSome handle.old.table
        (λ old. HasNoCollision matches content
        (copy_of old.world.state.rows column group) bytes.now) }
    ensures delivered { result ≡ 0
        → Behind
        (λ old. IsDelivered (copy_of old.world.state.rows column group) bytes.now old)
        handle.old.table handle.new.table }
    ensures refused { IsRefusal result
        → Behind
        (λ old. IsCountedFor (WhyNoCopy old.world.state.rows column group bytes.now) result old)
        handle.old.table handle.new.table }
    ensures rejected { 100 ≤ result
        → IsRejectedFor (IsNotAway column group) result handle.old.table handle.new.table }
{
    let Some(table) = handle.table() else {
        return CLOSED;
    };
    if !table.may_fault() {
        return USED_UP;
    }
    match table.deliver_copy(column, group, bytes) {
        // The object is local.
        Err(Refusal::StaleJob) => NOTHING,
        outcome => table.end(outcome),
    }
}

/// Continues with new numbers below `capacity`, and frees the notes of the old ones.
#[unsafe(no_mangle)]
pub extern "C" fn fc_migrate(handle: &mut Handle, capacity: u64) -> u32
    ensures migrated { result ≡ 0
        → Behind (OnWorld (IsRenumbered capacity)) handle.old.table handle.new.table }
    ensures refused { IsRefusal result
        → Behind (IsCounted result) handle.old.table handle.new.table }
    ensures rejected { 100 ≤ result
        → IsRejectedFor IsUsedUp result handle.old.table handle.new.table }
{
    let Some(table) = handle.table() else {
        return CLOSED;
    };
    if !table.may_fault() {
        return USED_UP;
    }
    let outcome = table.migrate(capacity);
    table.end(outcome)
}
