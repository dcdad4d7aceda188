// Jobs: objects that are evicted or fetched, and row groups that are built into an aggregate.
ghost use Rattle.std.specs.Prelude.{◌≡◌, ◌≢◌, ◌≤◌, [], None, Some, IsSomeAnd, length};
ghost use Rattle.far_frame.specs.Ending.{IsColdestBegun, no_job};
ghost use Rattle.far_frame.specs.Waiting.{job_at, without_job};
ghost use Rattle.far_c.specs.Carrying.{OnWorld};
ghost use Rattle.far_c.specs.Delivering.{IsCounted};
ghost use Rattle.far_c.specs.Jobs.{IsJobOf, IsWithoutColdest, code_of};
ghost use Rattle.far_frame.specs.declared.step.Step.TheVariants as step;
ghost use Rattle.far_frame.specs.declared.step.Reply.TheVariants as reply;
ghost use Rattle.far_c.specs.Outcomes.{Behind, IsDue, IsServed, IsRefused, IsRefusal, IsRejected, IsRejectedFor, IsUsedUp};

use crate::code::{CLOSED, NOTHING, OK, USED_UP};
use crate::handle::Handle;
use crate::replies;
use far_frame::{JobKind, Step};
use far_types::Refusal;

/// Begins to evict an object, and writes the job's number.
#[unsafe(no_mangle)]
pub extern "C" fn fc_begin_evict(handle: &mut Handle, column: u32, group: u32, job: &mut u64) -> u32
    ensures served { result ≡ 0
        → Behind (IsServed (step.BeginEvac column group) (reply.Job job.new))
        handle.old.table handle.new.table }
    ensures refused { IsRefusal result
        → Behind (IsRefused result (step.BeginEvac column group))
        handle.old.table handle.new.table }
    ensures rejected { 100 ≤ result → IsRejected [] result handle.old.table handle.new.table }
    ensures job { result ≢ 0 → job.new ≡ job.old }
{
    let Some(table) = handle.table() else {
        return CLOSED;
    };
    let outcome = replies::job(table.serve(Step::BeginEvac { column, group }));
    table.give(outcome, job)
}

/// Begins to fetch an object, and writes the job's number.
#[unsafe(no_mangle)]
pub extern "C" fn fc_begin_fetch(handle: &mut Handle, column: u32, group: u32, job: &mut u64) -> u32
    ensures served { result ≡ 0
        → Behind (IsServed (step.BeginFetch column group) (reply.Job job.new))
        handle.old.table handle.new.table }
    ensures refused { IsRefusal result
        → Behind (IsRefused result (step.BeginFetch column group))
        handle.old.table handle.new.table }
    ensures rejected { 100 ≤ result → IsRejected [] result handle.old.table handle.new.table }
    ensures job { result ≢ 0 → job.new ≡ job.old }
{
    let Some(table) = handle.table() else {
        return CLOSED;
    };
    let outcome = replies::job(table.serve(Step::BeginFetch { column, group }));
    table.give(outcome, job)
}

/// Begins to build a row group into an aggregate from the copies of its columns, and writes the job's number.
#[unsafe(no_mangle)]
pub extern "C" fn fc_begin_offload(
    handle: &mut Handle,
    aggregate: u32,
    group: u32,
    job: &mut u64,
) -> u32
    ensures served { result ≡ 0
        → Behind (IsServed (step.BeginOffload aggregate group) (reply.Job job.new))
        handle.old.table handle.new.table }
    ensures refused { IsRefusal result
        → Behind (IsRefused result (step.BeginOffload aggregate group))
        handle.old.table handle.new.table }
    ensures rejected { 100 ≤ result → IsRejected [] result handle.old.table handle.new.table }
    ensures job { result ≢ 0 → job.new ≡ job.old }
{
    let Some(table) = handle.table() else {
        return CLOSED;
    };
    let outcome = replies::job(table.serve(Step::BeginOffload { aggregate, group }));
    table.give(outcome, job)
}

/// Carries a job: draws a number for the content of an eviction, or reads the delivered contents of a fetch or an offload.
#[unsafe(no_mangle)]
pub extern "C" fn fc_carry(handle: &mut Handle, job: u64) -> u32
    ensures served { result ≡ 0
        → Behind (IsServed (step.Carry job) reply.Done) handle.old.table handle.new.table }
    ensures refused { IsRefusal result
        → Behind (IsRefused result (step.Carry job)) handle.old.table handle.new.table }
    ensures rejected { 100 ≤ result
        → IsRejectedFor IsUsedUp result handle.old.table handle.new.table }
{
    let Some(table) = handle.table() else {
        return CLOSED;
    };
    if !table.may_fault() {
        return USED_UP;
    }
    let outcome = replies::done(table.carry(job));
    table.end(outcome)
}

/// Ends a carried eviction: the object is away.
#[unsafe(no_mangle)]
pub extern "C" fn fc_commit(handle: &mut Handle, job: u64) -> u32
    ensures served { result ≡ 0
        → Behind (IsServed (step.Commit job) reply.Done) handle.old.table handle.new.table }
    ensures refused { IsRefusal result
        → Behind (IsRefused result (step.Commit job)) handle.old.table handle.new.table }
    ensures rejected { 100 ≤ result → IsRejected [] result handle.old.table handle.new.table }
{
    let Some(table) = handle.table() else {
        return CLOSED;
    };
    let outcome = replies::done(table.serve(Step::Commit(job)));
    table.end(outcome)
}

/// Ends a carried fetch: the object is local.
#[unsafe(no_mangle)]
pub extern "C" fn fc_install(handle: &mut Handle, job: u64) -> u32
    ensures served { result ≡ 0
        → Behind (IsServed (step.Install job) reply.Done) handle.old.table handle.new.table }
    ensures refused { IsRefusal result
        → Behind (IsRefused result (step.Install job)) handle.old.table handle.new.table }
    ensures rejected { 100 ≤ result → IsRejected [] result handle.old.table handle.new.table }
{
    let Some(table) = handle.table() else {
        return CLOSED;
    };
    let outcome = replies::done(table.serve(Step::Install(job)));
    table.end(outcome)
}

/// Ends a carried offload: the row group is scanned.
#[unsafe(no_mangle)]
pub extern "C" fn fc_merge(handle: &mut Handle, job: u64) -> u32
    ensures served { result ≡ 0
        → Behind (IsServed (step.Merge job) reply.Done) handle.old.table handle.new.table }
    ensures refused { IsRefusal result
        → Behind (IsRefused result (step.Merge job)) handle.old.table handle.new.table }
    ensures rejected { 100 ≤ result → IsRejected [] result handle.old.table handle.new.table }
{
    let Some(table) = handle.table() else {
        return CLOSED;
    };
    let outcome = replies::done(table.serve(Step::Merge(job)));
    table.end(outcome)
}

/// Begins to evict the coldest object without a pin, of the kind that has less space, and writes the job's number.
#[unsafe(no_mangle)]
pub extern "C" fn fc_begin_coldest(handle: &mut Handle, job: &mut u64) -> u32
    ensures begun { result ≡ 0
        → Behind (OnWorld (λ old new. IsColdestBegun old (Some job.new) new))
        handle.old.table handle.new.table }
    ensures rejected { 100 ≤ result
        → IsRejectedFor IsWithoutColdest result handle.old.table handle.new.table }
    ensures job { result ≢ 0 → job.new ≡ job.old }
{
    let Some(table) = handle.table() else {
        return CLOSED;
    };
    match table.begin_coldest() {
        Ok(Some(n)) => {
            *job = n;
            OK
        }
        Ok(None) => NOTHING,
        Err(refusal) => table.refuse(refusal),
    }
}

/// Drops a job, whatever its phase.
#[unsafe(no_mangle)]
pub extern "C" fn fc_give_up(handle: &mut Handle, job: u64) -> u32
    ensures given_up { result ≡ 0
        → Behind (OnWorld (λ old new. new ≡ record old { jobs = without_job old.jobs job }))
        handle.old.table handle.new.table }
    ensures rejected { 100 ≤ result → IsRejected [] result handle.old.table handle.new.table }
{
    let Some(table) = handle.table() else {
        return CLOSED;
    };
    let outcome = table.give_up(job);
    table.end(outcome)
}

/// Counts a fault of the storage. The job waits.
#[unsafe(no_mangle)]
pub extern "C" fn fc_fault(handle: &mut Handle, job: u64) -> u32
    ensures counted { IsRefusal result
        → Behind (IsCounted result) handle.old.table handle.new.table }
    ensures never { result ≢ 0 }
    ensures rejected { 100 ≤ result
        → IsRejectedFor IsUsedUp result handle.old.table handle.new.table }
{
    let Some(table) = handle.table() else {
        return CLOSED;
    };
    if !table.may_fault() {
        return USED_UP;
    }
    let refusal = table.fault(job);
    table.refuse(refusal)
}

/// The description of a job: its kind, whether it was carried, and the object that it moves.
#[repr(C)]
#[derive(Drop)]
pub struct FcJob {
    pub kind: u32,
    pub carried: bool,
    pub column: u32,
    pub group: u32,
}

/// Writes the description of a job.
#[unsafe(no_mangle)]
pub extern "C" fn fc_job_of(handle: &mut Handle, job: u64, about: &mut FcJob) -> u32
    ensures about { result ≡ 0
        → IsSomeAnd handle.old.table
        (λ old. IsSomeAnd (job_at old.world.jobs job) (λ found. IsJobOf found about.new)) }
    ensures same { result ≢ 20 → handle.new.table ≡ handle.old.table }
    ensures refused { IsRefusal result
        → Behind (IsDue (λ old. no_job old.world job) result) handle.old.table handle.new.table }
    ensures closed { 100 ≤ result → (result ≡ 100) × (handle.old.table ≡ None) }
{
    let Some(table) = handle.table() else {
        return CLOSED;
    };
    let Some(found) = table.world().job(job) else {
        return table.refuse(Refusal::StaleJob);
    };
    about.kind = code_of(found.kind());
    about.carried = found.is_carried();
    let (column, group) = match found.object() {
        Some(name) => (name.column, name.group),
        None => (0, 0),
    };
    about.column = column;
    about.group = group;
    OK
}

fn code_of(kind: JobKind) -> u32
    ensures { result ≡ code_of kind }
{
    match kind {
        JobKind::Evac => 0,
        JobKind::Fetch => 1,
        JobKind::Offload => 2,
    }
}

/// Writes the number of jobs that were begun, and how many of them have not ended.
#[unsafe(no_mangle)]
pub extern "C" fn fc_jobs(handle: &mut Handle, begun: &mut u64, waiting: &mut u64) -> u32
    ensures begun { result ≡ 0 → IsSomeAnd handle.old.table (λ old. begun.new ≡ old.world.begun) }
    ensures waiting { result ≡ 0
        → IsSomeAnd handle.old.table (λ old. waiting.new ≡ length old.world.jobs) }
    ensures same { handle.new.table ≡ handle.old.table }
{
    let Some(table) = handle.table() else {
        return CLOSED;
    };
    let count = table.world().begun();
    let left = table.world().waiting();
    *begun = count;
    *waiting = left;
    OK
}
