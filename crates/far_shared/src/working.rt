// Work in the background, over one table: how it begins and ends.
ghost use Rattle.std.specs.Prelude.{◌≡◌, ◌<◌, ◌≤◌, [], ◌∷◌, Some, None, length, IfOk, IfErr, IfSome, IsErrOf, OnOk, OnErr};
ghost use Rattle.far_store.specs.Faults.{RefusedBy};
ghost use Rattle.far_rows.specs.Jobs.{AreAt, fetch_refusal};
ghost use Rattle.far_frame.specs.Effects.{Accepts, Refuses};
ghost use Rattle.far_frame.specs.declared.step.Reply.TheVariants as reply;
ghost use Rattle.far_frame.specs.declared.step.Step.TheVariants as step;
ghost use Rattle.far_frame.specs.Jobs.{IsFetchJob, IsJobAt, job_kind};
ghost use Rattle.far_shared.specs.Works.{KeepsRows, KeepsStripe, IsBuildJob, BuildRefusal, BeginsWork, BeginRefusal, BeginsBuild, IsBuildingAt, EndsWork, EndRefusal, begin_refusals, begun_kind, columns_for, end_refusals};

use crate::work::{Building, Work};
use far_frame::{Frame, Job, JobKind};
use far_store::FarTickets;
use far_types::{Name, Refusal};

/// Begins to build a pending row group from the far store's copies; `None` exactly if none is pending. Changes nothing.
///
/// Refused with `StaleJob` (20) if an object that its aggregate needs is dirty, and with `NoMemory` (1).
pub(crate) fn build_on<S: FarTickets>(
    frame: &Frame<S>,
    store: &S,
) -> Result<Option<Job<S>>, Refusal>
    requires here { AreAt S.is_of (S.store_id store.now) frame.now.rows }
    ensures begun { IfOk result (IsBuildJob frame.now) }
    ensures here { IfOk result (λ job. IfSome job (IsJobAt S.is_of (S.store_id store.now))) }
    ensures refused { IfErr result (BuildRefusal frame.now) }
    ensures numbers { RefusedBy (14 ∷ 20 ∷ 1 ∷ []) result }
{
    let Some((aggregate, group)) = frame.unbuilt() else {
        return Ok(None);
    };
    Ok(Some(frame.begin_offload(store, aggregate, group)?))
}

/// Begins to fetch an object. Changes nothing.
///
/// Refused with the first of these that applies:
///
/// - `NoColumn` (4): there is no such column.
/// - `OutOfRange` (14): the row group has no place.
/// - `StaleJob` (20): the object is local.
fn fetch_on<S: FarTickets>(frame: &Frame<S>, store: &S, name: Name) -> Result<Job<S>, Refusal>
    requires here { AreAt S.is_of (S.store_id store.now) frame.now.rows }
    ensures begun { IfOk result (IsFetchJob frame.now.rows name.column name.group) }
    ensures here { IfOk result (IsJobAt S.is_of (S.store_id store.now)) }
    ensures refused { IfErr result
        (λ e. fetch_refusal frame.now.rows name.column name.group ≡ Some e) }
    ensures column { length frame.now.rows.column_indexes ≤ name.column
        → IsErrOf result Refusal.NoColumn }
    ensures numbers { name.column < length frame.now.rows.column_indexes
        → RefusedBy (14 ∷ 20 ∷ []) result }
{
    frame.begin_fetch(store, name.column, name.group)
}

/// Begins a work; `None` if there is nothing to do. Changes nothing.
///
/// - An evacuation is refused only with `NoMemory` (1).
/// - A fetch is refused with `NoColumn` (4), else with `OutOfRange` (14) if the row group has no place, and with `StaleJob` (20) if
///   the object is local.
/// - A build is refused as `build_on` says.
pub(crate) fn begin_on<S: FarTickets>(
    frame: &Frame<S>,
    store: &S,
    work: &Work,
) -> Result<Option<Job<S>>, Refusal>
    requires here { AreAt S.is_of (S.store_id store.now) frame.now.rows }
    ensures begun { IfOk result (BeginsWork frame.now work.now) }
    ensures here { IfOk result (λ job. IfSome job (IsJobAt S.is_of (S.store_id store.now))) }
    ensures refused { IfErr result (BeginRefusal frame.now work.now) }
    ensures column { length frame.now.rows.column_indexes < columns_for work.now
        → IsErrOf result Refusal.NoColumn }
    ensures numbers { columns_for work.now ≤ length frame.now.rows.column_indexes
        → RefusedBy (begin_refusals work.now) result }
{
    match work {
        Work::Evacuate(_) => frame.begin_coldest(store),
        Work::Fetch(_, name) => Ok(Some(fetch_on(frame, store, *name)?)),
        Work::Build(_) => build_on(frame, store),
    }
}

/// Ends a job by its kind: commits, installs or merges it. The rows are unchanged. Only a carried job is accepted.
///
/// A refused call changes nothing. It is refused:
///
/// - as `Frame::commit`, with `StaleJob` (20) and `Pinned` (19);
/// - as `Frame::install`, with `StaleJob` (20), `RegionFull` (17) and `NoMemory` (1);
/// - as `Frame::merge`, with `NoAggregate` (12), `StaleJob` (20) and `NoMemory` (1).
pub(crate) fn finish_on<S: FarTickets>(
    frame: &mut Frame<S>,
    store: &S,
    job: &Job<S>,
) -> Result<(), Refusal>
    requires here { AreAt S.is_of (S.store_id store.now) frame.old.rows }
    requires job_here { IsJobAt S.is_of (S.store_id store.now) job.now }
    ensures ended { OnOk result
        (EndsWork S.number_of S.content frame.old (job_kind job.now) job.now.work frame.new) }
    ensures refused { IfErr result
        (EndRefusal S.number_of S.content frame.old (job_kind job.now) job.now.work) }
    ensures err { OnErr result (frame.new ≡ frame.old) }
    ensures carried { OnOk result (begun_kind job.now.work ≡ None) }
    ensures numbers { RefusedBy (end_refusals (job_kind job.now)) result }
    ensures keeps { KeepsStripe S.is_of (S.store_id store.now) frame.old frame.new }
{
    match job.kind() {
        JobKind::Evac => frame.commit(store, job),
        JobKind::Fetch => frame.install(store, job),
        JobKind::Offload => frame.merge(store, job),
    }
}

/// Begins to build a pending row group: by a scan, if all columns that its aggregate needs are local, otherwise by a job. Changes
/// nothing.
///
/// Refused as `build_on` is, if no scan is possible.
pub(crate) fn building_on<S: FarTickets>(
    frame: &Frame<S>,
    store: &S,
) -> Result<Building<Job<S>>, Refusal>
    requires here { AreAt S.is_of (S.store_id store.now) frame.now.rows }
    ensures begun { IfOk result (BeginsBuild frame.now) }
    ensures here { IfOk result (IsBuildingAt S.is_of (S.store_id store.now)) }
    ensures refused { IfErr result (BuildRefusal frame.now) }
    ensures numbers { RefusedBy (14 ∷ 20 ∷ 1 ∷ []) result }
{
    let Some((aggregate, group)) = frame.unbuilt() else {
        return Ok(Building::Nothing);
    };
    if frame.may_scan(aggregate, group) {
        return Ok(Building::Scan { aggregate, group });
    }
    Ok(Building::Offload(frame.begin_offload(store, aggregate, group)?))
}

/// Scans a row group into an aggregate. The rows and objects are unchanged.
///
/// Refused with `NoAggregate` (12), `OutOfRange` (14), `StaleJob` (20), `Absent` (16) and `NoMemory` (1), as
/// `Frame::scan_group` is. A refused call changes nothing.
pub(crate) fn scan_on<S: FarTickets>(
    frame: &mut Frame<S>,
    aggregate: u32,
    group: u32,
) -> Result<(), Refusal>
    ensures scanned { OnOk result
        (Accepts S.content frame.old (step.ScanGroup aggregate group) reply.Done frame.new) }
    ensures refused { IfErr result
        (λ e. Refuses frame.old (step.ScanGroup aggregate group) e frame.new) }
    ensures err { OnErr result (frame.new ≡ frame.old) }
    ensures numbers { RefusedBy (12 ∷ 14 ∷ 20 ∷ 16 ∷ 1 ∷ []) result }
    ensures keeps { KeepsRows frame.old.table frame.new.table }
    ensures rows { frame.new.rows ≡ frame.old.rows }
{
    frame.scan_group(aggregate, group)
}
