//! Jobs of one table at another table over the same store. A job is stale there, and accepted once at its own table, after
//! it was carried and by the call for its kind.
ghost use Rattle.std.specs.Prelude.{◌+◌, ◌<◌, ◌≤◌, ◌^◌, ℕ, List, IfOk};
ghost use Rattle.far_rows.specs.Jobs.{AreAt};
ghost use Rattle.far_frame.specs.Jobs.{IsJobAt};

use crate::call::{TOTALS, spec};
use crate::opening::{FOUR_SEGMENTS, SOUND, frame, store};
use far_frame::{Frame, Job};
use far_store::{FarStore, FarTickets, Meter};
use far_types::{Cell, Kind, Refusal, Row, Spec};
use std::alloc::Global;
use std::sync::Wait;

/// Whether a check succeeds, or why a call was refused.
pub type Checked = Result<bool, Refusal>;

/// The call that ends a job.
#[derive(Clone, Copy)]
pub enum End {
    Commit,
    Install,
    Merge,
}

/// Registers an aggregate.
fn watch<S: FarTickets>(frame: &mut Frame<S>, spec: Spec) -> Result<u32, Refusal>
    ensures { (id : List ℕ) → AreAt S.is_of id frame.old.rows → AreAt S.is_of id frame.new.rows }
{
    frame.watch(spec)
}

/// Returns a row of one number.
fn row_of(alloc: Global, number: i64) -> Result<Row, Refusal> {
    match Vec::from_array(alloc, [Cell::Int(number)]) {
        Ok(cells) => Ok(Row::new(cells)),
        Err(_) => Err(Refusal::NoMemory),
    }
}

/// Inserts a row of one number.
pub fn insert<S: FarTickets>(
    alloc: Global,
    frame: &mut Frame<S>,
    number: i64,
) -> Result<(), Refusal>
    ensures { (id : List ℕ) → AreAt S.is_of id frame.old.rows → AreAt S.is_of id frame.new.rows }
{
    match row_of(alloc, number) {
        Ok(row) => match frame.insert(row) {
            Ok(_) => Ok(()),
            Err(refusal) => Err(refusal),
        },
        Err(refusal) => Err(refusal),
    }
}

/// Registers an aggregate of all rows.
pub fn watch_totals<S: FarTickets>(alloc: Global, frame: &mut Frame<S>) -> Result<(), Refusal>
    ensures { (id : List ℕ) → AreAt S.is_of id frame.old.rows → AreAt S.is_of id frame.new.rows }
{
    watch(frame, spec(alloc, TOTALS)).and(Ok(()))
}

/// Inserts a row and registers an aggregate, in which the row group is pending.
fn fill<S: FarTickets>(alloc: Global, frame: &mut Frame<S>) -> Result<(), Refusal>
    ensures { (id : List ℕ) → AreAt S.is_of id frame.old.rows → AreAt S.is_of id frame.new.rows }
{
    let inserted = insert(alloc, frame, 4);
    inserted.and(watch_totals(alloc, frame))
}

/// Returns whether both checks succeed, or why a call was refused.
pub fn both(first: Checked, second: Checked) -> Checked {
    match (first, second) {
        (Ok(first), Ok(second)) => Ok(first && second),
        (Err(refusal), _) => Err(refusal),
        (_, Err(refusal)) => Err(refusal),
    }
}

/// Begins a job that this call ends.
fn begun<S: FarTickets>(frame: &Frame<S>, store: &S, end: End) -> Result<Job<S>, Refusal>
    requires here { AreAt S.is_of (S.store_id store.now) frame.now.rows }
    ensures { IfOk result (IsJobAt S.is_of (S.store_id store.now)) }
{
    match end {
        End::Commit => frame.begin_evac(store, 0, 0),
        End::Install => frame.begin_fetch(store, 0, 0),
        End::Merge => frame.begin_offload(store, 0, 0),
    }
}

/// Begins and carries a job that this call ends.
pub fn carried<S: FarStore>(
    alloc: Global,
    frame: &Frame<S>,
    store: &S,
    end: End,
) -> Result<Job<S>, Refusal>
    requires here { AreAt S.is_of (S.store_id store.now) frame.now.rows }
    ensures { IfOk result (IsJobAt S.is_of (S.store_id store.now)) }
{
    match begun(frame, store, end) {
        Ok(job) => job.carry(alloc, store, &mut Meter::new()).map_err(why),
        Err(refusal) => Err(refusal),
    }
}

// Returns why a job was refused.
fn why<J: Drop>(refused: (Refusal, J)) -> Refusal {
    refused.0
}

/// Returns whether the end of a job gets this reply. Refused with `NoMemory` (1) if memory runs out.
fn ends_so<S: FarStore>(
    frame: &mut Frame<S>,
    store: &S,
    job: &Job<S>,
    end: End,
    due: Result<(), Refusal>,
) -> Checked
    requires here { AreAt S.is_of (S.store_id store.now) frame.old.rows }
    requires job_here { IsJobAt S.is_of (S.store_id store.now) job.now }
    ensures { AreAt S.is_of (S.store_id store.now) frame.new.rows }
{
    let reply = match end {
        End::Commit => frame.commit(store, job),
        End::Install => frame.install(store, job),
        End::Merge => frame.merge(store, job),
    };
    is_due(reply, due)
}

fn is_due(reply: Result<(), Refusal>, due: Result<(), Refusal>) -> Checked {
    match reply {
        Err(Refusal::NoMemory) => Err(Refusal::NoMemory),
        reply => Ok(reply == due),
    }
}

/// Returns whether a job is stale at a table, for each of the three calls.
fn is_stale<S: FarStore>(frame: &mut Frame<S>, store: &S, job: &Job<S>) -> Checked
    requires here { AreAt S.is_of (S.store_id store.now) frame.old.rows }
    requires job_here { IsJobAt S.is_of (S.store_id store.now) job.now }
    ensures { AreAt S.is_of (S.store_id store.now) frame.new.rows }
{
    let stale = Err(Refusal::StaleJob);
    let at_commit = ends_so(frame, store, job, End::Commit, stale);
    let at_install = ends_so(frame, store, job, End::Install, stale);
    let at_merge = ends_so(frame, store, job, End::Merge, stale);
    both(at_commit, both(at_install, at_merge))
}

// Returns the next of the three calls, in a circle.
fn next(end: End) -> End {
    match end {
        End::Commit => End::Install,
        End::Install => End::Merge,
        End::Merge => End::Commit,
    }
}

/// Returns whether a job is stale at its own table for the two calls that do not end its kind.
fn is_of_one_kind<S: FarStore>(frame: &mut Frame<S>, store: &S, job: &Job<S>, end: End) -> Checked
    requires here { AreAt S.is_of (S.store_id store.now) frame.old.rows }
    requires job_here { IsJobAt S.is_of (S.store_id store.now) job.now }
    ensures { AreAt S.is_of (S.store_id store.now) frame.new.rows }
{
    let stale = Err(Refusal::StaleJob);
    let at_next = ends_so(frame, store, job, next(end), stale);
    let at_last = ends_so(frame, store, job, next(next(end)), stale);
    both(at_next, at_last)
}

/// Begins a job, and returns whether it is stale at its own table before it is carried.
fn is_stale_uncarried<S: FarStore>(frame: &mut Frame<S>, store: &S, end: End) -> Checked
    requires here { AreAt S.is_of (S.store_id store.now) frame.old.rows }
    ensures { AreAt S.is_of (S.store_id store.now) frame.new.rows }
{
    match begun(frame, store, end) {
        Ok(job) => {
            let checked = is_stale(frame, store, &job);
            drop(job);
            checked
        }
        Err(refusal) => Err(refusal),
    }
}

/// Returns whether a carried job is stale at another table, and at its own for the calls of other kinds; then is accepted,
/// and is stale afterwards.
fn is_of_one_table<S: FarStore>(
    own: &mut Frame<S>,
    other: &mut Frame<S>,
    store: &S,
    job: &Job<S>,
    end: End,
) -> Checked
    requires own { AreAt S.is_of (S.store_id store.now) own.old.rows }
    requires other { AreAt S.is_of (S.store_id store.now) other.old.rows }
    requires job_here { IsJobAt S.is_of (S.store_id store.now) job.now }
    ensures own { AreAt S.is_of (S.store_id store.now) own.new.rows }
    ensures other { AreAt S.is_of (S.store_id store.now) other.new.rows }
{
    let before = both(
        is_stale(other, store, job),
        is_of_one_kind(own, store, job, end),
    );
    let is_accepted = ends_so(own, store, job, end, Ok(()));
    both(before, both(is_accepted, is_stale(own, store, job)))
}

/// Returns the same for a new job of the first table.
fn is_told_at_its_end<S: FarStore>(
    alloc: Global,
    own: &mut Frame<S>,
    other: &mut Frame<S>,
    store: &S,
    end: End,
) -> Checked
    requires own { AreAt S.is_of (S.store_id store.now) own.old.rows }
    requires other { AreAt S.is_of (S.store_id store.now) other.old.rows }
    ensures own { AreAt S.is_of (S.store_id store.now) own.new.rows }
    ensures other { AreAt S.is_of (S.store_id store.now) other.new.rows }
{
    match carried(alloc, own, store, end) {
        Ok(job) => {
            let checked = is_of_one_table(own, other, store, &job, end);
            drop(job);
            checked
        }
        Err(refusal) => Err(refusal),
    }
}

/// Returns the same, and whether another such job is stale before it is carried.
fn is_told_apart<S: FarStore>(
    alloc: Global,
    own: &mut Frame<S>,
    other: &mut Frame<S>,
    store: &S,
    end: End,
) -> Checked
    requires own { AreAt S.is_of (S.store_id store.now) own.old.rows }
    requires other { AreAt S.is_of (S.store_id store.now) other.old.rows }
    ensures own { AreAt S.is_of (S.store_id store.now) own.new.rows }
    ensures other { AreAt S.is_of (S.store_id store.now) other.new.rows }
{
    let is_stale = is_stale_uncarried(own, store, end);
    both(is_stale, is_told_at_its_end(alloc, own, other, store, end))
}

/// Returns the same for jobs of each kind: both tables' objects are evicted, and one is scanned in the store and fetched.
fn all_are_told_apart<S: FarStore>(
    alloc: Global,
    own: &mut Frame<S>,
    other: &mut Frame<S>,
    store: &S,
) -> Checked
    requires own { AreAt S.is_of (S.store_id store.now) own.old.rows }
    requires other { AreAt S.is_of (S.store_id store.now) other.old.rows }
{
    let filled = fill(alloc, own).and(fill(alloc, other));
    let goes = is_told_apart(alloc, own, other, store, End::Commit);
    let other_goes = is_told_apart(alloc, other, own, store, End::Commit);
    let is_merged = is_told_apart(alloc, own, other, store, End::Merge);
    let comes_back = is_told_apart(alloc, own, other, store, End::Install);
    filled.and(both(both(goes, other_goes), both(is_merged, comes_back)))
}

/// Returns the same for an empty table and a new one.
fn are_told_from_another<S: FarStore>(alloc: Global, own: &mut Frame<S>, store: &S) -> Checked
    requires own { AreAt S.is_of (S.store_id store.now) own.old.rows }
{
    match frame(alloc, &[Kind::Int], FOUR_SEGMENTS, 1) {
        Ok(mut other) => {
            let checked = all_are_told_apart(alloc, own, &mut other, store);
            drop(other);
            checked
        }
        Err(refusal) => Err(refusal),
    }
}

/// Returns the same for two empty tables over a store.
fn are_told_over<S: FarStore>(alloc: Global, store: &S) -> Checked {
    match frame(alloc, &[Kind::Int], FOUR_SEGMENTS, 0) {
        Ok(mut own) => {
            let checked = are_told_from_another(alloc, &mut own, store);
            drop(own);
            checked
        }
        Err(refusal) => Err(refusal),
    }
}

/// Returns the same over this store, if it was made.
fn are_told_if_made<S: FarStore>(alloc: Global, store: Result<S, Refusal>) -> Checked {
    match store {
        Ok(store) => are_told_over(alloc, &store),
        Err(refusal) => Err(refusal),
    }
}

/// Returns the same over a new store.
fn play_once<R: Wait + Sync + Drop + Copy>(rt: R, alloc: Global) -> Checked {
    are_told_if_made(alloc, store(rt, alloc, SOUND))
}

/// Returns the same, with a second run if memory runs out.
fn play<R: Wait + Sync + Drop + Copy>(rt: R, alloc: Global) -> Checked {
    match play_once(rt, alloc) {
        Err(Refusal::NoMemory) => play_once(rt, alloc),
        checked => checked,
    }
}

#[test]
fn a_job_of_another_table_is_stale(rt: HostRuntime) {
    assert!(rt; play(&rt, rt.alloc()) == Ok(true));
}
