// Works that several threads do.
ghost use Rattle.std.specs.Prelude.{◌≡◌, ◌+◌, ◌<◌, ◌≤◌, ◌^◌, ◌⊎◌, length, vec_len, sum_by, IfOk, IfErr, OnOk};
ghost use Rattle.std.specs.Int.{div_ceil};
ghost use Rattle.far_shared.specs.UnderLock.{AreServed, IsUnder, ServeFails, Serves};
ghost use Rattle.far_shared.specs.Works.{RefusedFor, columns_for, stripe_of, work_refusals, works_in};

use crate::shared::Shared;
use crate::stripe::TableTag;
use crate::work::{Report, Work};
use far_sessions::PlanTag;
use far_store::{FarStore, Meter};
use far_types::Refusal;
use std::alloc::AllocError;
use std::sync::Wait;
use std::thread::{self, Threads};

// Does one work.
fn serve<N: PlanTag, B: TableTag, S: FarStore, R: Wait>(
    rt: &R,
    shared: &Shared<N, B, S>,
    store: &S,
    work: &Work,
) -> Result<(), Refusal>
    requires store { S.store_id store.now ≡ B.store }
    ensures refused { RefusedFor (length N.plan.schema) (columns_for work.now) (stripe_of work.now)
        (work_refusals work.now) result }
    ensures served { OnOk result
        (Serves S.number_of S.content (IsUnder N.plan S.is_of B.store) work.now) }
    ensures why { IfErr result
        (λ e. columns_for work.now ≤ length N.plan.schema → stripe_of work.now < 4
        → ServeFails S.number_of S.content (IsUnder N.plan S.is_of B.store) work.now e) }
{
    let mut meter = Meter::new();
    match work {
        Work::Evacuate(stripe) => match shared.evacuate_once(rt, *stripe, store, &mut meter) {
            Ok(_) => Ok(()),
            Err(refusal) => Err(refusal),
        },
        Work::Fetch(stripe, name) => shared.fetch(
            rt,
            *stripe,
            name.column,
            name.group,
            store,
            &mut meter,
        ),
        Work::Build(stripe) => match shared.build_once(rt, *stripe, store, &mut meter) {
            Ok(_) => Ok(()),
            Err(refusal) => Err(refusal),
        },
    }
}

// Does several works, one after another.
fn serve_all<N: PlanTag, B: TableTag, S: FarStore, R: Wait>(
    rt: &R,
    shared: &Shared<N, B, S>,
    store: &S,
    works: &[Work],
) -> Report
    requires store { S.store_id store.now ≡ B.store }
    ensures all { works_in result ≡ length works.now }
    ensures served { AreServed S.number_of S.content (IsUnder N.plan S.is_of B.store)
        (length N.plan.schema) works.now result.done result.refused }
{
    let mut report = Report {
        done: 0,
        refused: 0,
    };
    for work in works {
        match serve(rt, shared, store, work) {
            Ok(()) => report.done += 1,
            Err(_) => report.refused += 1,
        }
    }
    report
}

// Returns the number of works for each thread, if at most `workers` threads do them all.
fn chunk_for(count: usize, workers: u32) -> usize
    requires { 0 < workers }
    ensures some { 0 < result }
    ensures few { div_ceil count result ≤ workers }
{
    count.div_ceil(workers as usize).max(1)
}

// Returns the sum of the reports of all threads.
fn sum_of(reports: &[Report]) -> Report
    requires { sum_by works_in reports.now < 2 ^ 64 }
    ensures done { result.done ≡ sum_by (λ report. report.done) reports.now }
    ensures refused { result.refused ≡ sum_by (λ report. report.refused) reports.now }
    ensures all { works_in result ≡ sum_by works_in reports.now }
{
    let mut sum = Report {
        done: 0,
        refused: 0,
    };
    for report in reports {
        sum.done += report.done;
        sum.refused += report.refused;
    }
    sum
}

// Does works on at most `workers` threads, each of which gets consecutive ones. Returns the report of each thread.
fn serve_chunks<
    N: PlanTag + Send + Sync,
    B: TableTag + Send + Sync,
    S: FarStore,
    R: Threads + Wait + Sync,
>(
    rt: &R,
    shared: &Shared<N, B, S>,
    store: &S,
    workers: u32,
    works: &[Work],
) -> Result<Vec<Report>, AllocError>
    requires store { S.store_id store.now ≡ B.store }
    requires some { 0 < workers }
    ensures few { IfOk result (λ reports. vec_len reports ≤ workers) }
    ensures all { IfOk result (λ reports. sum_by works_in reports.items ≡ length works.now) }
    ensures served { IfOk result
        (λ reports. AreServed S.number_of S.content (IsUnder N.plan S.is_of B.store)
        (length N.plan.schema) works.now (sum_by (λ report. report.done) reports.items)
        (sum_by (λ report. report.refused) reports.items)) }
{
    let size = chunk_for(works.len(), workers);
    let serve_some = |_: usize, chunk: &[Work]| -> Report
        requires { S.store_id store.now ≡ B.store }
        ensures { (works_in result ≡ length chunk.now)
            × AreServed S.number_of S.content (IsUnder N.plan S.is_of B.store)
            (length N.plan.schema) chunk.now result.done result.refused }
    { serve_all(rt, shared, store, chunk) };
    let reports = thread::map_chunks(rt, shared.alloc, works, size, &serve_some)?;
    Ok(reports)
}

/// Threads that do work in the background.
///
/// Several threads do a list of works. No lock is held while a thread waits for the store:
///
/// ```
/// pub fn run<
///     N: PlanTag + Send + Sync,
///     B: TableTag + Send + Sync,
///     S: FarStore,
///     R: Threads + Wait + Sync,
/// >(rt: &R, alloc: Global, shared: &Shared<N, B, S>, store: &S, workers: u32, works: Works) -> Replied
///     requires store { S.store_id store.now ≡ B.store }
/// {
///     match list_of(alloc, works_in(works)) {
///         Ok(list) => worked(Background::run(rt, shared, store, workers, list)),
///         Err(_) => Err(Refusal::NoMemory),
///     }
/// }
/// ```
#[derive(Clone, Copy, Debug)]
pub struct Background {}

impl Background {
    /// Does works on at most `workers` threads, each of which gets consecutive ones. The report counts each work, as done or as
    /// refused. A work for which there was nothing to do is done. No row changes.
    ///
    /// Refused with:
    ///
    /// - `OutOfRange` (14), before any work, unless there are 1 to 8 workers;
    /// - `NoMemory` (1), if the threads or their reports find no memory. Some works may be done then, or all.
    pub fn run<
        N: PlanTag + Send + Sync,
        B: TableTag + Send + Sync,
        S: FarStore,
        R: Threads + Wait + Sync,
    >(
        rt: &R,
        shared: &Shared<N, B, S>,
        store: &S,
        workers: u32,
        works: Vec<Work>,
    ) -> Result<Report, Refusal>
        requires store { S.store_id store.now ≡ B.store }
        ensures all { IfOk result (λ report. report.done + report.refused ≡ vec_len works) }
        ensures served { IfOk result
            (λ report. AreServed S.number_of S.content (IsUnder N.plan S.is_of B.store)
            (length N.plan.schema) works.items report.done report.refused) }
        ensures workers { OnOk result ((1 ≤ workers) × (workers ≤ 8)) }
        ensures refused { IfErr result
            (λ e. ((e ≡ Refusal.OutOfRange) × ((workers ≡ 0) ⊎ (8 < workers)))
            ⊎ ((e ≡ Refusal.NoMemory) × ((1 ≤ workers) × (workers ≤ 8)))) }
    {
        if workers < 1 || workers > 8 {
            return Err(Refusal::OutOfRange);
        }
        let reports = serve_chunks(rt, shared, store, workers, &works)?;
        Ok(sum_of(&reports))
    }
}
