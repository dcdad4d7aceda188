// Work in the background, under the lock of one stripe. A carry holds no lock.
ghost use Rattle.std.specs.Prelude.{◌≡◌, ◌+◌, ◌<◌, ◌≤◌, ◌^◌, [], ◌∷◌, None, length, IfOk, IfErr, IfSome, OnOk};
ghost use Rattle.far_store.specs.Faults.{RefusedBy, faults_in};
ghost use Rattle.far_frame.specs.Effects.{Accepts, WhyRefused};
ghost use Rattle.far_frame.specs.Jobs.{IsJobAt, job_kind};
ghost use Rattle.far_frame.specs.declared.step.Reply.TheVariants as reply;
ghost use Rattle.far_frame.specs.declared.step.Step.TheVariants as step;
ghost use Rattle.far_shared.specs.Works.{IsJobOf, IsBuildOf, IsBuildingAt, BeginsBuild, BuildRefusal, begin_refusals, begun_kind, columns_for, end_refusals, job_refusals, stripe_of};
ghost use Rattle.far_shared.specs.UnderLock.{BeginFails, Begins, BuildFails, Builds, Changed, CompleteFails, Completes, EndFails, Ends, EvacuationFails, Evacuates, FetchFails, Fetches, Found, IsUnder};

use crate::stripe::{Stripe, TableTag};
use crate::work::{Building, Work};
use far_frame::Job;
use far_sessions::PlanTag;
use far_store::{FarStore, FarTickets, Meter};
use far_types::{Name, Refusal};
use std::alloc::Global;
use std::sync::{RwLock, Wait};

/// Begins a work under the read lock.
pub(crate) fn begin_under<N: PlanTag, B: TableTag, S: FarTickets, const I: usize, R: Wait>(
    rt: &R,
    lock: &RwLock<Stripe<N, B, S, I>>,
    store: &S,
    work: &Work,
) -> Result<Option<Job<S>>, Refusal>
    requires own { stripe_of work.now ≡ I }
    requires column { columns_for work.now ≤ length N.plan.schema }
    requires store { S.store_id store.now ≡ B.store }
    ensures begun { IfOk result (IsJobOf work.now) }
    ensures here { IfOk result (λ job. IfSome job (IsJobAt S.is_of B.store)) }
    ensures refused { RefusedBy (begin_refusals work.now) result }
    ensures begins { IfOk result
        (Begins (IsUnder N.plan S.is_of B.store (stripe_of work.now)) work.now) }
    ensures why { IfErr result
        (BeginFails (IsUnder N.plan S.is_of B.store (stripe_of work.now)) work.now) }
{
    let stripe = lock.read(rt);
    stripe.known();
    stripe.begin(store, work)
}

/// Ends a job under the write lock.
pub(crate) fn finish_under<N: PlanTag, B: TableTag, S: FarTickets, const I: usize, R: Wait>(
    rt: &R,
    lock: &RwLock<Stripe<N, B, S, I>>,
    stripe: u32,
    store: &S,
    job: &Job<S>,
) -> Result<(), Refusal>
    requires own { stripe ≡ I }
    requires store { S.store_id store.now ≡ B.store }
    requires here { IsJobAt S.is_of B.store job.now }
    ensures carried { OnOk result (begun_kind job.now.work ≡ None) }
    ensures refused { RefusedBy (end_refusals (job_kind job.now)) result }
    ensures ended { OnOk result
        (Ends S.number_of S.content (IsUnder N.plan S.is_of B.store stripe) job.now) }
    ensures why { IfErr result
        (EndFails S.number_of S.content (IsUnder N.plan S.is_of B.store stripe) job.now) }
{
    let mut stripe = lock.write(rt);
    stripe.known();
    let ended = stripe.finish(store, job);
    stripe.known();
    ended
}

/// Begins to build a pending row group, under the read lock.
fn building_under<N: PlanTag, B: TableTag, S: FarTickets, const I: usize, R: Wait>(
    rt: &R,
    lock: &RwLock<Stripe<N, B, S, I>>,
    store: &S,
) -> Result<Building<Job<S>>, Refusal>
    requires store { S.store_id store.now ≡ B.store }
    ensures begun { IfOk result IsBuildOf }
    ensures here { IfOk result (IsBuildingAt S.is_of B.store) }
    ensures refused { RefusedBy (14 ∷ 20 ∷ 1 ∷ []) result }
    ensures begins { IfOk result
        (λ build. Found (IsUnder N.plan S.is_of B.store I) (λ s. BeginsBuild s build)) }
    ensures why { IfErr result
        (λ e. Found (IsUnder N.plan S.is_of B.store I) (λ s. BuildRefusal s e)) }
{
    let stripe = lock.read(rt);
    stripe.known();
    stripe.building(store)
}

/// Builds a row group into an aggregate by a scan, under the write lock.
fn scan_under<N: PlanTag, B: TableTag, S: FarTickets, const I: usize, R: Wait>(
    rt: &R,
    lock: &RwLock<Stripe<N, B, S, I>>,
    aggregate: u32,
    group: u32,
) -> Result<(), Refusal>
    ensures refused { RefusedBy (12 ∷ 14 ∷ 20 ∷ 16 ∷ 1 ∷ []) result }
    ensures scanned { OnOk result (Changed (IsUnder N.plan S.is_of B.store I)
        (λ old new. Accepts S.content old (step.ScanGroup aggregate group) reply.Done new)) }
    ensures why { IfErr result (λ e. Found (IsUnder N.plan S.is_of B.store I)
        (λ s. WhyRefused s (step.ScanGroup aggregate group) e)) }
{
    let mut stripe = lock.write(rt);
    stripe.known();
    let scanned = stripe.scan(aggregate, group);
    stripe.known();
    scanned
}

/// Returns why a job was returned, and drops the job.
///
/// Takes a job of any type. For the proof: a function that drops a job itself is long to prove, and here the type does not matter.
fn refusal_of<J: Drop>(back: (Refusal, J)) -> Refusal
    ensures { result ≡ back.0 }
{
    back.0
}

/// Carries a job under no lock, and ends it.
fn complete_under<N: PlanTag, B: TableTag, S: FarStore, const I: usize, R: Wait>(
    rt: &R,
    alloc: Global,
    lock: &RwLock<Stripe<N, B, S, I>>,
    stripe: u32,
    store: &S,
    meter: &mut Meter,
    job: Job<S>,
) -> Result<(), Refusal>
    requires own { stripe ≡ I }
    requires few { meter.old < 2 ^ 63 }
    requires store { S.store_id store.now ≡ B.store }
    requires here { IsJobAt S.is_of B.store job }
    ensures faults { meter.new ≡ meter.old + faults_in result }
    ensures refused { RefusedBy (job_refusals (job_kind job)) result }
    ensures completed { OnOk result
        (Completes S.number_of S.content (IsUnder N.plan S.is_of B.store stripe) job) }
    ensures why { IfErr result
        (CompleteFails S.number_of S.content (IsUnder N.plan S.is_of B.store stripe) job) }
{
    match job.carry(alloc, store, meter) {
        Ok(carried) => {
            let ended = finish_under(rt, lock, stripe, store, &carried);
            // For the proof: a call drops the job, for the same reason.
            drop(carried);
            ended
        }
        Err(back) => Err(refusal_of(back)),
    }
}

/// Evicts the coldest object of a stripe, and returns its name; `None` if there is none that can be evicted.
pub(crate) fn evacuate_under<N: PlanTag, B: TableTag, S: FarStore, const I: usize, R: Wait>(
    rt: &R,
    alloc: Global,
    lock: &RwLock<Stripe<N, B, S, I>>,
    stripe: u32,
    store: &S,
    meter: &mut Meter,
) -> Result<Option<Name>, Refusal>
    requires own { stripe ≡ I }
    requires few { meter.old < 2 ^ 63 }
    requires store { S.store_id store.now ≡ B.store }
    ensures faults { meter.new ≡ meter.old + faults_in result }
    ensures refused { RefusedBy (21 ∷ 22 ∷ 20 ∷ 19 ∷ 1 ∷ []) result }
    ensures evacuated { IfOk result
        (Evacuates S.number_of S.content (IsUnder N.plan S.is_of B.store stripe)) }
    ensures why { IfErr result
        (EvacuationFails S.number_of S.content (IsUnder N.plan S.is_of B.store stripe)) }
{
    let Some(job) = begin_under(rt, lock, store, &Work::Evacuate(stripe))? else {
        return Ok(None);
    };
    let name = job.object();
    complete_under(rt, alloc, lock, stripe, store, meter, job)?;
    Ok(name)
}

/// Fetches an object of a stripe.
pub(crate) fn fetch_under<N: PlanTag, B: TableTag, S: FarStore, const I: usize, R: Wait>(
    rt: &R,
    alloc: Global,
    lock: &RwLock<Stripe<N, B, S, I>>,
    stripe: u32,
    name: Name,
    store: &S,
    meter: &mut Meter,
) -> Result<(), Refusal>
    requires own { stripe ≡ I }
    requires column { name.column < length N.plan.schema }
    requires few { meter.old < 2 ^ 63 }
    requires store { S.store_id store.now ≡ B.store }
    ensures faults { meter.new ≡ meter.old + faults_in result }
    ensures refused { RefusedBy (14 ∷ 20 ∷ 21 ∷ 17 ∷ 1 ∷ []) result }
    ensures fetched { OnOk result
        (Fetches S.number_of S.content (IsUnder N.plan S.is_of B.store stripe) name) }
    ensures why { IfErr result
        (FetchFails S.number_of S.content (IsUnder N.plan S.is_of B.store stripe) name) }
{
    let Some(job) = begin_under(rt, lock, store, &Work::Fetch(stripe, name))? else {
        unreachable!()
    };
    complete_under(rt, alloc, lock, stripe, store, meter, job)
}

/// Builds a pending row group of a stripe into its aggregate. Returns false if none is pending.
pub(crate) fn build_under<N: PlanTag, B: TableTag, S: FarStore, const I: usize, R: Wait>(
    rt: &R,
    alloc: Global,
    lock: &RwLock<Stripe<N, B, S, I>>,
    stripe: u32,
    store: &S,
    meter: &mut Meter,
) -> Result<bool, Refusal>
    requires own { stripe ≡ I }
    requires few { meter.old < 2 ^ 63 }
    requires store { S.store_id store.now ≡ B.store }
    ensures faults { meter.new ≡ meter.old + faults_in result }
    ensures refused { RefusedBy (14 ∷ 12 ∷ 20 ∷ 16 ∷ 21 ∷ 1 ∷ []) result }
    ensures built { IfOk result
        (Builds S.number_of S.content (IsUnder N.plan S.is_of B.store stripe)) }
    ensures why { IfErr result
        (BuildFails S.number_of S.content (IsUnder N.plan S.is_of B.store stripe)) }
{
    match building_under(rt, lock, store)? {
        Building::Nothing => Ok(false),
        Building::Scan { aggregate, group } => {
            scan_under(rt, lock, aggregate, group)?;
            Ok(true)
        }
        Building::Offload(job) => {
            complete_under(rt, alloc, lock, stripe, store, meter, job)?;
            Ok(true)
        }
    }
}
