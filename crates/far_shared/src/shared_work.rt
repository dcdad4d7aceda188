// Work in the background of a shared table.
ghost use Rattle.std.specs.Prelude.{◌≡◌, ◌+◌, ◌<◌, ◌≤◌, ◌^◌, [], ◌∷◌, None, length, IfOk, IfErr, IfSome, OnOk};
ghost use Rattle.far_store.specs.Faults.{faults_in};
ghost use Rattle.far_frame.specs.Jobs.{IsJobAt, job_kind};
ghost use Rattle.far_shared.specs.UnderLock.{BeginFails, Begins, BuildFails, Builds, EndFails, Ends, EvacuationFails, Evacuates, FetchFails, Fetches, IsUnder};
ghost use Rattle.far_shared.specs.Works.{IsJobOf, RefusedAt, RefusedFor, stripe_of, columns_for, begin_refusals, begun_kind, end_refusals};

use crate::locked::{begin_under, build_under, evacuate_under, fetch_under, finish_under};
use crate::shared::Shared;
use crate::stripe::TableTag;
use crate::work::Work;
use far_frame::Job;
use far_sessions::PlanTag;
use far_store::{FarStore, FarTickets, Meter};
use far_types::{Name, Refusal};
use std::sync::Wait;

impl<N: PlanTag, B: TableTag, S: FarTickets> Shared<N, B, S> {
    /// Begins a work under the read lock of its stripe; `None` if there is nothing to do.
    ///
    /// Refused with the first of these that applies:
    ///
    /// - `NoColumn` (4): a fetch names no column of the schema.
    /// - `OutOfRange` (14): there is no such stripe.
    /// - What `Stripe::begin` is refused with.
    pub fn begin<R: Wait>(&self, rt: &R, store: &S, work: &Work) -> Result<Option<Job<S>>, Refusal>
        requires store { S.store_id store.now ≡ B.store }
        ensures begun { IfOk result (IsJobOf work.now) }
        ensures here { IfOk result (λ job. IfSome job (IsJobAt S.is_of B.store)) }
        ensures refused { RefusedFor (length N.plan.schema) (columns_for work.now)
            (stripe_of work.now) (begin_refusals work.now) result }
        ensures begins { IfOk result
            (Begins (IsUnder N.plan S.is_of B.store (stripe_of work.now)) work.now) }
        ensures why { IfErr result
            (λ e. columns_for work.now ≤ length N.plan.schema → stripe_of work.now < 4
            → BeginFails (IsUnder N.plan S.is_of B.store (stripe_of work.now)) work.now e) }
    {
        if self.count.columns < work.columns() {
            return Err(Refusal::NoColumn);
        }
        match work.stripe() {
            0 => begin_under(rt, &self.zero, store, work),
            1 => begin_under(rt, &self.one, store, work),
            2 => begin_under(rt, &self.two, store, work),
            3 => begin_under(rt, &self.three, store, work),
            _ => Err(Refusal::OutOfRange),
        }
    }

    /// Ends a carried job of a stripe under its write lock. No row changes, and no other job is accepted.
    ///
    /// Refused with `OutOfRange` (14) if there is no such stripe, else as `Stripe::finish` is.
    pub fn finish<R: Wait>(
        &self,
        rt: &R,
        stripe: u32,
        store: &S,
        job: &Job<S>,
    ) -> Result<(), Refusal>
        requires store { S.store_id store.now ≡ B.store }
        requires here { IsJobAt S.is_of B.store job.now }
        ensures carried { OnOk result (begun_kind job.now.work ≡ None) }
        ensures refused { RefusedAt stripe (end_refusals (job_kind job.now)) result }
        ensures ended { OnOk result
            (Ends S.number_of S.content (IsUnder N.plan S.is_of B.store stripe) job.now) }
        ensures why { IfErr result (λ e. stripe < 4
            → EndFails S.number_of S.content (IsUnder N.plan S.is_of B.store stripe) job.now e) }
    {
        match stripe {
            0 => finish_under(rt, &self.zero, stripe, store, job),
            1 => finish_under(rt, &self.one, stripe, store, job),
            2 => finish_under(rt, &self.two, stripe, store, job),
            3 => finish_under(rt, &self.three, stripe, store, job),
            _ => Err(Refusal::OutOfRange),
        }
    }
}

impl<N: PlanTag, B: TableTag, S: FarStore> Shared<N, B, S> {
    /// Evicts the coldest object of a stripe, and returns its name; `None` if there was none that can be evicted.
    ///
    /// Refused with `OutOfRange` (14) if there is no such stripe, else with one of these:
    ///
    /// - `NoMemory` (1): an allocation fails.
    /// - `FarFault` (21): the store failed. Only then the meter rises, by one.
    /// - `FarFull` (22): the number drawn from the store is not below its capacity.
    /// - `StaleJob` (20): the object was written or away meanwhile.
    /// - `Pinned` (19): the object has a pin.
    pub fn evacuate_once<R: Wait>(
        &self,
        rt: &R,
        stripe: u32,
        store: &S,
        meter: &mut Meter,
    ) -> Result<Option<Name>, Refusal>
        requires few { meter.old < 2 ^ 63 }
        requires store { S.store_id store.now ≡ B.store }
        ensures faults { meter.new ≡ meter.old + faults_in result }
        ensures refused { RefusedAt stripe (21 ∷ 22 ∷ 20 ∷ 19 ∷ 1 ∷ []) result }
        ensures evacuated { IfOk result
            (Evacuates S.number_of S.content (IsUnder N.plan S.is_of B.store stripe)) }
        ensures why { IfErr result (λ e. stripe < 4
            → EvacuationFails S.number_of S.content (IsUnder N.plan S.is_of B.store stripe) e) }
    {
        let alloc = self.alloc;
        match stripe {
            0 => evacuate_under(rt, alloc, &self.zero, stripe, store, meter),
            1 => evacuate_under(rt, alloc, &self.one, stripe, store, meter),
            2 => evacuate_under(rt, alloc, &self.two, stripe, store, meter),
            3 => evacuate_under(rt, alloc, &self.three, stripe, store, meter),
            _ => Err(Refusal::OutOfRange),
        }
    }

    /// Fetches the object of a column and a row group of a stripe.
    ///
    /// Refused with `NoColumn` (4) if the schema has no such column; else with `OutOfRange` (14) if there is no such stripe;
    /// else with one of these:
    ///
    /// - `OutOfRange` (14): the row group has no place.
    /// - `StaleJob` (20): the object is local, or was away again meanwhile.
    /// - `FarFault` (21): the store failed. Only then the meter rises, by one.
    /// - `RegionFull` (17): the object does not fit.
    /// - `NoMemory` (1): an allocation fails.
    pub fn fetch<R: Wait>(
        &self,
        rt: &R,
        stripe: u32,
        column: u32,
        group: u32,
        store: &S,
        meter: &mut Meter,
    ) -> Result<(), Refusal>
        requires few { meter.old < 2 ^ 63 }
        requires store { S.store_id store.now ≡ B.store }
        ensures faults { meter.new ≡ meter.old + faults_in result }
        ensures refused { RefusedFor (length N.plan.schema) (column + 1) stripe
            (14 ∷ 20 ∷ 21 ∷ 17 ∷ 1 ∷ []) result }
        ensures fetched { OnOk result
            (Fetches S.number_of S.content (IsUnder N.plan S.is_of B.store stripe)
            record { column = column; group = group }) }
        ensures why { IfErr result (λ e. column < length N.plan.schema → stripe < 4
            → FetchFails S.number_of S.content (IsUnder N.plan S.is_of B.store stripe)
            record { column = column; group = group } e) }
    {
        if self.count.columns <= u64::from(column) {
            return Err(Refusal::NoColumn);
        }
        let alloc = self.alloc;
        let name = Name { column, group };
        match stripe {
            0 => fetch_under(rt, alloc, &self.zero, stripe, name, store, meter),
            1 => fetch_under(rt, alloc, &self.one, stripe, name, store, meter),
            2 => fetch_under(rt, alloc, &self.two, stripe, name, store, meter),
            3 => fetch_under(rt, alloc, &self.three, stripe, name, store, meter),
            _ => Err(Refusal::OutOfRange),
        }
    }

    /// Builds a pending row group of a stripe into its aggregate: by a scan, if all needed columns were local at the beginning,
    /// otherwise from the far store's copies. Returns false if nothing was pending.
    ///
    /// Refused with `OutOfRange` (14) if there is no such stripe, else with one of these:
    ///
    /// - `NoAggregate` (12), `StaleJob` (20), `Absent` (16)
    /// - `FarFault` (21): the store failed. Only then the meter rises, by one.
    /// - `NoMemory` (1): an allocation fails.
    pub fn build_once<R: Wait>(
        &self,
        rt: &R,
        stripe: u32,
        store: &S,
        meter: &mut Meter,
    ) -> Result<bool, Refusal>
        requires few { meter.old < 2 ^ 63 }
        requires store { S.store_id store.now ≡ B.store }
        ensures faults { meter.new ≡ meter.old + faults_in result }
        ensures refused { RefusedAt stripe (14 ∷ 12 ∷ 20 ∷ 16 ∷ 21 ∷ 1 ∷ []) result }
        ensures built { IfOk result
            (Builds S.number_of S.content (IsUnder N.plan S.is_of B.store stripe)) }
        ensures why { IfErr result (λ e. stripe < 4
            → BuildFails S.number_of S.content (IsUnder N.plan S.is_of B.store stripe) e) }
    {
        let alloc = self.alloc;
        match stripe {
            0 => build_under(rt, alloc, &self.zero, stripe, store, meter),
            1 => build_under(rt, alloc, &self.one, stripe, store, meter),
            2 => build_under(rt, alloc, &self.two, stripe, store, meter),
            3 => build_under(rt, alloc, &self.three, stripe, store, meter),
            _ => Err(Refusal::OutOfRange),
        }
    }
}
