// Scans row groups into aggregates from the far copies of their columns.
ghost use Rattle.std.specs.Prelude.{◌≡◌, ◌↔◌, ◌⊎◌, None, is_none, true, IsTrue, IsSome, IfOk, IfErr, OnOk, OnErr, IsErrOf};
ghost use Rattle.far_types.specs.MayRefuse.{MayRefuse};
ghost use Rattle.far_scopes.specs.Refusing.{refusal_in};
ghost use Rattle.far_rows.specs.Jobs.{AreAt};
ghost use Rattle.far_table.specs.FarGroups.{AreCopies};
ghost use Rattle.far_table.specs.Offloading.{AreTicketsOf, IsMergeable, IsMerged, offload_refusal};
ghost use Rattle.far_table.specs.Watching.{aggregate_at, scan_refusal};
ghost use Rattle.far_frame.specs.Jobs.{IsJobAt, IsOffloadJob, Merges, MergeRefusal};
ghost use Rattle.far_frame.specs.State.{Alters, live};

use super::Frame;
use crate::job::{Job, JobPhase};
use far_aggregates::laws::an_aggregate_is_served_by_the_columns_of_its_schema;
use far_offload::OffloadJob;
use far_store::FarTickets;
use far_table::{FarGroup, OffloadBuild, OffloadCarried, are_copied, are_still, copies_of};
use far_types::Refusal;

impl<S: FarTickets> Frame<S> {
    /// Returns whether a row group can be scanned into an aggregate now, if memory allows. Allocates nothing.
    pub fn may_scan(&self, a: u32, group: u32) -> bool
        ensures { result
            ≡ is_none (scan_refusal (live self.now) (aggregate_at self.now.table a) group) }
    {
        self.scan_due(a, group).is_ok()
    }

    // Returns why a row group may not be scanned.
    fn scan_due(&self, a: u32, group: u32) -> Result<(), Refusal>
        ensures { refusal_in result
            ≡ scan_refusal (live self.now) (aggregate_at self.now.table a) group }
    {
        // For the proof: show `AreRows` and `AreLimits`.
        let _held = self.rows.held();
        let _limits = self.rows.limits();
        let Some(spec) = self.aggregates.spec(a) else {
            return Err(Refusal::NoAggregate);
        };
        if group as usize >= self.rows.groups() {
            return Err(Refusal::OutOfRange);
        }
        if !self.aggregates.is_pending_in(a, group) {
            return Err(Refusal::StaleJob);
        }
        self.rows.may_scan(spec, group)
    }

    /// Checks that an offloaded build can begin, if memory allows. Allocates nothing.
    ///
    /// Refused with the first of these that applies:
    ///
    /// - `NoAggregate` (12): there is no such aggregate.
    /// - `OutOfRange` (14): the row group has no place.
    /// - `StaleJob` (20): the row group was scanned already, or the object of a column that the aggregate needs is dirty. A
    ///   clean object may be local or away.
    pub fn may_offload(&self, a: u32, group: u32) -> Result<(), Refusal>
        ensures refused { refusal_in result
            ≡ offload_refusal (live self.now) (aggregate_at self.now.table a) group }
    {
        let Some(spec) = self.aggregates.spec(a) else {
            return Err(Refusal::NoAggregate);
        };
        if group as usize >= self.rows.groups() {
            return Err(Refusal::OutOfRange);
        }
        if !self.aggregates.is_pending_in(a, group) {
            return Err(Refusal::StaleJob);
        }
        are_copied(self.rows.held(), spec, group)
    }

    /// Begins an offloaded build: scanning a row group into an aggregate from the far copies of its columns. The job holds
    /// their tickets and the alive flags of the row group. Changes nothing.
    ///
    /// Refused as `may_offload` is, otherwise only with `NoMemory` (1).
    pub fn begin_offload(&self, store: &S, a: u32, group: u32) -> Result<Job<S>, Refusal>
        requires here { AreAt S.is_of (S.store_id store.now) self.now.rows }
        ensures begun { IfOk result (IsOffloadJob self.now a group) }
        ensures here { IfOk result (IsJobAt S.is_of (S.store_id store.now)) }
        ensures refused { IfErr result
            (MayRefuse (offload_refusal (live self.now) (aggregate_at self.now.table a) group)
            true) }
    {
        self.may_offload(a, group)?;
        self.offload_job(store, a, group)
    }

    /// Begins an offloaded build that `may_offload` allows, as `begin_offload` does. Refused only with `NoMemory` (1).
    pub(crate) fn offload_job(&self, store: &S, a: u32, group: u32) -> Result<Job<S>, Refusal>
        requires here { AreAt S.is_of (S.store_id store.now) self.now.rows }
        requires free { offload_refusal (live self.now) (aggregate_at self.now.table a) group
            ≡ None }
        ensures begun { IfOk result (IsOffloadJob self.now a group) }
        ensures here { IfOk result (IsJobAt S.is_of (S.store_id store.now)) }
        ensures memory { IfErr result (λ e. e ≡ Refusal.NoMemory) }
    {
        let held = self.rows.held();
        // For the proof: shows `AreRows`, which bounds the number of flags.
        let _len = held.len();
        let Some(spec) = self.aggregates.spec(a) else {
            unreachable!()
        };
        let Some(registration) = self.aggregates.registration(a) else {
            unreachable!()
        };
        let tickets = copies_of(self.alloc, held, store, spec, group)?;
        let alive = Vec::from_slice(self.alloc, held.flags(group))?;
        Ok(Job {
            name: None,
            work: JobPhase::Offload(OffloadBuild {
                number: held.number(),
                aggregate: a,
                registration,
                group,
                job: OffloadJob::new(spec.clone()?, tickets, alive),
            }),
        })
    }

    /// Ends a carried offloaded build: merges its row group into the aggregate, as a scan would. No row or object changes.
    ///
    /// Refused with the first of these that applies:
    ///
    /// - `StaleJob` (20): the job is not an offloaded build.
    /// - `NoAggregate` (12): its aggregate is not registered.
    /// - `StaleJob` (20): the job was not carried, or something changed since it began: the aggregate was registered anew,
    ///   the objects of its columns or the alive flags differ, or the row group was scanned.
    /// - `NoMemory` (1): an allocation fails.
    ///
    /// A refused call changes nothing.
    pub fn merge(&mut self, store: &S, job: &Job<S>) -> Result<(), Refusal>
        requires here { AreAt S.is_of (S.store_id store.now) self.old.rows }
        requires job_here { IsJobAt S.is_of (S.store_id store.now) job.now }
        ensures merged { OnOk result (Merges S.number_of self.old job.now.work self.new) }
        ensures refused { IfErr result (MergeRefusal S.number_of self.old job.now.work) }
        ensures err { OnErr result (self.new ≡ self.old) }
        ensures here { AreAt S.is_of (S.store_id store.now) self.new.rows }
    {
        if let JobPhase::Offload(build) = &job.work {
            if self.aggregates.spec(build.aggregate).is_none() {
                return Err(Refusal::NoAggregate);
            }
        }
        match &job.work {
            JobPhase::Offloaded(carried) => self.merge_build(store, carried),
            JobPhase::Offload(_) => Err(Refusal::StaleJob),
            JobPhase::Evac(_) => Err(Refusal::StaleJob),
            JobPhase::Carried(_) => Err(Refusal::StaleJob),
            JobPhase::Fetch(_) => Err(Refusal::StaleJob),
            JobPhase::Fetched(_) => Err(Refusal::StaleJob),
        }
    }

    // Scans the row group of a carried build into its aggregate, from the contents that were read. No row or object changes.
    fn merge_build(&mut self, store: &S, carried: &OffloadCarried<S>) -> Result<(), Refusal>
        requires here { AreAt S.is_of (S.store_id store.now) self.old.rows }
        requires carried_here { AreTicketsOf S.is_of (S.store_id store.now)
            carried.now.job.tickets }
        ensures merged { OnOk result
            (Alters (λ before after. IsMerged S.number_of before carried.now after) self.old
            self.new) }
        ensures unregistered { IsErrOf result Refusal.NoAggregate
            ↔ (aggregate_at self.old.table carried.now.aggregate ≡ None) }
        ensures stale { IsErrOf result Refusal.StaleJob
            ↔ (IsSome (aggregate_at self.old.table carried.now.aggregate)
            × ¬ IsMergeable S.number_of (live self.old) carried.now) }
        ensures refused { IfErr result
            (λ e. (e ≡ Refusal.NoAggregate) ⊎ ((e ≡ Refusal.StaleJob) ⊎ (e ≡ Refusal.NoMemory))) }
        ensures err { OnErr result (self.new ≡ self.old) }
    {
        let build = carried.build();
        if self.aggregates.spec(build.aggregate).is_none() {
            return Err(Refusal::NoAggregate);
        }
        if !self.holds_still(store, build) {
            return Err(Refusal::StaleJob);
        }
        // For the proof: show `AreRows`, and the bound of the number of places.
        let held = self.rows.held();
        let _len = self.rows.len();
        let size = self.rows.limits().group;
        an_aggregate_is_served_by_the_columns_of_its_schema();
        self.aggregates.scan_at(
            self.alloc,
            build.aggregate,
            &FarGroup::new(held, carried),
            size,
            build.group,
        )
    }

    // Returns whether a build's assumptions still hold. Then its contents are those of the row group.
    fn holds_still(&self, store: &S, build: &OffloadBuild<S>) -> bool
        requires here { AreAt S.is_of (S.store_id store.now) self.now.rows }
        requires build_here { AreTicketsOf S.is_of (S.store_id store.now) build.now.job.tickets }
        ensures exact { IsTrue result ↔ IsMergeable S.number_of (live self.now) build.now }
        ensures copies { IsTrue result
            → AreCopies S.content record { rows = self.now.rows; build = build.now } }
    {
        let held = self.rows.held();
        let Some(spec) = self.aggregates.spec(build.aggregate) else {
            return false;
        };
        let Some(registration) = self.aggregates.registration(build.aggregate) else {
            unreachable!()
        };
        if build.number != held.number() || build.registration != registration {
            return false;
        }
        let job = &build.job;
        if !job.spec().is_same(spec)
            || !self.aggregates.is_pending_in(build.aggregate, build.group)
        {
            return false;
        }
        an_aggregate_is_served_by_the_columns_of_its_schema();
        job.alive() == held.flags(build.group)
            && are_still(held, store, job.tickets(), spec, build.group)
    }
}
