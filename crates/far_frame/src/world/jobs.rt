// Serves the steps of jobs.
ghost use Rattle.std.specs.Prelude.{◌≡◌, ◌+◌, ◌<◌, ◌^◌, true, OnOk, OnErr, IfOk, IfErr, IsSomeAnd};
ghost use Rattle.std.specs.Option.{option_or};
ghost use Rattle.far_types.specs.MayRefuse.{MayRefuse};
ghost use Rattle.far_scopes.specs.Refusing.{refusal_in};
ghost use Rattle.far_rows.specs.Jobs.{AreAt, evac_refusal, fetch_refusal};
ghost use Rattle.far_table.specs.Offloading.{offload_refusal};
ghost use Rattle.far_table.specs.Watching.{aggregate_at};
ghost use Rattle.far_frame.specs.Jobs.{IsJobAt, IsEvacJob, IsFetchJob, IsOffloadJob, Commits, CommitRefusal, Installs, InstallRefusal, Merges, MergeRefusal};
ghost use Rattle.far_frame.specs.State.{live};
ghost use Rattle.far_frame.specs.Steps.{IsStep};
ghost use Rattle.far_frame.specs.TableRuns.{FaultsOnlyIf};
ghost use Rattle.far_frame.specs.Waiting.{AreJobsAt, RefusalAt, job_at, one_more};
ghost use Rattle.far_frame.specs.Worlds.{used_up};

use super::World;
use crate::frame::Frame;
use crate::job::Job;
use crate::step::{Reply, Step};
use crate::waiting::Waiting;
use far_store::{FarStore, FarTickets};
use far_types::{Name, Refusal};

impl<S: FarStore> World<S> {
    /// Checks that one more job may begin. Refused with `EditsUsedUp` (24) exactly if as many jobs were begun as edits are
    /// allowed.
    pub(super) fn may_begin(&self) -> Result<(), Refusal>
        ensures refused { refusal_in result ≡ used_up self.now }
        ensures few { OnOk result (self.now.begun < self.now.state.table.limits.edits) }
        ensures next { OnOk result (self.now.begun + 1 < 2 ^ 64) }
    {
        if self.begun >= self.frame.limits().edits {
            return Err(Refusal::EditsUsedUp);
        }
        Ok(())
    }

    /// Begins an eviction, if a job may begin.
    fn evac(&self, column: u32, group: u32) -> Result<Job<S>, Refusal>
        ensures begun { IfOk result (IsEvacJob self.now.state.rows column group) }
        ensures few { OnOk result (self.now.begun < self.now.state.table.limits.edits) }
        ensures next { OnOk result (self.now.begun + 1 < 2 ^ 64) }
        ensures here { IfOk result (IsJobAt S.is_of self.now.store) }
        ensures refused { IfErr result
            (MayRefuse
            (option_or (evac_refusal self.now.state.rows column group) (used_up self.now)) true) }
    {
        let object = self.frame.evictable(column, group)?;
        self.may_begin()?;
        self.frame
            .evac_job(&self.store, Name { column, group }, object)
    }

    /// Begins a fetch, if a job may begin.
    fn fetch(&self, column: u32, group: u32) -> Result<Job<S>, Refusal>
        ensures begun { IfOk result (IsFetchJob self.now.state.rows column group) }
        ensures few { OnOk result (self.now.begun < self.now.state.table.limits.edits) }
        ensures next { OnOk result (self.now.begun + 1 < 2 ^ 64) }
        ensures here { IfOk result (IsJobAt S.is_of self.now.store) }
        ensures refused { refusal_in result
            ≡ option_or (fetch_refusal self.now.state.rows column group) (used_up self.now) }
    {
        let job = self.frame.begin_fetch(&self.store, column, group)?;
        self.may_begin()?;
        Ok(job)
    }

    /// Begins an offloaded build, if a job may begin.
    fn offload(&self, a: u32, group: u32) -> Result<Job<S>, Refusal>
        ensures begun { IfOk result (IsOffloadJob self.now.state a group) }
        ensures few { OnOk result (self.now.begun < self.now.state.table.limits.edits) }
        ensures next { OnOk result (self.now.begun + 1 < 2 ^ 64) }
        ensures here { IfOk result (IsJobAt S.is_of self.now.store) }
        ensures refused { IfErr result
            (MayRefuse
            (option_or
            (offload_refusal (live self.now.state) (aggregate_at self.now.state.table a) group)
            (used_up self.now)) true) }
    {
        self.frame.may_offload(a, group)?;
        self.may_begin()?;
        self.frame.offload_job(&self.store, a, group)
    }

    /// Adds a job that was begun, and returns its number. Refused only with `NoMemory` (1). A refused call changes nothing.
    pub(super) fn add(&mut self, job: Job<S>) -> Result<u64, Refusal>
        requires next { self.old.begun + 1 < 2 ^ 64 }
        requires here { IsJobAt S.is_of self.old.store job }
        ensures number { IfOk result (λ n. n ≡ self.old.begun) }
        ensures world { OnOk result
            (self.new
            ≡ record self.old
            { begun = self.old.begun + 1; jobs = one_more self.old.jobs self.old.begun job }) }
        ensures memory { IfErr result (λ e. e ≡ Refusal.NoMemory) }
        ensures err { OnErr result (self.new ≡ self.old) }
    {
        let n = self.begun;
        self.jobs.add(n, job)?;
        self.begun += 1;
        Ok(n)
    }

    /// Serves the beginning of an eviction.
    pub(super) fn begin_evac(&mut self, column: u32, group: u32) -> Reply
        ensures { IsStep S.content S.number_of self.old (Step.BeginEvac column group) result
            self.new }
    {
        match self.evac(column, group) {
            Ok(job) => match self.add(job) {
                Ok(n) => Reply::Job(n),
                Err(refusal) => Reply::Refused(refusal),
            },
            Err(refusal) => Reply::Refused(refusal),
        }
    }

    /// Serves the beginning of a fetch.
    pub(super) fn begin_fetch(&mut self, column: u32, group: u32) -> Reply
        ensures { IsStep S.content S.number_of self.old (Step.BeginFetch column group) result
            self.new }
    {
        match self.fetch(column, group) {
            Ok(job) => match self.add(job) {
                Ok(n) => Reply::Job(n),
                Err(refusal) => Reply::Refused(refusal),
            },
            Err(refusal) => Reply::Refused(refusal),
        }
    }

    /// Serves the beginning of an offloaded build.
    pub(super) fn begin_offload(&mut self, aggregate: u32, group: u32) -> Reply
        ensures { IsStep S.content S.number_of self.old (Step.BeginOffload aggregate group) result
            self.new }
    {
        match self.offload(aggregate, group) {
            Ok(job) => match self.add(job) {
                Ok(n) => Reply::Job(n),
                Err(refusal) => Reply::Refused(refusal),
            },
            Err(refusal) => Reply::Refused(refusal),
        }
    }

    /// Serves a carry.
    pub(super) fn carry(&mut self, n: u64) -> Reply
        requires few { self.old.faults < 2 ^ 63 }
        ensures step { IsStep S.content S.number_of self.old (Step.Carry n) result self.new }
        ensures cause { FaultsOnlyIf S.may_fail (Step.Carry n) result }
    {
        Reply::done_or(self.jobs.carry(n, self.alloc, &self.store, &mut self.meter))
    }

    /// Serves the end of an eviction.
    pub(super) fn commit(&mut self, n: u64) -> Reply
        ensures { IsStep S.content S.number_of self.old (Step.Commit n) result self.new }
    {
        let ended = end_evac(&mut self.frame, &self.store, &self.jobs, n);
        self.jobs.end(n, &ended);
        Reply::done_or(ended)
    }

    /// Serves the end of a fetch.
    pub(super) fn install(&mut self, n: u64) -> Reply
        ensures { IsStep S.content S.number_of self.old (Step.Install n) result self.new }
    {
        let ended = end_fetch(&mut self.frame, &self.store, &self.jobs, n);
        self.jobs.end(n, &ended);
        Reply::done_or(ended)
    }

    /// Serves the end of an offloaded build.
    pub(super) fn merge(&mut self, n: u64) -> Reply
        ensures { IsStep S.content S.number_of self.old (Step.Merge n) result self.new }
    {
        let ended = end_build(&mut self.frame, &self.store, &self.jobs, n);
        self.jobs.end(n, &ended);
        Reply::done_or(ended)
    }
}

/// Ends a job as an eviction. Refused as the table refuses it, and with `StaleJob` (20) if there is no such job.
fn end_evac<S: FarTickets>(
    frame: &mut Frame<S>,
    store: &S,
    jobs: &Waiting<S>,
    n: u64,
) -> Result<(), Refusal>
    requires rows_here { AreAt S.is_of (S.store_id store.now) frame.old.rows }
    requires jobs_here { AreJobsAt S.is_of (S.store_id store.now) jobs.now }
    ensures ended { OnOk result
        (IsSomeAnd (job_at jobs.now n) (λ job. Commits S.number_of frame.old job.work frame.new)) }
    ensures refused { IfErr result
        (RefusalAt (λ job. CommitRefusal S.number_of frame.old job.work) (job_at jobs.now n)) }
    ensures err { OnErr result (frame.new ≡ frame.old) }
    ensures here { AreAt S.is_of (S.store_id store.now) frame.new.rows }
{
    match jobs.get(n) {
        Some(job) => frame.commit(store, job),
        None => Err(Refusal::StaleJob),
    }
}

/// Ends a job as a fetch. Refused as the table refuses it, and with `StaleJob` (20) if there is no such job.
fn end_fetch<S: FarTickets>(
    frame: &mut Frame<S>,
    store: &S,
    jobs: &Waiting<S>,
    n: u64,
) -> Result<(), Refusal>
    requires rows_here { AreAt S.is_of (S.store_id store.now) frame.old.rows }
    requires jobs_here { AreJobsAt S.is_of (S.store_id store.now) jobs.now }
    ensures ended { OnOk result
        (IsSomeAnd (job_at jobs.now n)
        (λ job. Installs S.number_of frame.old S.content job.work frame.new)) }
    ensures refused { IfErr result
        (RefusalAt (λ job. InstallRefusal S.number_of frame.old S.content job.work)
        (job_at jobs.now n)) }
    ensures err { OnErr result (frame.new ≡ frame.old) }
    ensures here { AreAt S.is_of (S.store_id store.now) frame.new.rows }
{
    match jobs.get(n) {
        Some(job) => frame.install(store, job),
        None => Err(Refusal::StaleJob),
    }
}

/// Ends a job as an offloaded build. Refused as the table refuses it, and with `StaleJob` (20) if there is no such job.
fn end_build<S: FarTickets>(
    frame: &mut Frame<S>,
    store: &S,
    jobs: &Waiting<S>,
    n: u64,
) -> Result<(), Refusal>
    requires rows_here { AreAt S.is_of (S.store_id store.now) frame.old.rows }
    requires jobs_here { AreJobsAt S.is_of (S.store_id store.now) jobs.now }
    ensures ended { OnOk result
        (IsSomeAnd (job_at jobs.now n) (λ job. Merges S.number_of frame.old job.work frame.new)) }
    ensures refused { IfErr result
        (RefusalAt (λ job. MergeRefusal S.number_of frame.old job.work) (job_at jobs.now n)) }
    ensures err { OnErr result (frame.new ≡ frame.old) }
    ensures here { AreAt S.is_of (S.store_id store.now) frame.new.rows }
{
    match jobs.get(n) {
        Some(job) => frame.merge(store, job),
        None => Err(Refusal::StaleJob),
    }
}
