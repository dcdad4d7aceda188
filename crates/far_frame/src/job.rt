// Jobs of every kind and phase.
ghost use Rattle.std.specs.Prelude.{◌≡◌, ◌+◌, ◌<◌, ◌^◌, is_none, IfOk, IfErr, option_copied, option_map, slice_get};
ghost use Rattle.far_store.specs.Faults.{faults_in, outcome, FailsOnlyIf};
ghost use Rattle.far_frame.specs.Jobs.{IsWorkAt, IsWorkCarried, WorkRefusal, IsJobAt, IsCarried, CarryRefusal, is_offload, job_kind};
ghost use Rattle.far_frame.specs.Carrying.{is_carried, outgoing_of, tickets_of_work, wanted_of};

use far_evacuator::{Carried, EvacJob, FetchJob, Fetched};
use far_store::{FarStore, FarTickets, Meter};
use far_table::{OffloadBuild, OffloadCarried};
use far_types::{Name, Refusal};
use std::alloc::Global;
use std::marker::Model;

/// The kind of a job.
#[derive(Clone, Copy, Debug, PartialEq, Eq)]
pub enum JobKind {
    /// Evicts an object.
    Evac,
    /// Fetches an object.
    Fetch,
    /// Scans a row group into an aggregate from the far copies of its columns.
    Offload,
}

/// The work of a job, by kind and phase. The parameters are the jobs of the crates below.
#[derive(Drop)]
pub enum JobPhase<E, C, F, D, B, M> {
    /// An eviction that was begun.
    Evac(E),
    /// An eviction whose far form is in the store.
    Carried(C),
    /// A fetch that was begun.
    Fetch(F),
    /// A fetch whose bytes were read.
    Fetched(D),
    /// An offloaded build that was begun.
    Offload(B),
    /// An offloaded build whose contents were read.
    Offloaded(M),
}

/// The work of a job of a table.
type JobWork<S> = JobPhase<
    EvacJob<S>,
    Carried<S>,
    FetchJob<S>,
    Fetched<S>,
    OffloadBuild<S>,
    OffloadCarried<S>,
>;

/// A job of a table. It owns all its data and borrows no table, so any thread can carry it. Contracts see the name of its
/// object, if it moves one, and its work.
#[derive(Drop)]
pub struct Job<S: FarTickets> {
    pub(crate) name: Option<Name>,
    pub(crate) work: JobWork<S>,
}

impl<S: FarTickets> Model for Job<S> {
    ghost use Rattle.std.specs.Prelude.{◌≡◌, is_none};
    ghost use Rattle.far_frame.specs.Jobs.{JobRecord, is_offload};

    ghost Value = { JobRecord S.Ticket };

    ghost view = { λ job. record { name = job.name; work = job.work } };

    ghost invariant = { λ job. is_none job.name ≡ is_offload job.work };
}

impl<S: FarTickets> Job<S> {
    /// Returns the kind of the job. Allocates nothing.
    pub fn kind(&self) -> JobKind
        ensures { result ≡ job_kind self.now }
    {
        match &self.work {
            JobPhase::Evac(_) => JobKind::Evac,
            JobPhase::Carried(_) => JobKind::Evac,
            JobPhase::Fetch(_) => JobKind::Fetch,
            JobPhase::Fetched(_) => JobKind::Fetch,
            JobPhase::Offload(_) => JobKind::Offload,
            JobPhase::Offloaded(_) => JobKind::Offload,
        }
    }

    /// Returns the column and the row group of the object that the job moves; `None` exactly for an offloaded build.
    /// Allocates nothing.
    pub fn object(&self) -> Option<Name>
        ensures name { result ≡ self.now.name }
        ensures offload { is_none result ≡ is_offload self.now.work }
    {
        self.name
    }

    /// Returns whether the job was carried. Allocates nothing.
    pub fn is_carried(&self) -> bool
        ensures { result ≡ is_carried self.now.work }
    {
        match &self.work {
            JobPhase::Evac(_) => false,
            JobPhase::Carried(_) => true,
            JobPhase::Fetch(_) => false,
            JobPhase::Fetched(_) => true,
            JobPhase::Offload(_) => false,
            JobPhase::Offloaded(_) => true,
        }
    }

    /// Returns the number of the ticket for the far form that the job put, and borrows its bytes. `None` unless the job is
    /// a carried eviction of an object that was dirty: the store has the far form of a clean one already. Allocates
    /// nothing.
    pub fn outgoing(&self, store: &S) -> Option<(u64, &[u8])>
        requires here { IsJobAt S.is_of (S.store_id store.now) self.now }
        ensures number { option_map (λ out. out.0) result
            ≡ option_map S.number_of (outgoing_of self.now.work) }
        ensures bytes { option_map (λ out. out.1.now) result
            ≡ option_map S.content (outgoing_of self.now.work) }
    {
        match &self.work {
            JobPhase::Carried(carried) => carried.outgoing(store),
            JobPhase::Evac(_) => None,
            JobPhase::Fetch(_) => None,
            JobPhase::Fetched(_) => None,
            JobPhase::Offload(_) => None,
            JobPhase::Offloaded(_) => None,
        }
    }

    /// Returns the ticket at an index, among those whose contents the job reads or has read; `None` if the index is past
    /// the last. A fetch has one ticket, an offloaded build one for each column that its aggregate needs, an eviction none.
    /// Allocates nothing.
    pub fn ticket(&self, index: usize) -> Option<&S::Ticket>
        ensures { option_copied result ≡ slice_get (tickets_of_work self.now.work) index }
    {
        match &self.work {
            JobPhase::Evac(_) => None,
            JobPhase::Carried(_) => None,
            JobPhase::Fetch(fetch) => (index == 0).then_some(fetch.ticket()),
            JobPhase::Fetched(fetched) => (index == 0).then_some(fetched.ticket()),
            JobPhase::Offload(build) => build.ticket(index),
            JobPhase::Offloaded(carried) => carried.ticket(index),
        }
    }

    /// Returns the ticket of this number among those whose contents the job has still to read; `None` if there is none or
    /// the job was carried. Allocates nothing.
    pub fn wanted(&self, store: &S, number: u64) -> Option<&S::Ticket>
        requires here { IsJobAt S.is_of (S.store_id store.now) self.now }
        ensures { option_copied result ≡ wanted_of S.number_of self.now.work number }
    {
        match &self.work {
            JobPhase::Evac(_) => None,
            JobPhase::Carried(_) => None,
            JobPhase::Fetch(fetch) => {
                let ticket = fetch.ticket();
                (store.number(ticket) == number).then_some(ticket)
            }
            JobPhase::Fetched(_) => None,
            JobPhase::Offload(build) => build.ticket_of(store, number),
            JobPhase::Offloaded(_) => None,
        }
    }
}

impl<S: FarStore> Job<S> {
    /// Carries the job: an eviction puts its far form into the store, a fetch reads the content of its ticket, and an
    /// offloaded build reads the contents of its tickets. Borrows no table, so it may run while any other step is served.
    ///
    /// Refused with one of these; the job is then returned unchanged:
    ///
    /// - `StaleJob` (20), before all others, exactly if the job was carried already.
    /// - `FarFault` (21): the store fails in this call. Only then the meter rises, by one.
    /// - `FarFull` (22), only for an eviction: the store has no space for another content.
    /// - `NoMemory` (1): an allocation fails.
    ///
    /// An eviction of a clean object puts nothing and is not refused.
    pub fn carry(
        self,
        alloc: Global,
        store: &S,
        meter: &mut Meter,
    ) -> Result<Job<S>, (Refusal, Job<S>)>
        requires few { meter.old < 2 ^ 63 }
        requires here { IsJobAt S.is_of (S.store_id store.now) self }
        ensures carried { IfOk result (IsCarried S.content self) }
        ensures here { IfOk result (IsJobAt S.is_of (S.store_id store.now)) }
        ensures back { IfErr result (λ refused. refused.1 ≡ self) }
        ensures faults { meter.new ≡ meter.old + faults_in (outcome result) }
        ensures cause { FailsOnlyIf S.may_fail (outcome result) }
        ensures refused { IfErr result (λ refused. CarryRefusal self refused.0) }
    {
        let name = self.name;
        match carry_work(self.work, alloc, store, meter) {
            Ok(work) => Ok(Job { name, work }),
            Err((refusal, work)) => Err((refusal, Job { name, work })),
        }
    }
}

/// Carries the work of a job, or returns it with the refusal.
fn carry_work<S: FarStore>(
    work: JobWork<S>,
    alloc: Global,
    store: &S,
    meter: &mut Meter,
) -> Result<JobWork<S>, (Refusal, JobWork<S>)>
    requires few { meter.old < 2 ^ 63 }
    requires here { IsWorkAt S.is_of (S.store_id store.now) work }
    ensures carried { IfOk result (IsWorkCarried S.content work) }
    ensures here { IfOk result (IsWorkAt S.is_of (S.store_id store.now)) }
    ensures back { IfErr result (λ refused. refused.1 ≡ work) }
    ensures faults { meter.new ≡ meter.old + faults_in (outcome result) }
    ensures cause { FailsOnlyIf S.may_fail (outcome result) }
    ensures refused { IfErr result (λ refused. WorkRefusal work refused.0) }
{
    match work {
        JobPhase::Evac(evac) => match evac.carry(alloc, store, meter) {
            Ok(carried) => Ok(JobPhase::Carried(carried)),
            Err((refusal, evac)) => Err((refusal, JobPhase::Evac(evac))),
        },
        JobPhase::Fetch(fetch) => match fetch.carry(alloc, store, meter) {
            Ok(fetched) => Ok(JobPhase::Fetched(fetched)),
            Err((refusal, fetch)) => Err((refusal, JobPhase::Fetch(fetch))),
        },
        JobPhase::Offload(build) => match build.carry(alloc, store, meter) {
            Ok(carried) => Ok(JobPhase::Offloaded(carried)),
            Err((refusal, build)) => Err((refusal, JobPhase::Offload(build))),
        },
        JobPhase::Carried(carried) => Err((Refusal::StaleJob, JobPhase::Carried(carried))),
        JobPhase::Fetched(fetched) => Err((Refusal::StaleJob, JobPhase::Fetched(fetched))),
        JobPhase::Offloaded(carried) => Err((Refusal::StaleJob, JobPhase::Offloaded(carried))),
    }
}
