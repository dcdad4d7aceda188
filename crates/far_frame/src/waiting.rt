// The jobs of a world, by their numbers.
ghost use Rattle.std.specs.Prelude.{◌≡◌, ◌+◌, ◌<◌, ◌^◌, [], None, Some, IfSome, IfErr, OnOk, OnErr, cond, length, option_copied};
ghost use Rattle.far_store.specs.Faults.{faults_in, FailsOnlyIf};
ghost use Rattle.far_frame.specs.Jobs.{IsJobAt, CarryRefusal};
ghost use Rattle.far_frame.specs.Waiting.{job_at, is_number, listed, one_more, with_job, without_job, spends, AreJobsAt, IsAlone, IsCarriedAt, RefusalAt};

use super::job::Job;
use far_store::{FarStore, FarTickets, Meter};
use far_types::Refusal;
use std::alloc::{AllocError, Global};
use std::collections::BTreeMap;
use std::marker::Model;

/// The jobs whose numbers are not spent. While a job is being carried, its number has no job, but its entry stays.
///
/// Most programs end a job before they begin the next. A single job is kept beside the map, which would allocate a node for it and
/// move it there and back.
#[derive(Drop)]
pub(crate) struct Waiting<S: FarTickets> {
    lone: Option<(u64, Option<Job<S>>)>,
    jobs: BTreeMap<u64, Option<Job<S>>>,
}

impl<S: FarTickets> Model for Waiting<S> {
    ghost use Rattle.far_frame.specs.Waiting.{Waiting, IsAlone, listed};

    ghost Value = { Waiting S.Ticket };

    ghost view = { λ waiting. listed waiting.lone waiting.jobs.entries };

    ghost invariant = { λ waiting. IsAlone waiting.lone waiting.jobs.entries };
}

impl<S: FarTickets> Waiting<S> {
    /// Makes an empty list. Allocates nothing.
    pub(crate) fn new(alloc: Global) -> Waiting<S>
        ensures { result ≡ [] }
    {
        Waiting {
            lone: None,
            jobs: BTreeMap::new(alloc),
        }
    }

    /// Returns the job of a number, or `None` if there is none.
    pub(crate) fn get(&self, n: u64) -> Option<&Job<S>>
        ensures { option_copied result ≡ job_at self.now n }
    {
        if let Some(lone) = &self.lone {
            return if is_number(n, lone.0) {
                lone.1.as_ref()
            } else {
                None
            };
        }
        match self.jobs.get(&n) {
            Some(job) => job.as_ref(),
            None => None,
        }
    }

    /// Returns how many numbers are not spent.
    pub(crate) fn count(&self) -> u64
        ensures { result ≡ length self.now }
    {
        match &self.lone {
            Some(_) => 1,
            None => self.jobs.len() as u64,
        }
    }

    /// Takes out the job of a number, to carry it.
    fn take(&mut self, n: u64) -> Option<Job<S>>
        ensures value { result ≡ job_at self.old n }
        ensures after { self.new ≡ with_job self.old n None }
    {
        if let Some(lone) = &mut self.lone {
            return if is_number(n, lone.0) {
                lone.1.take()
            } else {
                None
            };
        }
        let Some(place) = self.jobs.get_mut(&n) else {
            return None;
        };
        place.take()
    }

    /// Puts a job back under its number.
    fn put(&mut self, n: u64, job: Job<S>)
        ensures { self.new ≡ with_job self.old n (Some job) }
    {
        if let Some(lone) = &mut self.lone {
            if is_number(n, lone.0) {
                let_go(lone.1.replace(job));
            }
            return;
        }
        let Some(place) = self.jobs.get_mut(&n) else {
            return;
        };
        let_go(place.replace(job));
    }

    /// Adds a job. Refused only with `NoMemory` (1). A refused call changes nothing.
    pub(crate) fn add(&mut self, n: u64, job: Job<S>) -> Result<(), Refusal>
        ensures added { OnOk result (self.new ≡ one_more self.old n job) }
        ensures memory { IfErr result (λ e. e ≡ Refusal.NoMemory) }
        ensures err { OnErr result (self.new ≡ self.old) }
    {
        if self.lone.is_none() && self.jobs.is_empty() {
            self.lone = Some((n, Some(job)));
            return Ok(());
        }
        settle(&mut self.lone, &mut self.jobs)?;
        self.jobs.insert(n, Some(job))?;
        Ok(())
    }

    /// Spends the number of a job.
    pub(crate) fn spend(&mut self, n: u64)
        ensures { self.new ≡ without_job self.old n }
    {
        if let Some(lone) = &self.lone {
            if is_number(n, lone.0) {
                let_go(self.lone.take());
            }
            return;
        }
        let_go(self.jobs.remove(&n));
    }

    /// Spends the number of a job if its end was accepted or the job is stale.
    pub(crate) fn end(&mut self, n: u64, ended: &Result<(), Refusal>)
        ensures { self.new ≡ cond (spends ended.now) (without_job self.old n) self.old }
    {
        match ended {
            Ok(()) => self.spend(n),
            Err(refusal) if refusal.number() == 20 => self.spend(n),
            Err(_) => {}
        }
    }
}

impl<S: FarStore> Waiting<S> {
    /// Carries the job of a number. Refused as `Job::carry` is, and with `StaleJob` (20) if there is no such job. A refused
    /// call changes nothing.
    pub(crate) fn carry(
        &mut self,
        n: u64,
        alloc: Global,
        store: &S,
        meter: &mut Meter,
    ) -> Result<(), Refusal>
        requires few { meter.old < 2 ^ 63 }
        requires here { AreJobsAt S.is_of (S.store_id store.now) self.old }
        ensures carried { OnOk result (IsCarriedAt S.content n self.old self.new) }
        ensures refused { IfErr result (RefusalAt CarryRefusal (job_at self.old n)) }
        ensures cause { FailsOnlyIf S.may_fail result }
        ensures err { OnErr result (self.new ≡ self.old) }
        ensures faults { meter.new ≡ meter.old + faults_in result }
        ensures here { AreJobsAt S.is_of (S.store_id store.now) self.new }
    {
        let Some(job) = self.take(n) else {
            return Err(Refusal::StaleJob);
        };
        match job.carry(alloc, store, meter) {
            Ok(done) => {
                self.put(n, done);
                Ok(())
            }
            Err((refusal, job)) => {
                self.put(n, job);
                Err(refusal)
            }
        }
    }
}

// Returns whether two job numbers are the same.
fn is_number(n: u64, other: u64) -> bool
    ensures { result ≡ is_number n other }
{
    n.cmp(&other).is_eq()
}

// Moves a single job into the map, which then can take others. Refused only for memory. A refused call changes nothing.
fn settle<J: Drop>(
    lone: &mut Option<(u64, J)>,
    jobs: &mut BTreeMap<u64, J>,
) -> Result<(), AllocError>
    requires { IsAlone lone.old jobs.old.entries }
    ensures moved { OnOk result (lone.new ≡ None) }
    ensures all { OnOk result (jobs.new.entries ≡ listed lone.old jobs.old.entries) }
    ensures err { OnErr result ((lone.new ≡ lone.old) × (jobs.new.entries ≡ jobs.old.entries)) }
{
    let Some((n, job)) = lone.take() else {
        return Ok(());
    };
    match jobs.insert(n, job) {
        Ok(_) => Ok(()),
        Err(failed) => {
            *lone = Some(failed.value);
            Err(AllocError)
        }
    }
}

/// Drops a value. Generic for the proof, which then goes through no field of a job.
fn let_go<T: Drop>(_value: T) {}
