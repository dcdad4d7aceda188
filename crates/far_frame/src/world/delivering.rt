// Calls for a program that keeps the contents of a world's store itself.
ghost use Rattle.std.specs.Prelude.{◌≡◌, ◌+◌, ◌<◌, ◌^◌, ◌↔◌, [], ◌∷◌, None, IfErr, IsErrOf, OnErr, OnOk};
ghost use Rattle.far_scopes.specs.Refusing.{refusal_in};
ghost use Rattle.far_store.specs.Faults.{faults_in};
ghost use Rattle.far_rows.specs.Copies.{copy_of};
ghost use Rattle.far_rows.specs.Jobs.{fetch_refusal};
ghost use Rattle.far_frame.specs.Delivering.{DeliveryRefusal, HasNoCollision, IsContentOf, IsOther, wanted_by};
ghost use Rattle.far_frame.specs.Jobs.{IsJobAt, IsOneOf};
ghost use Rattle.far_frame.specs.Steps.{IsStep};
ghost use Rattle.far_frame.specs.TableRuns.{IsTableStep};
ghost use Rattle.far_frame.specs.TableViews.{table_of};
ghost use Rattle.far_frame.specs.Waiting.{without_job};
ghost use Rattle.far_frame.specs.Ending.{no_job};

use super::World;
use crate::job::Job;
use crate::step::{Reply, Step};
use far_store::FarDelivery;
use far_types::Refusal;

impl<S: FarDelivery> World<S> {
    /// Takes a copy of the bytes that the program kept under a number, for a job that has still to read them.
    ///
    /// Premise: if the store accepts these bytes as the content of that number, they are that content.
    ///
    /// Refused with one of these. A refused call changes only the count of faults:
    ///
    /// - `StaleJob` (20): there is no such job, or it reads no content of this number, or it was carried.
    /// - `FarFault` (21): these are not the bytes that went out under this number. The fault is counted.
    /// - `NoMemory` (1): an allocation fails.
    pub fn deliver(&mut self, n: u64, number: u64, bytes: &[u8]) -> Result<(), Refusal>
        requires few { self.old.faults < 2 ^ 63 }
        requires no_collision { HasNoCollision S.matches S.content
            (wanted_by S.number_of self.old n number) bytes.now }
        ensures content { OnOk result
            (IsContentOf S.content (wanted_by S.number_of self.old n number) bytes.now) }
        ensures stale { IsErrOf result Refusal.StaleJob
            ↔ (wanted_by S.number_of self.old n number ≡ None) }
        ensures other { IsErrOf result Refusal.FarFault
            ↔ IsOther S.matches (wanted_by S.number_of self.old n number) bytes.now }
        ensures refused { IfErr result (IsOneOf (20 ∷ 21 ∷ 1 ∷ [])) }
        ensures world { self.new ≡ record self.old { faults = self.old.faults + faults_in result } }
    {
        let Some(job) = self.jobs.get(n) else {
            return Err(Refusal::StaleJob);
        };
        let Some(ticket) = job.wanted(&self.store, number) else {
            return Err(Refusal::StaleJob);
        };
        self.store
            .deliver(self.alloc, &mut self.meter, ticket, bytes)
    }

    /// Carries a job, as the step `Carry` does. If that succeeds, the store forgets what was delivered for the job.
    pub fn carry_delivered(&mut self, n: u64) -> Reply
        requires few { self.old.faults < 2 ^ 63 }
        ensures step { IsStep S.content S.number_of self.old (Step.Carry n) result self.new }
        ensures table { IsTableStep (table_of self.old.state) (Step.Carry n) result
            (table_of self.new.state) }
    {
        let reply = self.carry_shown(n);
        if let Reply::Done = &reply {
            self.forget(n);
        }
        reply
    }

    /// Carries a job, as the step `Carry` does.
    fn carry_shown(&mut self, n: u64) -> Reply
        requires few { self.old.faults < 2 ^ 63 }
        ensures step { IsStep S.content S.number_of self.old (Step.Carry n) result self.new }
        ensures table { IsTableStep (table_of self.old.state) (Step.Carry n) result
            (table_of self.new.state) }
    {
        // For the proof: shows the invariant of the table.
        self.frame.keeps();
        self.carry(n)
    }

    /// Gives up a job, as `give_up` does. The store forgets what was delivered for the job.
    ///
    /// Refused with `StaleJob` (20) exactly if there is no such job. A refused call changes nothing.
    pub fn give_up_delivered(&mut self, n: u64) -> Result<(), Refusal>
        ensures spent { OnOk result
            (self.new ≡ record self.old { jobs = without_job self.old.jobs n }) }
        ensures refused { refusal_in result ≡ no_job self.old n }
        ensures err { OnErr result (self.new ≡ self.old) }
    {
        self.forget(n);
        self.give_up(n)
    }

    /// Forgets what was delivered for a job, if there is such a job. The world does not change otherwise. Allocates
    /// nothing.
    pub fn forget(&mut self, n: u64)
        ensures { self.new ≡ self.old }
    {
        let columns = self.frame.schema().len();
        if let Some(job) = self.jobs.get(n) {
            forget_contents(&mut self.store, job, columns);
        }
    }

    /// Takes a copy of the bytes that the program kept for an object that is away, for a migration.
    ///
    /// Premise: if the store accepts these bytes as the content of the object's copy, they are that content.
    ///
    /// Refused with the first of these that applies. A refused call changes only the count of faults:
    ///
    /// - `NoColumn` (4): there is no such column.
    /// - `OutOfRange` (14): the row group has no place.
    /// - `StaleJob` (20): the object is local.
    /// - `FarFault` (21): these are not the bytes that went out as the object's content. The fault is counted.
    /// - `NoMemory` (1): an allocation fails.
    pub fn deliver_copy(&mut self, column: u32, group: u32, bytes: &[u8]) -> Result<(), Refusal>
        requires few { self.old.faults < 2 ^ 63 }
        requires no_collision { HasNoCollision S.matches S.content
            (copy_of self.old.state.rows column group) bytes.now }
        ensures content { OnOk result
            (IsContentOf S.content (copy_of self.old.state.rows column group) bytes.now) }
        ensures free { OnOk result (fetch_refusal self.old.state.rows column group ≡ None) }
        ensures other { IsErrOf result Refusal.FarFault
            ↔ ((fetch_refusal self.old.state.rows column group ≡ None)
            × IsOther S.matches (copy_of self.old.state.rows column group) bytes.now) }
        ensures refused { IfErr result
            (DeliveryRefusal (fetch_refusal self.old.state.rows column group)) }
        ensures world { self.new ≡ record self.old { faults = self.old.faults + faults_in result } }
    {
        let ticket = self.frame.away_copy(column, group)?;
        self.store
            .deliver(self.alloc, &mut self.meter, ticket, bytes)
    }

    /// Forgets all that was delivered. The world does not change otherwise. Allocates nothing.
    pub fn forget_all(&mut self)
        ensures { self.new ≡ self.old }
    {
        self.store.forget_all();
    }
}

/// Forgets what was delivered for a job. The job has at most as many tickets as the table has columns.
fn forget_contents<S: FarDelivery>(store: &mut S, job: &Job<S>, columns: usize)
    requires here { IsJobAt S.is_of (S.store_id store.old) job.now }
    ensures same { S.store_id store.new ≡ S.store_id store.old }
{
    for index in 0..columns {
        if let Some(ticket) = job.ticket(index) {
            store.forget(ticket);
        }
    }
}
