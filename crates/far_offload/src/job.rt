// The job that a remote agent runs.
ghost use Rattle.std.specs.Prelude.{◌≡◌, ◌≤◌, ◌<◌, ◌+◌, ◌^◌, [], ◌∷◌, length, All, IfOk, IfErr};
ghost use Rattle.far_store.specs.Faults.{faults_in, outcome, FailsOnlyIf, RefusedBy};
ghost use Rattle.far_offload.specs.Jobs.{columns_under, AreForms};
ghost use Rattle.far_offload.specs.Partials.{partial_of, pairs_over};

use crate::content::{contents_under, lend_all};
use crate::folding::fold;
use crate::partial::PartialDone;
use far_store::{FarRead, FarTickets, Meter};
use far_types::{Refusal, Spec};
use std::alloc::Global;
use std::marker::Model;

/// A remote agent's job: an aggregate over the live places of one row group, whose columns are in a far store. A job borrows
/// nothing, so any thread can run it.
///
/// Contracts see the aggregate, the tickets with their column numbers, and the alive flags. The remote agent reads the far
/// data where it is stored, and only the result travels, as in AIFM's offloading (OSDI 2020, section 4.4).
#[derive(Drop)]
pub struct OffloadJob<S: FarTickets> {
    spec: Spec,
    tickets: Vec<(u32, S::Ticket)>,
    alive: Vec<bool>,
}

impl<S: FarTickets> Model for OffloadJob<S> {
    ghost use Rattle.far_types.specs.declared.spec.Spec.{Spec};
    ghost use Rattle.far_offload.specs.Jobs.{Job, AreForms};
    ghost use Rattle.std.specs.Prelude.{length, ◌≤◌, ◌^◌};

    ghost Value = { Job S.Ticket };

    ghost view = { λ job. record
        { spec = job.spec; tickets = job.tickets.items; alive = job.alive.items } };

    ghost invariant = { λ job. AreForms S.content job.tickets.items
        × (length job.alive.items ≤ 2 ^ 26) };
}

impl<S: FarTickets> OffloadJob<S> {
    /// Makes a job over the columns with these numbers and tickets, one for each column that the aggregate needs. The content
    /// of each ticket is a far form. `alive` has one flag per place, at most 2^26. A column without a ticket, and a place past
    /// the end of a content, have no value. Allocates nothing.
    pub fn new(spec: Spec, tickets: Vec<(u32, S::Ticket)>, alive: Vec<bool>) -> OffloadJob<S>
        requires forms { AreForms S.content tickets.items }
        requires few { length alive.items ≤ 2 ^ 26 }
        ensures { result ≡ record { spec = spec; tickets = tickets.items; alive = alive.items } }
    {
        OffloadJob {
            spec,
            tickets,
            alive,
        }
    }

    /// Returns the aggregate.
    pub fn spec(&self) -> &Spec
        ensures { result.now ≡ self.now.spec }
    {
        &self.spec
    }

    /// Returns the tickets, each with the number of its column.
    pub fn tickets(&self) -> &[(u32, S::Ticket)]
        ensures { result.now ≡ self.now.tickets }
    {
        &self.tickets
    }

    /// Returns the alive flag of each place.
    pub fn alive(&self) -> &[bool]
        ensures { result.now ≡ self.now.alive }
    {
        &self.alive
    }
}

impl<S: FarRead> OffloadJob<S> {
    /// Computes the aggregate over the live rows that the contents encode, as the plain table defines it. Nothing enters the
    /// local region: the contents are read into buffers that the call drops.
    ///
    /// A refused call returns the whole job. Refused with one of these:
    ///
    /// - `FarFault` (21): the store fails in this call. Only then does the meter rise, by one.
    /// - `NoMemory` (1): an allocation fails.
    pub fn carry(
        self,
        alloc: Global,
        store: &S,
        meter: &mut Meter,
    ) -> Result<PartialDone, (Refusal, OffloadJob<S>)>
        requires few { meter.old < 2 ^ 63 }
        requires here { All (λ ticket. S.is_of ticket.1 (S.store_id store.now)) self.tickets }
        ensures partial { IfOk result
            (λ done. done
            ≡ partial_of self.spec.fold
            (pairs_over self.spec (columns_under S.content self.tickets) self.alive)) }
        ensures back { IfErr result (λ refused. refused.1 ≡ self) }
        ensures faults { meter.new ≡ meter.old + faults_in (outcome result) }
        ensures cause { FailsOnlyIf S.may_fail (outcome result) }
        ensures refused { RefusedBy (21 ∷ 1 ∷ []) (outcome result) }
    {
        match self.partial(alloc, store, meter) {
            Ok(done) => Ok(done),
            Err(refusal) => Err((refusal, self)),
        }
    }

    /// Computes the same aggregate as `carry`, and keeps the job. Refused like `carry`, with `FarFault` (21) or `NoMemory` (1).
    pub fn partial(
        &self,
        alloc: Global,
        store: &S,
        meter: &mut Meter,
    ) -> Result<PartialDone, Refusal>
        requires few { meter.old < 2 ^ 63 }
        requires here { All (λ ticket. S.is_of ticket.1 (S.store_id store.now)) self.now.tickets }
        ensures partial { IfOk result
            (λ done. done
            ≡ partial_of self.now.spec.fold
            (pairs_over self.now.spec (columns_under S.content self.now.tickets)
            self.now.alive)) }
        ensures faults { meter.new ≡ meter.old + faults_in result }
        ensures cause { FailsOnlyIf S.may_fail result }
        ensures refused { RefusedBy (21 ∷ 1 ∷ []) result }
    {
        let contents = contents_under(alloc, store, meter, &self.tickets)?;
        let columns = lend_all(alloc, &contents)?;
        Ok(fold(alloc, &self.spec, &columns, &self.alive)?)
    }
}
