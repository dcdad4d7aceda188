// Offloaded builds: a row group is scanned into an aggregate from the far store's copies of its columns.
ghost use Rattle.std.specs.Prelude.{◌≡◌, ◌+◌, ◌<◌, ◌^◌, [], ◌∷◌, IfOk, IfErr, option_copied, slice_get};
ghost use Rattle.far_store.specs.Faults.{faults_in, outcome, FailsOnlyIf, RefusedBy};
ghost use Rattle.far_table.specs.Offloading.{AreTicketsOf};
ghost use Rattle.far_table.specs.Tickets.{ticket_with, tickets_of};
ghost use Rattle.far_table.specs.FarGroups.{contents_under};

use crate::contents::{Content, contents_of};
use far_offload::OffloadJob;
use far_store::{FarRead, FarTickets, Meter};
use far_types::Refusal;
use std::alloc::Global;
use std::marker::Model;

/// A begun offloaded build: its table and registration, and the tickets and alive flags that it assumes. It borrows nothing, so any
/// thread can carry it.
///
/// `carry` reads the contents into buffers, and a table folds them. Computing an aggregate from far data without fetching its
/// objects is AIFM's offloading (OSDI 2020, section 4.4). There the fold runs beside the far data.
#[derive(Drop)]
pub struct OffloadBuild<S: FarTickets> {
    /// The number of the table.
    pub number: u32,
    /// The number of the aggregate.
    pub aggregate: u32,
    /// How many aggregates were registered before this one.
    pub registration: u64,
    /// The index of the row group.
    pub group: u32,
    /// What is to be folded: the specification, a ticket for each column that it needs, and the alive flags of the row group.
    pub job: OffloadJob<S>,
}

impl<S: FarTickets> Model for OffloadBuild<S> {
    ghost use Rattle.far_table.specs.Offloading.{Build};

    ghost Value = { Build S.Ticket };

    ghost view = { λ build. record {
      number = build.number;
      aggregate = build.aggregate;
      registration = build.registration;
      group = build.group;
      job = build.job;
    } };
}

/// An offloaded build whose contents were read. Contracts see the build. Its invariant: the contents are those of its tickets.
#[derive(Drop)]
pub struct OffloadCarried<S: FarTickets> {
    pub(crate) build: OffloadBuild<S>,
    contents: Vec<Content>,
}

impl<S: FarTickets> Model for OffloadCarried<S> {
    ghost use Rattle.std.specs.Prelude.{◌≡◌};
    ghost use Rattle.far_table.specs.Offloading.{Build};
    ghost use Rattle.far_table.specs.FarGroups.{contents_under};

    ghost Value = { Build S.Ticket };

    ghost view = { λ carried. carried.build };

    ghost invariant = { λ carried. carried.contents.items
        ≡ contents_under S.content carried.build.job.tickets };
}

impl<S: FarTickets> OffloadBuild<S> {
    /// Returns the ticket at an index, among those whose contents the build reads, or `None` past the last. Allocates nothing.
    pub fn ticket(&self, index: usize) -> Option<&S::Ticket>
        ensures { option_copied result ≡ slice_get (tickets_of self.now) index }
    {
        match self.job.tickets().get(index) {
            Some(ticket) => Some(&ticket.1),
            None => None,
        }
    }

    /// Returns the ticket with a number, among those whose contents the build reads, or `None` if none has it. Allocates nothing.
    pub fn ticket_of(&self, store: &S, number: u64) -> Option<&S::Ticket>
        requires here { AreTicketsOf S.is_of (S.store_id store.now) self.now.job.tickets }
        ensures { option_copied result ≡ ticket_with S.number_of (tickets_of self.now) number }
    {
        let tickets = self.job.tickets();
        for (_, ticket) in tickets {
            if store.number(ticket) == number {
                return Some(ticket);
            }
        }
        None
    }
}

impl<S: FarRead> OffloadBuild<S> {
    /// Reads the content of each ticket into a buffer of its own. Nothing enters the local region.
    ///
    /// Refused with one of these; the build then comes back whole:
    ///
    /// - `FarFault` (21): the store fails in this call, exactly if the meter rises, by one.
    /// - `NoMemory` (1): an allocation fails.
    pub fn carry(
        self,
        alloc: Global,
        store: &S,
        meter: &mut Meter,
    ) -> Result<OffloadCarried<S>, (Refusal, OffloadBuild<S>)>
        requires few { meter.old < 2 ^ 63 }
        requires here { AreTicketsOf S.is_of (S.store_id store.now) self.job.tickets }
        ensures build { IfOk result (λ carried. carried ≡ self) }
        ensures back { IfErr result (λ refused. refused.1 ≡ self) }
        ensures faults { meter.new ≡ meter.old + faults_in (outcome result) }
        ensures cause { FailsOnlyIf S.may_fail (outcome result) }
        ensures refused { RefusedBy (21 ∷ 1 ∷ []) (outcome result) }
    {
        match contents_of(alloc, store, meter, self.job.tickets()) {
            Ok(contents) => Ok(OffloadCarried {
                build: self,
                contents,
            }),
            Err(refusal) => Err((refusal, self)),
        }
    }
}

impl<S: FarTickets> OffloadCarried<S> {
    /// Returns the build. Allocates nothing.
    pub fn build(&self) -> &OffloadBuild<S>
        ensures { result.now ≡ self.now }
    {
        &self.build
    }

    /// Returns the ticket at an index, among those whose contents were read, or `None` past the last. Allocates nothing.
    pub fn ticket(&self, index: usize) -> Option<&S::Ticket>
        ensures { option_copied result ≡ slice_get (tickets_of self.now) index }
    {
        self.build.ticket(index)
    }

    /// Returns the contents that were read. Allocates nothing.
    pub(crate) fn contents(&self) -> &[Content]
        ensures { result.now ≡ contents_under S.content self.now.job.tickets }
    {
        &self.contents
    }
}
