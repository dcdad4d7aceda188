// Fetches: the jobs that bring objects back.
ghost use Rattle.std.specs.Prelude.{◌≡◌, ◌+◌, ◌<◌, ◌^◌, [], ◌∷◌, IfOk, IfErr};
ghost use Rattle.far_store.specs.Faults.{faults_in, outcome, FailsOnlyIf, RefusedBy};
ghost use Rattle.far_evacuator.specs.Jobs.{IsCarriedFetch};

use far_store::{FarRead, FarTickets, Meter};
use far_types::{Kind, Refusal};
use std::alloc::Global;
use std::marker::Model;

/// A fetch that was begun: the frame's number, the kind of its object and the object's number, its count of evictions at that time
/// (`leavings`), and its ticket. It borrows nothing, so any thread can carry it.
#[derive(Drop)]
pub struct FetchJob<S: FarTickets> {
    pub(crate) number: u32,
    pub(crate) kind: Kind,
    pub(crate) object: u32,
    pub(crate) leavings: u64,
    pub(crate) ticket: S::Ticket,
}

impl<S: FarTickets> Model for FetchJob<S> {
    ghost use Rattle.far_evacuator.specs.Jobs.{Fetch};

    ghost Value = { Fetch S.Ticket };

    ghost view = { λ job. record {
      number = job.number;
      kind = job.kind;
      object = job.object;
      leavings = job.leavings;
      ticket = job.ticket;
    } };
}

/// A fetch that was carried: the job, and the content of its ticket.
#[derive(Drop)]
pub struct Fetched<S: FarTickets> {
    pub(crate) job: FetchJob<S>,
    pub(crate) bytes: Vec<u8>,
}

impl<S: FarTickets> Model for Fetched<S> {
    ghost use Rattle.std.specs.Prelude.{◌≡◌};
    ghost use Rattle.far_evacuator.specs.Jobs.{CarriedFetch};

    ghost Value = { CarriedFetch S.Ticket };

    ghost view = { λ fetched. record { job = fetched.job; bytes = fetched.bytes.items } };

    ghost invariant = { λ fetched. fetched.bytes.items ≡ S.content fetched.job.ticket };
}

impl<S: FarTickets> FetchJob<S> {
    /// Returns the ticket of the content that the job will read. Allocates nothing.
    pub fn ticket(&self) -> &S::Ticket
        ensures { result.now ≡ self.now.ticket }
    {
        &self.ticket
    }
}

impl<S: FarTickets> Fetched<S> {
    /// Returns the kind that the job was begun with. Allocates nothing.
    pub fn kind(&self) -> Kind
        ensures { result ≡ self.now.job.kind }
    {
        self.job.kind
    }

    /// Returns the ticket of the content that the job read. Allocates nothing.
    pub fn ticket(&self) -> &S::Ticket
        ensures { result.now ≡ self.now.job.ticket }
    {
        self.job.ticket()
    }
}

impl<S: FarRead> FetchJob<S> {
    /// Reads the content of the job's ticket.
    ///
    /// A refused carry also returns the job, unchanged. Refused with:
    /// - `FarFault` (21) if the store fails in this call. Only then does the meter rise, by one;
    /// - `NoMemory` (1).
    pub fn carry(
        self,
        alloc: Global,
        store: &S,
        meter: &mut Meter,
    ) -> Result<Fetched<S>, (Refusal, FetchJob<S>)>
        requires few { meter.old < 2 ^ 63 }
        requires here { S.is_of self.ticket (S.store_id store.now) }
        ensures carried { IfOk result (IsCarriedFetch S.content self) }
        ensures back { IfErr result (λ refused. refused.1 ≡ self) }
        ensures faults { meter.new ≡ meter.old + faults_in (outcome result) }
        ensures cause { FailsOnlyIf S.may_fail (outcome result) }
        ensures refused { RefusedBy (21 ∷ 1 ∷ []) (outcome result) }
    {
        let mut bytes = Vec::new(alloc);
        match store.get(alloc, meter, &self.ticket, &mut bytes) {
            Ok(()) => Ok(Fetched { job: self, bytes }),
            Err(refusal) => Err((refusal, self)),
        }
    }
}
