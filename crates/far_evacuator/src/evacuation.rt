// Evacuations: the jobs that evict objects.
ghost use Rattle.std.specs.Prelude.{◌≡◌, ◌+◌, ◌<◌, ◌^◌, [], ◌∷◌, IfOk, IfErr, IsErr, option_map};
ghost use Rattle.far_store.specs.Faults.{faults_in, outcome, FailsOnlyIf, RefusedBy};
ghost use Rattle.far_evacuator.specs.Jobs.{IsCarriedEvacAt, IsFormTicket, IsFormOf, IsDirtyForm, put_ticket};

use crate::far_form::FarForm;
use far_store::{FarStore, FarTickets, Meter};
use far_types::{Kind, Refusal};
use std::alloc::Global;
use std::marker::Model;

/// The far form of an evacuation's object, or its ticket if the far store already has the form.
#[derive(Drop)]
pub enum EvacForm<K> {
    /// The far form of a dirty object, to be put into the far store.
    Dirty(FarForm),
    /// The ticket of a clean object, whose far form the far store already has.
    Clean(K),
}

/// An evacuation that was begun: the frame's number, the kind of its object and the object's number, its counts of writes (`version`) and
/// evictions (`leavings`) at that time, and its far form. It borrows nothing, so any thread can carry it.
///
/// A refused carry returns the job, so that it can be carried again.
///
/// Not writing an object again while its far copy is valid is AIFM's idea (OSDI 2020, section 5). The phases are this project's own.
#[derive(Drop)]
pub struct EvacJob<S: FarTickets> {
    pub(crate) number: u32,
    pub(crate) kind: Kind,
    pub(crate) object: u32,
    pub(crate) version: u64,
    pub(crate) leavings: u64,
    pub(crate) form: EvacForm<S::Ticket>,
}

impl<S: FarTickets> Model for EvacJob<S> {
    ghost use Rattle.far_evacuator.specs.Jobs.{Evacuation};

    ghost Value = { Evacuation S.Ticket };

    ghost view = { λ job. record {
      number = job.number;
      kind = job.kind;
      object = job.object;
      version = job.version;
      leavings = job.leavings;
      form = job.form;
    } };
}

/// An evacuation that was carried: the job, and the ticket of its far form in the far store.
#[derive(Drop)]
pub struct Carried<S: FarTickets> {
    pub(crate) job: EvacJob<S>,
    pub(crate) ticket: S::Ticket,
}

impl<S: FarTickets> Model for Carried<S> {
    ghost use Rattle.far_evacuator.specs.Jobs.{CarriedEvacuation, IsFormTicket};

    ghost Value = { CarriedEvacuation S.Ticket };

    ghost view = { λ carried. record { job = carried.job; ticket = carried.ticket } };

    ghost invariant = { λ carried. IsFormTicket S.content carried.job.form carried.ticket };
}

impl<S: FarStore> EvacJob<S> {
    /// Puts the job's far form into the store. A job on a clean object does not call the store, and is never refused.
    ///
    /// A refused carry also returns the job, unchanged. Refused with:
    /// - `FarFault` (21) if the store fails in this call. Only then does the meter rise, by one;
    /// - `FarFull` (22);
    /// - `NoMemory` (1).
    pub fn carry(
        self,
        alloc: Global,
        store: &S,
        meter: &mut Meter,
    ) -> Result<Carried<S>, (Refusal, EvacJob<S>)>
        requires few { meter.old < 2 ^ 63 }
        requires here { IsFormOf S.is_of (S.store_id store.now) self.form }
        ensures carried { IfOk result
            (IsCarriedEvacAt S.content S.is_of (S.store_id store.now) self) }
        ensures back { IfErr result (λ refused. refused.1 ≡ self) }
        ensures dirty { IsErr result → IsDirtyForm self.form }
        ensures faults { meter.new ≡ meter.old + faults_in (outcome result) }
        ensures cause { FailsOnlyIf S.may_fail (outcome result) }
        ensures refused { RefusedBy (21 ∷ 22 ∷ 1 ∷ []) (outcome result) }
    {
        match self.put(alloc, store, meter) {
            Ok(ticket) => Ok(Carried { job: self, ticket }),
            Err(refusal) => Err((refusal, self)),
        }
    }

    // Returns the ticket of the job's far form. Puts the form if the object was dirty.
    fn put(&self, alloc: Global, store: &S, meter: &mut Meter) -> Result<S::Ticket, Refusal>
        requires few { meter.old < 2 ^ 63 }
        requires here { IsFormOf S.is_of (S.store_id store.now) self.now.form }
        ensures ticket { IfOk result (λ ticket. IsFormTicket S.content self.now.form ticket) }
        ensures here { IfOk result (λ ticket. S.is_of ticket (S.store_id store.now)) }
        ensures dirty { IsErr result → IsDirtyForm self.now.form }
        ensures faults { meter.new ≡ meter.old + faults_in result }
        ensures cause { FailsOnlyIf S.may_fail result }
        ensures refused { RefusedBy (21 ∷ 22 ∷ 1 ∷ []) result }
    {
        match &self.form {
            EvacForm::Dirty(form) => store.put(alloc, meter, &form.bytes),
            EvacForm::Clean(ticket) => Ok(store.again(ticket)),
        }
    }
}

impl<S: FarTickets> Carried<S> {
    /// Returns the kind that the job was begun with. Allocates nothing.
    pub fn kind(&self) -> Kind
        ensures { result ≡ self.now.job.kind }
    {
        self.job.kind
    }

    /// Returns the number of the object that the job evicts. Allocates nothing.
    pub fn object(&self) -> u32
        ensures { result ≡ self.now.job.object }
    {
        self.job.object
    }

    /// Returns the ticket's number and the bytes of the far form that the job put. Returns `None` exactly if the job was begun on a clean
    /// object, whose far form the store already had. Allocates nothing.
    pub fn outgoing(&self, store: &S) -> Option<(u64, &[u8])>
        requires here { S.is_of self.now.ticket (S.store_id store.now) }
        ensures number { option_map (λ out. out.0) result
            ≡ option_map S.number_of (put_ticket self.now) }
        ensures bytes { option_map (λ out. out.1.now) result
            ≡ option_map S.content (put_ticket self.now) }
    {
        match &self.job.form {
            EvacForm::Dirty(form) => Some((store.number(&self.ticket), &form.bytes)),
            EvacForm::Clean(_) => None,
        }
    }
}
