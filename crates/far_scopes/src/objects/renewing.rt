// Moves the far copies of objects to another store.
ghost use Rattle.std.specs.Prelude.{◌≡◌, ◌⊎◌, ◌+◌, ◌<◌, ◌^◌, ℕ, List, [], ◌∷◌, length, if◌then◌else◌, None, IfOk, option_map};
ghost use Rattle.far_store.specs.Faults.{faults_in, FailsOnlyIf, RefusedBy};
ghost use Rattle.far_scopes.specs.Movement.{list_of, AreClean, AreHere, is_local, ticket_of};
ghost use Rattle.far_scopes.specs.Renewal.{Renews, after_renew, AreTicketsHere};

use super::{ObjectRecord, Objects};
use crate::renewal::Renewal;
use far_codec::Elem;
use far_store::{FarRead, FarStore, FarTickets, Meter};
use far_types::Refusal;
use std::alloc::Global;

impl<T: Elem, S: FarRead> Objects<T, S> {
    /// Copies the content of each object that is away into another store, by ascending object number. Allocates all memory that `renew`
    /// needs. Does not change the objects.
    ///
    /// Stops at the first refusal. The new store keeps the contents that were copied before. Refused with:
    /// - `FarFault` (21) if one of the stores fails;
    /// - `FarFull` (22) if the new store gives out no more numbers;
    /// - `NoMemory` (1).
    pub fn renewal<N: FarStore>(
        &self,
        alloc: Global,
        store: &S,
        new_store: &N,
        meter: &mut Meter,
    ) -> Result<Renewal<N>, Refusal>
        requires few { meter.old < 2 ^ 63 }
        requires here { AreHere S.is_of (S.store_id store.now) self.now }
        ensures renews { IfOk result (λ tickets. Renews S.content N.content self.now tickets) }
        ensures there { IfOk result
            (λ tickets. AreTicketsHere N.is_of (N.store_id new_store.now) tickets) }
        ensures faults { meter.new ≡ meter.old + faults_in result }
        ensures cause { FailsOnlyIf (S.may_fail ⊎ N.may_fail) result }
        ensures refused { RefusedBy (21 ∷ 22 ∷ 1 ∷ []) result }
    {
        let records = Vec::with_capacity(alloc, self.records.len())?;
        let mut tickets = Vec::with_capacity(alloc, self.records.len())?;
        let mut buffer = Vec::new(alloc);
        for o in 0..self.records.len() as u32 {
            let ticket = match self.away_ticket(o) {
                Some(ticket) => Some(put_again(
                    alloc,
                    store,
                    ticket,
                    new_store,
                    meter,
                    &mut buffer,
                )?),
                None => None,
            };
            tickets.push_reserved(ticket);
        }
        Ok(Renewal { tickets, records })
    }
}

impl<T: Elem, S: FarTickets> Objects<T, S> {
    /// Returns the same objects, with the far copies of the renewal. Allocates nothing.
    ///
    /// - Objects that are away have the renewal's tickets.
    /// - Local objects are dirty, since the new store has no copy of them.
    /// - Nothing else changes: lists; which objects are local, hot or pinned; versions; leavings; the order of use; the region.
    pub fn renew<N: FarTickets>(self, renewal: Renewal<N>) -> Objects<T, N>
        requires { Renews S.content N.content self renewal }
        ensures renewed { result ≡ after_renew self renewal }
        ensures lists { (p : ℕ)
            → list_of T.meaning N.content result p ≡ list_of T.meaning S.content self p }
        ensures clean { AreClean T.meaning N.content result }
        ensures store { (id : List ℕ) → AreTicketsHere N.is_of id renewal
            → AreHere N.is_of id result }
    {
        let Renewal {
            tickets,
            mut records,
        } = renewal;
        for (object_record, ticket) in self.records.into_iter().zip(tickets) {
            records.push_reserved(object_record.renewed(ticket));
        }
        let mut memory = self.memory;
        memory.forget_copies();
        Objects {
            number: self.number,
            max_writes: self.max_writes,
            leavings: self.leavings,
            memory,
            records,
            order: self.order,
        }
    }

    // Returns the ticket of an object that is away, and `None` for a local object.
    fn away_ticket(&self, o: u32) -> Option<&S::Ticket>
        requires { o < length self.now.records }
        ensures { option_map (λ ticket. ticket.now) result
            ≡ (if is_local self.now o then None else ticket_of self.now o) }
    {
        if self.is_away(o) {
            self.ticket(o)
        } else {
            None
        }
    }
}

// Copies a ticket's content into another store. Reuses the buffer's memory.
fn put_again<S: FarRead, N: FarStore>(
    alloc: Global,
    store: &S,
    ticket: &S::Ticket,
    new_store: &N,
    meter: &mut Meter,
    buffer: &mut Vec<u8>,
) -> Result<N::Ticket, Refusal>
    requires few { meter.old < 2 ^ 63 }
    requires here { S.is_of ticket.now (S.store_id store.now) }
    ensures there { IfOk result (λ new. N.is_of new (N.store_id new_store.now)) }
    ensures content { IfOk result (λ new. N.content new ≡ S.content ticket.now) }
    ensures faults { meter.new ≡ meter.old + faults_in result }
    ensures cause { FailsOnlyIf (S.may_fail ⊎ N.may_fail) result }
    ensures refused { RefusedBy (21 ∷ 22 ∷ 1 ∷ []) result }
{
    store.get(alloc, meter, ticket, buffer)?;
    new_store.put(alloc, meter, buffer)
}
