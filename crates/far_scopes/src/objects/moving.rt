// Evicts objects, and makes them local again.
ghost use Rattle.std.specs.Prelude.{◌≡◌, ℕ, ◌<◌, ◌↔◌, ◌⊎◌, length, false, Some, OnOk, OnErr, IfErr, IsSomeAnd, IsErrOf};
ghost use Rattle.far_codec.specs.Spelling.{IsSpelled};
ghost use Rattle.far_log.specs.RegionState.{fits_in};
ghost use Rattle.far_scopes.specs.Memory.{list_in};
ghost use Rattle.far_scopes.specs.Movement.{list_of, AreClean, is_local, pins_of, leavings_of, AreHere};
ghost use Rattle.far_scopes.specs.Keeping.{KeepsLists};
ghost use Rattle.far_scopes.specs.Outcomes.{IsDeparted, IsArrived};

use super::Objects;
use far_codec::Elem;
use far_store::FarTickets;
use far_types::Refusal;

impl<T: Elem, S: FarTickets> Objects<T, S> {
    /// Evicts an object whose list is encoded in this ticket's content. Drops its part and keeps its record. Allocates nothing.
    pub fn leave(&mut self, store: &S, o: u32, ticket: &S::Ticket)
        requires here { S.is_of ticket.now (S.store_id store.now) }
        requires copied { IsSomeAnd (list_in self.old.memory o)
            (λ list. IsSpelled T.in_range T.has_spelling T.spelling list (S.content ticket.now)) }
        requires unpinned { pins_of self.old o ≡ 0 }
        requires left { leavings_of self.old o < self.old.leavings }
        ensures departed { IsDeparted self.old self.new o ticket.now }
        ensures lists { (p : ℕ)
            → list_of T.meaning S.content self.new p ≡ list_of T.meaning S.content self.old p }
        ensures clean { AreClean T.meaning S.content self.old
            → AreClean T.meaning S.content self.new }
        ensures store { AreHere S.is_of (S.store_id store.now) self.old
            → AreHere S.is_of (S.store_id store.now) self.new }
    {
        self.memory.send_away(o as usize);
        let object_record = &mut self.records[o as usize];
        object_record.leavings += 1;
        object_record.ticket = Some(store.again(ticket));
        self.order.remove(o);
    }

    /// Makes an object that is away local again, with the list that its ticket's content encodes. This ends a fetch.
    ///
    /// A refused call changes nothing. Refused with:
    /// - `RegionFull` (17) exactly if no segment has the space;
    /// - else only `NoMemory` (1).
    pub fn arrive(&mut self, o: u32, items: &[T]) -> Result<(), Refusal>
        requires within { o < length self.old.records }
        requires away { is_local self.old o ≡ false }
        requires meant { list_of T.meaning S.content self.old o ≡ Some items.now }
        ensures arrived { OnOk result (IsArrived self.old self.new o items.now) }
        ensures keeps { KeepsLists T.meaning S.content S.is_of self.old self.new }
        ensures full { IsErrOf result Refusal.RegionFull
            ↔ (fits_in self.old.memory.state (length items.now) ≡ false) }
        ensures refused { IfErr result
            (λ e. (e ≡ Refusal.RegionFull) ⊎ (e ≡ Refusal.NoMemory)) }
        ensures err { OnErr result (self.new ≡ self.old) }
    {
        if !self.memory.fits(items.len()) {
            return Err(Refusal::RegionFull);
        }
        self.order.add(o)?;
        if let Err(refusal) = self.memory.bring(o as usize, items) {
            self.order.remove(o);
            return Err(refusal);
        }
        Ok(())
    }
}
