// Creates objects, and removes the last one.
ghost use Rattle.std.specs.Prelude.{◌≡◌, ◌-◌, ◌<◌, ◌^◌, ◌↔◌, ◌⊎◌, length, false, true, None, OnOk, OnErr, IfOk, IfErr, IsErrOf};
ghost use Rattle.far_log.specs.RegionState.{fits_in};
ghost use Rattle.far_scopes.specs.Memory.{ChangesList};
ghost use Rattle.far_scopes.specs.Movement.{list_of, is_local, pins_of, ChangesObject};
ghost use Rattle.far_scopes.specs.Effects.{after_uncreate};
ghost use Rattle.far_scopes.specs.Keeping.{KeepsCopies};
ghost use Rattle.far_scopes.specs.Outcomes.{IsCreated};

use super::{ObjectRecord, Objects};
use far_codec::Elem;
use far_store::FarTickets;
use far_types::{Name, Refusal};

impl<T: Elem, S: FarTickets> Objects<T, S> {
    /// Creates an object with this list. Returns its number, which is the count of objects before the call.
    ///
    /// - The object is local, dirty, hot and the most recently used. Its counts of writes, evictions and pins are 0.
    /// - `uncreate` undoes the call (`undone` of `IsCreated`).
    /// - Further lists fit in order exactly if this list, followed by them, fitted before the call (`next` of `IsCreated`).
    ///
    /// A refused call changes nothing. Refused with:
    /// - `RegionFull` (17) exactly if no segment has the space;
    /// - else only `NoMemory` (1).
    pub fn create(&mut self, name: Name, items: &[T]) -> Result<u32, Refusal>
        requires some { 0 < length items.now }
        requires few { length self.old.records < 2 ^ 28 }
        ensures number { IfOk result (λ o. o ≡ length self.old.records) }
        ensures created { OnOk result
            (IsCreated T.meaning S.content self.old self.new name items.now) }
        ensures copies { KeepsCopies T.meaning S.content S.is_of self.old self.new }
        ensures full { IsErrOf result Refusal.RegionFull
            ↔ (fits_in self.old.memory.state (length items.now) ≡ false) }
        ensures refused { IfErr result
            (λ e. (e ≡ Refusal.RegionFull) ⊎ (e ≡ Refusal.NoMemory)) }
        ensures err { OnErr result (self.new ≡ self.old) }
    {
        if !self.memory.fits(items.len()) {
            return Err(Refusal::RegionFull);
        }
        self.records.reserve(1)?;
        let o = self.records.len() as u32;
        self.order.add(o)?;
        if let Err(refusal) = self.memory.add(items) {
            self.order.remove(o);
            return Err(refusal);
        }
        // For the proof: shows that the length fits into 32 bits.
        self.memory.lists_are_short();
        self.records.push_reserved(ObjectRecord {
            name,
            version: 0,
            leavings: 0,
            ticket: None,
            len: items.len() as u32,
            pins: 0,
        });
        Ok(o)
    }

    /// Removes the last object, which is local and has no pin. Allocates nothing.
    pub fn uncreate(&mut self)
        requires local { is_local self.old (length self.old.records - 1) ≡ true }
        requires unpinned { pins_of self.old (length self.old.records - 1) ≡ 0 }
        ensures uncreated { self.new ≡ after_uncreate self.old }
        ensures list { ChangesList (list_of T.meaning S.content self.old)
            (list_of T.meaning S.content self.new) (length self.old.records - 1) None }
        ensures copies { KeepsCopies T.meaning S.content S.is_of self.old self.new }
        ensures others { ChangesObject self.old self.new (length self.old.records - 1) }
    {
        self.memory.remove_last();
        self.records.pop();
        self.order.remove(self.records.len() as u32);
    }
}
