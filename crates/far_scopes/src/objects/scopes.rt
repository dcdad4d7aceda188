// Objects that are pinned together.
ghost use Rattle.std.specs.Prelude.{◌≡◌, ◌⊎◌, ◌==◌, not, false, IsTrue, ◌<◌, ◌^◌, length, All, Some, None, OnOk, OnErr, IfOk, IfErr};
ghost use Rattle.far_scopes.specs.Movement.{Movement, AreClean, pins_of};
ghost use Rattle.far_scopes.specs.Effects.{after_unpin};
ghost use Rattle.far_scopes.specs.Refusing.{refusal_in, first_absent};
ghost use Rattle.far_scopes.specs.Entering.{after_pin_all, enter_refusal, pins_overflow, after_close};
ghost use Rattle.far_scopes.specs.Keeping.{KeepsLists};

use super::Objects;
use crate::scope::Scope;
use far_codec::Elem;
use far_store::FarTickets;
use far_types::Refusal;
use std::alloc::Global;

impl<T: Elem, S: FarTickets> Objects<T, S> {
    /// Pins objects together, one pin for each listing, all or none. `close` must consume the scope.
    ///
    /// A refused call changes nothing. Refused with:
    /// - `Absent` (16), which names the first such object, exactly if a listed object is away;
    /// - `EditsUsedUp` (24) exactly if none is away and one would get more than 65,535 pins;
    /// - else only `NoMemory` (1).
    pub fn enter(&mut self, alloc: Global, objects: &[u32]) -> Result<Scope, Refusal>
        requires within { All (λ o. o < length self.old.records) objects.now }
        requires few { length objects.now < 2 ^ 32 }
        ensures scope { IfOk result (λ scope. scope ≡ objects.now) }
        ensures pinned { OnOk result (self.new ≡ after_pin_all self.old objects.now) }
        ensures keeps { KeepsLists T.meaning S.content S.is_of self.old self.new }
        ensures free { OnOk result (enter_refusal self.old objects.now ≡ None) }
        ensures refused { IfErr result (λ e. (enter_refusal self.old objects.now ≡ Some e)
            ⊎ ((enter_refusal self.old objects.now ≡ None) × (e ≡ Refusal.NoMemory))) }
        ensures err { OnErr result (self.new ≡ self.old) }
    {
        self.all_local(objects)?;
        self.pin_all(objects)?;
        match objects.to_vec(alloc) {
            Ok(objects) => Ok(Scope { objects }),
            Err(_) => {
                self.unpin_all(objects);
                Err(Refusal::NoMemory)
            }
        }
    }

    // Checks that listed objects are local. The refusal names the first that is away.
    fn all_local(&self, objects: &[u32]) -> Result<(), Refusal>
        requires { All (λ o. o < length self.now.records) objects.now }
        ensures { refusal_in result ≡ first_absent self.now objects.now }
    {
        for o in objects {
            if self.is_away(*o) {
                return Err(self.absent(*o));
            }
        }
        Ok(())
    }

    // Pins listed objects, which are local, all or none.
    fn pin_all(&mut self, objects: &[u32]) -> Result<(), Refusal>
        requires within { All (λ o. o < length self.old.records) objects.now }
        requires local { first_absent self.old objects.now ≡ None }
        ensures pinned { OnOk result (self.new ≡ after_pin_all self.old objects.now) }
        ensures clean { AreClean T.meaning S.content self.old
            → AreClean T.meaning S.content self.new }
        ensures refused { refusal_in result ≡ pins_overflow self.old objects.now }
        ensures err { OnErr result (self.new ≡ self.old) }
    {
        for k in 0..objects.len() {
            if let Err(refusal) = self.pin(objects[k]) {
                self.unpin_all(&objects[..k]);
                return Err(refusal);
            }
        }
        Ok(())
    }

    // Removes the pins that `pin_all` added.
    fn unpin_all(&mut self, objects: &[u32])
        requires { All (λ o. o < length self.old.records) objects.now }
        ensures undone { (m : Movement T S.Ticket) → self.old ≡ after_pin_all m objects.now
            → self.new ≡ m }
    {
        let mut left = objects.len();
        while left > 0 {
            left -= 1;
            self.take_pin(objects[left]);
        }
    }

    // Removes a pin of an object. Returns whether it had one.
    fn take_pin(&mut self, o: u32) -> bool
        requires { o < length self.old.records }
        ensures taken { IsTrue result → self.new ≡ after_unpin self.old o }
        ensures none { result ≡ not (pins_of self.old o == 0) }
        ensures kept { result ≡ false → self.new ≡ self.old }
        ensures long { length self.new.records ≡ length self.old.records }
        ensures clean { AreClean T.meaning S.content self.old
            → AreClean T.meaning S.content self.new }
    {
        self.unpin(o).is_ok()
    }

    /// Removes the pins of a scope: one for each listing of an object, if the object has a pin. Returns how many pins it removed.
    /// Allocates nothing.
    pub fn close(&mut self, scope: Scope) -> u32
        requires { All (λ o. o < length self.old.records) scope }
        ensures closed { self.new ≡ (after_close self.old scope).0 }
        ensures count { result ≡ (after_close self.old scope).1 }
        ensures keeps { KeepsLists T.meaning S.content S.is_of self.old self.new }
    {
        let Scope { objects } = scope;
        let mut taken = 0;
        for o in &objects {
            if self.take_pin(*o) {
                taken += 1;
            }
        }
        taken
    }
}
