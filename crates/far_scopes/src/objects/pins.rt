// Pins, which keep objects local.
ghost use Rattle.std.specs.Prelude.{◌≡◌, ◌<◌, length, OnOk, OnErr};
ghost use Rattle.far_scopes.specs.Refusing.{refusal_in, pin_refusal, unpin_refusal};
ghost use Rattle.far_scopes.specs.Effects.{after_pin, after_unpin, after_touch};
ghost use Rattle.far_scopes.specs.Movement.{ChangesObject};
ghost use Rattle.far_scopes.specs.Keeping.{KeepsLists};

use super::Objects;
use far_codec::Elem;
use far_store::FarTickets;
use far_types::Refusal;

impl<T: Elem, S: FarTickets> Objects<T, S> {
    /// Adds a pin to an object. Allocates nothing.
    ///
    /// A refused call changes nothing. Refused with:
    /// - `Absent` (16) exactly if the object is away;
    /// - `EditsUsedUp` (24) exactly if it has 65,535 pins.
    pub fn pin(&mut self, o: u32) -> Result<(), Refusal>
        requires { o < length self.old.records }
        ensures pinned { OnOk result (self.new ≡ after_pin self.old o) }
        ensures keeps { KeepsLists T.meaning S.content S.is_of self.old self.new }
        ensures others { OnOk result (ChangesObject self.old self.new o) }
        ensures refused { refusal_in result ≡ pin_refusal self.old o }
        ensures err { OnErr result (self.new ≡ self.old) }
    {
        if self.is_away(o) {
            return Err(self.absent(o));
        }
        let object_record = &mut self.records[o as usize];
        if object_record.pins == u16::MAX {
            return Err(Refusal::EditsUsedUp);
        }
        object_record.pins += 1;
        Ok(())
    }

    /// Removes a pin from an object. Allocates nothing.
    ///
    /// Refused with `NotPinned` (18) exactly if it has no pin. Then nothing changes.
    pub fn unpin(&mut self, o: u32) -> Result<(), Refusal>
        requires { o < length self.old.records }
        ensures unpinned { OnOk result (self.new ≡ after_unpin self.old o) }
        ensures keeps { KeepsLists T.meaning S.content S.is_of self.old self.new }
        ensures others { OnOk result (ChangesObject self.old self.new o) }
        ensures refused { refusal_in result ≡ unpin_refusal self.old o }
        ensures err { OnErr result (self.new ≡ self.old) }
    {
        let object_record = &mut self.records[o as usize];
        if object_record.pins == 0 {
            return Err(Refusal::NotPinned);
        }
        object_record.pins -= 1;
        Ok(())
    }

    /// Marks a local object as recently used: it becomes hot and the most recently used. Does nothing if the object is away. Allocates
    /// nothing.
    pub fn touch(&mut self, o: u32)
        requires { o < length self.old.records }
        ensures touched { self.new ≡ after_touch self.old o }
        ensures keeps { KeepsLists T.meaning S.content S.is_of self.old self.new }
        ensures others { ChangesObject self.old self.new o }
    {
        self.memory.heat(o as usize);
        self.order.touch(o);
    }
}
