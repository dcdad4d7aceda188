// Appending elements, and undoing that.
ghost use Rattle.std.specs.Prelude.{◌≡◌, ◌-◌, ◌<◌, ◌^◌, ◌⊎◌, length, true, false, take, Some, None, OnOk, OnErr, IfErr};
ghost use Rattle.far_scopes.specs.Movement.{list_of};
ghost use Rattle.far_scopes.specs.Effects.{after_uncreate};
ghost use Rattle.far_scopes.specs.Refusing.{refusal_in, lend_refusal, write_refusal};
ghost use Rattle.far_columns.specs.Vector.{IsVector, elements, object_at};
ghost use Rattle.far_columns.specs.Vectors.{ChangesVector};
ghost use Rattle.far_columns.specs.Effects.{IsNewGroup, is_full, after_unpush};
ghost use Rattle.far_columns.specs.Changes.{VectorPushed, ChangesOnly};
ghost use Rattle.far_columns.specs.Refusing.{push_refusal};

use super::FarVector;
use far_codec::Elem;
use far_scopes::Objects;
use far_store::FarTickets;
use far_types::{Name, Refusal};

impl<T: Elem> FarVector<T> {
    /// Returns whether the next element begins a row group. Allocates nothing.
    pub fn begins_group(&self) -> bool
        ensures { result ≡ is_full self.now }
    {
        self.len == self.objects.len() * self.size
    }

    /// Checks that the object of the next place is local. Its row group must have been begun. Allocates nothing.
    ///
    /// Refused with `Absent` (16) exactly if the object is away.
    pub fn next_is_here<S: FarTickets>(&self, objects: &Objects<T, S>) -> Result<(), Refusal>
        requires is { IsVector (list_of T.meaning S.content objects.now) self.now }
        requires begun { is_full self.now ≡ false }
        ensures { refusal_in result ≡ lend_refusal objects.now (object_at self.now self.now.len) }
    {
        objects.here(self.next_position(objects).object)
    }

    /// Checks that the object of the next place may be written. Its row group must have been begun. Allocates nothing.
    ///
    /// Refused with the first of these that applies:
    ///
    /// - `Absent` (16): the object is away.
    /// - `EditsUsedUp` (24): it was written as often as the limits allow.
    pub fn next_is_writable<S: FarTickets>(&self, objects: &Objects<T, S>) -> Result<(), Refusal>
        requires is { IsVector (list_of T.meaning S.content objects.now) self.now }
        requires begun { is_full self.now ≡ false }
        ensures { refusal_in result
            ≡ write_refusal objects.now (object_at self.now self.now.len) }
    {
        objects.may_write(self.next_position(objects).object)
    }

    /// Appends an element. If the last row group is full, makes the object of a new one. `unpush` undoes a push that made an
    /// object (`BeginsGroup`).
    ///
    /// If the element begins a row group, refused with the first of these that applies:
    ///
    /// - `RegionFull` (17): no segment has the space.
    /// - `NoMemory` (1): an allocation fails.
    ///
    /// Otherwise it allocates nothing, and is refused with the first of these that applies:
    ///
    /// - `Absent` (16): the last row group's object is away.
    /// - `EditsUsedUp` (24): that object was written as often as the limits allow.
    ///
    /// A refused call changes nothing.
    ///
    /// Inlined, like `fill_place`: nearly every push fills a place of the last row group, and a row takes one push for each column.
    #[inline(always)]
    pub fn push<S: FarTickets>(&mut self, objects: &mut Objects<T, S>, x: T) -> Result<(), Refusal>
        requires is { IsVector (list_of T.meaning S.content objects.old) self.old }
        requires few { is_full self.old ≡ true → length objects.old.records < 2 ^ 28 }
        ensures pushed { OnOk result
            (VectorPushed T.meaning S.content objects.old objects.new self.old self.new x) }
        ensures changes { ChangesVector (list_of T.meaning S.content objects.old)
            (list_of T.meaning S.content objects.new) self.old self.new }
        ensures keeps { ChangesOnly T.meaning S.content S.is_of objects.old objects.new
            (object_at self.new self.old.len) }
        ensures refused { IfErr result
            (λ e. (push_refusal objects.old self.old ≡ Some e)
            ⊎ ((push_refusal objects.old self.old ≡ None)
            × (is_full self.old ≡ true) × (e ≡ Refusal.NoMemory))) }
        ensures err { OnErr result ((self.new ≡ self.old) × (objects.new ≡ objects.old)) }
    {
        if self.begins_group() {
            self.begin_group(objects, x)
        } else {
            self.fill_place(objects, x)
        }
    }

    // Begins a row group: appends an element in a new object. No place may be unused. Not inlined, so that a push that only fills a
    // place saves no registers for this call.
    #[inline(never)]
    fn begin_group<S: FarTickets>(
        &mut self,
        objects: &mut Objects<T, S>,
        x: T,
    ) -> Result<(), Refusal>
        requires full { is_full self.old ≡ true }
        requires is { IsVector (list_of T.meaning S.content objects.old) self.old }
        requires few { length objects.old.records < 2 ^ 28 }
        ensures pushed { OnOk result
            (VectorPushed T.meaning S.content objects.old objects.new self.old self.new x) }
        ensures changes { ChangesVector (list_of T.meaning S.content objects.old)
            (list_of T.meaning S.content objects.new) self.old self.new }
        ensures keeps { ChangesOnly T.meaning S.content S.is_of objects.old objects.new
            (object_at self.new self.old.len) }
        ensures refused { IfErr result
            (λ e. (push_refusal objects.old self.old ≡ Some e)
            ⊎ ((push_refusal objects.old self.old ≡ None) × (e ≡ Refusal.NoMemory))) }
        ensures err { OnErr result ((self.new ≡ self.old) × (objects.new ≡ objects.old)) }
    {
        // For the proof: shows what is true of all objects (`AreTracked`).
        let _ = objects.number();
        if !objects.fits(self.size) {
            return Err(Refusal::RegionFull);
        }
        self.objects.reserve(1)?;
        self.next[0] = x;
        let name = Name {
            column: self.column,
            group: self.objects.len() as u32,
        };
        let o = objects.create(name, &self.next)?;
        self.objects.push_reserved(o);
        self.len += 1;
        Ok(())
    }

    // Appends an element in the last row group, which must have an unused place.
    #[inline(always)]
    fn fill_place<S: FarTickets>(
        &mut self,
        objects: &mut Objects<T, S>,
        x: T,
    ) -> Result<(), Refusal>
        requires space { is_full self.old ≡ false }
        requires is { IsVector (list_of T.meaning S.content objects.old) self.old }
        ensures pushed { OnOk result
            (VectorPushed T.meaning S.content objects.old objects.new self.old self.new x) }
        ensures changes { ChangesVector (list_of T.meaning S.content objects.old)
            (list_of T.meaning S.content objects.new) self.old self.new }
        ensures keeps { ChangesOnly T.meaning S.content S.is_of objects.old objects.new
            (object_at self.new self.old.len) }
        ensures refused { refusal_in result ≡ push_refusal objects.old self.old }
        ensures err { OnErr result ((self.new ≡ self.old) × (objects.new ≡ objects.old)) }
    {
        let at = self.next_position(objects);
        objects.may_write(at.object)?;
        self.write(objects, at, x);
        self.len += 1;
        Ok(())
    }

    /// Undoes a push that made an object. Removes the last row group's only element, and its object. Allocates nothing.
    pub fn unpush<S: FarTickets>(&mut self, objects: &mut Objects<T, S>)
        requires is { IsVector (list_of T.meaning S.content objects.old) self.old }
        requires begun { IsNewGroup objects.old (length objects.old.records - 1) self.old }
        ensures unpushed { self.new ≡ after_unpush self.old }
        ensures uncreated { objects.new ≡ after_uncreate objects.old }
        ensures elements { elements (list_of T.meaning S.content objects.new) self.new
            ≡ take (self.old.len - 1)
            (elements (list_of T.meaning S.content objects.old) self.old) }
        ensures changes { ChangesVector (list_of T.meaning S.content objects.old)
            (list_of T.meaning S.content objects.new) self.old self.new }
        ensures keeps { ChangesOnly T.meaning S.content S.is_of objects.old objects.new
            (length objects.old.records - 1) }
    {
        self.objects.pop();
        self.len -= 1;
        objects.uncreate();
    }
}
