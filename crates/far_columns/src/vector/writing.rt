// Writing elements in place.
ghost use Rattle.std.specs.Prelude.{◌≡◌, ℕ, ◌-◌, ◌*◌, ◌/◌, ◌%◌, ◌<◌, List, [], ◌∷◌, length, None, IsSomeAnd, OnOk, OnErr, slice_set, slice_range};
ghost use Rattle.std.specs.Borrow.{sem};
ghost use Rattle.far_scopes.specs.Memory.{list_in};
ghost use Rattle.far_scopes.specs.Movement.{list_of, AreHere, ChangesObject};
ghost use Rattle.far_scopes.specs.Refusing.{refusal_in, write_refusal};
ghost use Rattle.far_scopes.specs.ObjectsLending.{lends_written};
ghost use Rattle.far_columns.specs.Vector.{IsVector, WritesPlaces, elements, object_at};
ghost use Rattle.far_columns.specs.Vectors.{ChangesVector};
ghost use Rattle.far_columns.specs.Effects.{after_write_range};
ghost use Rattle.far_columns.specs.Changes.{PartWritten, ChangesOnly};
ghost use Rattle.far_columns.specs.Refusing.{set_refusal, write_part_refusal};

use super::{FarVector, Position};
use far_codec::Elem;
use far_scopes::Objects;
use far_store::FarTickets;
use far_types::Refusal;

impl<T: Elem> FarVector<T> {
    /// Writes the element at a place. Its row group's object counts as written. Allocates nothing.
    ///
    /// Refused with the first of these that applies:
    ///
    /// - `OutOfRange` (14): the list has no such place.
    /// - `Absent` (16): the object of its row group is away.
    /// - `EditsUsedUp` (24): that object was written as often as the limits allow.
    ///
    /// A refused call changes nothing.
    pub fn set<S: FarTickets>(
        &self,
        objects: &mut Objects<T, S>,
        i: usize,
        x: T,
    ) -> Result<(), Refusal>
        requires { IsVector (list_of T.meaning S.content objects.old) self.now }
        ensures written { OnOk result
            (objects.new ≡ after_write_range objects.old self.now i (x ∷ [])) }
        ensures elements { OnOk result (elements (list_of T.meaning S.content objects.new) self.now
            ≡ slice_set (elements (list_of T.meaning S.content objects.old) self.now) i x) }
        ensures changes { ChangesVector (list_of T.meaning S.content objects.old)
            (list_of T.meaning S.content objects.new) self.now self.now }
        ensures keeps { ChangesOnly T.meaning S.content S.is_of objects.old objects.new
            (object_at self.now i) }
        ensures refused { refusal_in result ≡ set_refusal objects.old self.now i }
        ensures err { OnErr result (objects.new ≡ objects.old) }
    {
        if i >= self.len {
            return Err(Refusal::OutOfRange);
        }
        let at = self.position(objects, i);
        objects.may_write(at.object)?;
        self.write(objects, at, x);
        Ok(())
    }

    /// Writes the element at a place, as `set` does. The element must be one that may be written (`may_set`). The caller passes
    /// the row group, which saves every check and the division. Allocates nothing.
    pub fn set_in_group<S: FarTickets>(
        &self,
        objects: &mut Objects<T, S>,
        group: u32,
        i: usize,
        x: T,
    )
        requires is { IsVector (list_of T.meaning S.content objects.old) self.now }
        requires group { group ≡ i / self.now.size }
        requires free { set_refusal objects.old self.now i ≡ None }
        ensures written { objects.new ≡ after_write_range objects.old self.now i (x ∷ []) }
        ensures elements { elements (list_of T.meaning S.content objects.new) self.now
            ≡ slice_set (elements (list_of T.meaning S.content objects.old) self.now) i x }
        ensures changes { ChangesVector (list_of T.meaning S.content objects.old)
            (list_of T.meaning S.content objects.new) self.now self.now }
        ensures keeps { ChangesOnly T.meaning S.content S.is_of objects.old objects.new
            (object_at self.now i) }
    {
        // For the proof: shows that the row group of each element has been begun.
        let _len = self.len();
        let at = self.position_in(objects, group as usize, i);
        self.write(objects, at, x);
    }

    /// Checks that the element at a place may be written. Allocates nothing, and is refused exactly as `set` is.
    pub fn may_set<S: FarTickets>(&self, objects: &Objects<T, S>, i: usize) -> Result<(), Refusal>
        requires { IsVector (list_of T.meaning S.content objects.now) self.now }
        ensures { refusal_in result ≡ set_refusal objects.now self.now i }
    {
        if self.len <= i {
            return Err(Refusal::OutOfRange);
        }
        objects.may_write(self.position(objects, i).object)
    }

    /// Checks that the elements `from` up to `to`, all of one row group, may be written. Allocates nothing.
    ///
    /// Refused with the first of these that applies:
    ///
    /// - `OutOfRange` (14): `from` is above `to`, `to` is past the end, or the part is not empty and crosses row groups.
    /// - `Absent` (16): the part is not empty, and the object of its row group is away.
    /// - `EditsUsedUp` (24): the part is not empty, and that object was written as often as the limits allow.
    pub fn may_write_part<S: FarTickets>(
        &self,
        objects: &Objects<T, S>,
        from: usize,
        to: usize,
    ) -> Result<(), Refusal>
        requires { IsVector (list_of T.meaning S.content objects.now) self.now }
        ensures { refusal_in result ≡ write_part_refusal objects.now self.now from to }
    {
        self.check_part(from, to)?;
        if from == to {
            return Ok(());
        }
        objects.may_write(self.position(objects, from).object)
    }

    /// Mutably borrows the elements `from` up to `to`, a part that is not empty and may be written (`may_write_part`).
    /// Allocates nothing.
    ///
    /// The object of their row group counts as written. The borrow can change only these elements.
    pub fn part_mut<'a, S: FarTickets>(
        objects: &'a mut Objects<T, S>,
        vector: &FarVector<T>,
        from: usize,
        to: usize,
    ) -> &'a mut [T]
        requires is { IsVector (list_of T.meaning S.content objects.old) vector.now }
        requires some { from < to }
        requires free { write_part_refusal objects.old vector.now from to ≡ None }
        ensures* writes_back { sem 𝓛
            (lends_written T.row S.row S.Ticket.row T.Elem S.FarTickets objects.entry
            (object_at vector.now from) (from % vector.now.size) result) }
        ensures lent { result.now
            ≡ slice_range (elements (list_of T.meaning S.content objects.old) vector.now)
            from to }
        ensures written { (range : List T) → length range ≡ to - from
            → PartWritten T.meaning S.content objects.old
            (after_write_range objects.old vector.now from range) vector.now from to range }
        ensures others { (range : List T)
            → ChangesObject objects.old (after_write_range objects.old vector.now from range)
            (object_at vector.now from) }
        ensures store { (range : List T) (id : List ℕ) → AreHere S.is_of id objects.old
            → AreHere S.is_of id (after_write_range objects.old vector.now from range) }
    {
        let begin = from % vector.size;
        let o = vector.writable_at(objects, from);
        let end = begin + (to - from);
        objects.lend_range_mut(o, begin, end)
    }

    // Writes the element at a place, used or not. Its row group must be one that may be written.
    #[inline(always)]
    pub(super) fn write<S: FarTickets>(&self, objects: &mut Objects<T, S>, at: Position, x: T)
        requires is { IsVector (list_of T.meaning S.content objects.old) self.now }
        requires within { at.place < length self.now.objects * self.now.size }
        requires object { at.object ≡ object_at self.now at.place }
        requires index { at.index ≡ at.place % self.now.size }
        requires made { at.object < length objects.old.records }
        requires list { IsSomeAnd (list_of T.meaning S.content objects.old at.object)
            (λ list. length list ≡ self.now.size) }
        requires free { write_refusal objects.old at.object ≡ None }
        ensures written { objects.new
            ≡ after_write_range objects.old self.now at.place (x ∷ []) }
        ensures places { WritesPlaces (list_of T.meaning S.content objects.old)
            (list_of T.meaning S.content objects.new) self.now at.place (x ∷ []) }
        ensures keeps { ChangesOnly T.meaning S.content S.is_of objects.old objects.new
            (object_at self.now at.place) }
    {
        // For the proof: shows how many elements a row group has, and that the object's list is in local memory.
        let _len = self.len();
        let _ = objects.lend(at.object);
        let range = objects.lend_range_mut(at.object, at.index, at.index + 1);
        range[0] = x;
    }

    // Returns the object with a place, whose row group may be written.
    fn writable_at<S: FarTickets>(&self, objects: &Objects<T, S>, i: usize) -> u32
        requires is { IsVector (list_of T.meaning S.content objects.now) self.now }
        requires within { i < length self.now.objects * self.now.size }
        requires free { write_refusal objects.now (object_at self.now i) ≡ None }
        ensures object { result ≡ object_at self.now i }
        ensures made { result < length objects.now.records }
        ensures list { IsSomeAnd (list_in objects.now.memory result)
            (λ list. length list ≡ self.now.size) }
    {
        let at = self.position(objects, i);
        // For the proof: the contract of `lend` shows that the object's list is in local memory.
        let _ = objects.lend(at.object);
        at.object
    }
}
