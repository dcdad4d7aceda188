// Reading elements in place.
ghost use Rattle.std.specs.Prelude.{◌≡◌, ℕ, ◌+◌, ◌*◌, ◌/◌, ◌<◌, ◌≤◌, [], ◌∷◌, length, take, drop, Some, IfOk, All, slice_get, slice_range};
ghost use Rattle.std.specs.List.{flat_map};
ghost use Rattle.far_types.specs.FirstOf.{first_of};
ghost use Rattle.far_scopes.specs.Movement.{list_of};
ghost use Rattle.far_scopes.specs.Refusing.{refusal_in, first_absent};
ghost use Rattle.far_columns.specs.Vector.{IsShaped, IsVector, elements};
ghost use Rattle.far_columns.specs.Pieces.{pieces_of, first_overlapped, overlapped_count};
ghost use Rattle.far_columns.specs.Refusing.{no_range, crosses, get_refusal, part_refusal, pieces_refusal};

use super::FarVector;
use crate::pieces::Pieces;
use far_codec::Elem;
use far_scopes::Objects;
use far_store::FarTickets;
use far_types::Refusal;

impl<T: Elem> FarVector<T> {
    /// Returns the element at a place. Allocates nothing.
    ///
    /// Refused with the first of these that applies:
    ///
    /// - `OutOfRange` (14): the list has no such place.
    /// - `Absent` (16): the object of its row group is away.
    pub fn get<S: FarTickets>(&self, objects: &Objects<T, S>, i: usize) -> Result<T, Refusal>
        requires { IsVector (list_of T.meaning S.content objects.now) self.now }
        ensures element { IfOk result
            (λ x. slice_get (elements (list_of T.meaning S.content objects.now) self.now) i
            ≡ Some x) }
        ensures refused { refusal_in result ≡ get_refusal objects.now self.now i }
    {
        if i >= self.len {
            return Err(Refusal::OutOfRange);
        }
        let at = self.position(objects, i);
        let list = objects.lend(at.object)?;
        Ok(list[at.index])
    }

    /// Borrows the element at a place, without reading it. Allocates nothing.
    ///
    /// Refused as `get` is.
    pub fn get_ref<'a, S: FarTickets>(
        &self,
        objects: &'a Objects<T, S>,
        i: usize,
    ) -> Result<&'a T, Refusal>
        requires { IsVector (list_of T.meaning S.content objects.now) self.now }
        ensures element { IfOk result
            (λ x. slice_get (elements (list_of T.meaning S.content objects.now) self.now) i
            ≡ Some x.now) }
        ensures refused { refusal_in result ≡ get_refusal objects.now self.now i }
    {
        if i >= self.len {
            return Err(Refusal::OutOfRange);
        }
        let at = self.position(objects, i);
        let list = objects.lend(at.object)?;
        Ok(&list[at.index])
    }

    /// Borrows the elements `from` up to `to`, all of one row group, from its object. Allocates nothing.
    ///
    /// Refused with the first of these that applies:
    ///
    /// - `OutOfRange` (14): `from` is above `to`, `to` is past the end, or the part is not empty and crosses row groups.
    /// - `Absent` (16): the part is not empty, and the object of its row group is away.
    pub fn part<'a, S: FarTickets>(
        &self,
        objects: &'a Objects<T, S>,
        from: usize,
        to: usize,
    ) -> Result<&'a [T], Refusal>
        requires { IsVector (list_of T.meaning S.content objects.now) self.now }
        ensures part { IfOk result
            (λ part. part.now
            ≡ slice_range (elements (list_of T.meaning S.content objects.now) self.now) from to) }
        ensures refused { refusal_in result ≡ part_refusal objects.now self.now from to }
    {
        self.check_part(from, to)?;
        if from == to {
            return Ok(&[]);
        }
        let at = self.position(objects, from);
        let list = objects.lend(at.object)?;
        Ok(&list[at.index..at.index + (to - from)])
    }

    /// Returns an iterator over the elements `from` up to `to`. It returns one slice for each row group that has some of
    /// them, borrowed from the row group's object. Allocates nothing.
    ///
    /// Refused with the first of these that applies:
    ///
    /// - `OutOfRange` (14): `from` is above `to`, or `to` is past the end.
    /// - `Absent` (16): the object of a row group with some of them is away. The refusal names the first such object.
    pub fn pieces<'a, S: FarTickets>(
        &'a self,
        objects: &'a Objects<T, S>,
        from: usize,
        to: usize,
    ) -> Result<Pieces<'a, T, S>, Refusal>
        requires { IsVector (list_of T.meaning S.content objects.now) self.now }
        ensures pieces { IfOk result
            (λ pieces. pieces
            ≡ pieces_of (elements (list_of T.meaning S.content objects.now) self.now)
            self.now.size from to) }
        ensures joined { IfOk result
            (λ pieces. flat_map (λ piece. piece) pieces
            ≡ slice_range (elements (list_of T.meaning S.content objects.now) self.now) from to) }
        ensures some { IfOk result (λ pieces. All (λ piece. 0 < length piece) pieces) }
        ensures refused { refusal_in result ≡ pieces_refusal objects.now self.now from to }
    {
        if from > to || to > self.len {
            return Err(Refusal::OutOfRange);
        }
        if from < to {
            self.all_here(objects, from / self.size, (to - 1) / self.size + 1)?;
        }
        Ok(Pieces::new(self, objects, from, to))
    }

    // Checks that the objects of row groups `first` up to `end` are local; the refusal names the first that is away.
    fn all_here<S: FarTickets>(
        &self,
        objects: &Objects<T, S>,
        first: usize,
        end: usize,
    ) -> Result<(), Refusal>
        requires is { IsVector (list_of T.meaning S.content objects.now) self.now }
        requires ordered { first ≤ end }
        requires within { end ≤ length self.now.objects }
        ensures { refusal_in result
            ≡ first_absent objects.now (slice_range self.now.objects first end) }
    {
        // For the proof: the contract of `number` shows that an object with a list is in use.
        let _ = objects.number();
        for o in &self.objects[first..end] {
            objects.here(*o)?;
        }
        Ok(())
    }

    // Checks that the elements `from` up to `to` exist and are in one row group.
    pub(super) fn check_part(&self, from: usize, to: usize) -> Result<(), Refusal>
        ensures refused { refusal_in result
            ≡ first_of (no_range self.now from to ∷ crosses self.now from to ∷ []) }
        ensures shaped { IsShaped self.now }
    {
        if from > to || to > self.len {
            return Err(Refusal::OutOfRange);
        }
        if from == to {
            return Ok(());
        }
        let first = self.group_of(from);
        let last = self.group_of(to - 1);
        if first != last {
            return Err(Refusal::OutOfRange);
        }
        Ok(())
    }

    // Returns how many row groups have some of the elements `from` up to `to`. The range must not be empty.
    pub(crate) fn groups_between(&self, from: usize, to: usize) -> usize
        requires some { from < to }
        requires there { to ≤ self.now.len }
        ensures { result ≡ overlapped_count self.now.size from to }
    {
        (to - 1) / self.size + 1 - from / self.size
    }

    // Returns where the row group of a place ends.
    pub(crate) fn group_end(&self, i: usize) -> usize
        requires { i < self.now.len }
        ensures end { result ≡ (i / self.now.size + 1) * self.now.size }
        ensures shaped { IsShaped self.now }
    {
        (i / self.size + 1) * self.size
    }
}
