// Borrows lists in place.
ghost use Rattle.std.specs.Prelude.{◌≡◌, ℕ, ◌-◌, ◌<◌, ◌≤◌, ◌++◌, List, length, take, drop, slice_range, true, Some, None, IfOk, IsSomeAnd};
ghost use Rattle.std.specs.Borrow.{sem};
ghost use Rattle.far_scopes.specs.Memory.{list_in, ChangesList};
ghost use Rattle.far_scopes.specs.Movement.{list_of, dirty, is_local, AreClean};
ghost use Rattle.std.specs.Prelude.{not};
ghost use Rattle.far_scopes.specs.Refusing.{refusal_in, absent, lend_refusal, write_refusal};
ghost use Rattle.far_scopes.specs.Effects.{after_write, after_overwrite};
ghost use Rattle.far_scopes.specs.Keeping.{KeepsWhileLent};
ghost use Rattle.far_scopes.specs.ObjectsLending.{lends_written};

use super::Objects;
use far_codec::Elem;
use far_pointer::Pointer;
use far_store::FarTickets;
use far_types::Refusal;

impl<T: Elem, S: FarTickets> Objects<T, S> {
    /// Borrows the list of an object in place. Allocates nothing.
    ///
    /// Refused with `Absent` (16) exactly if the object is away.
    pub fn lend(&self, o: u32) -> Result<&[T], Refusal>
        requires { o < length self.now.records }
        ensures lent { IfOk result (λ list. list_in self.now.memory o ≡ Some list.now) }
        ensures refused { refusal_in result ≡ lend_refusal self.now o }
    {
        self.here(o)?;
        Ok(
            self.memory
                .lend(o as usize, self.records[o as usize].len as usize),
        )
    }

    /// Checks that an object is local. If it is, only its pointer word is read. Allocates nothing.
    ///
    /// Refused with `Absent` (16) exactly if the object is away, as `lend` is.
    pub fn here(&self, o: u32) -> Result<(), Refusal>
        requires { o < length self.now.records }
        ensures { refusal_in result ≡ lend_refusal self.now o }
    {
        if self.is_away(o) {
            return Err(self.absent(o));
        }
        Ok(())
    }

    /// Checks that an object may be written. Allocates nothing.
    ///
    /// Refused with:
    /// - `Absent` (16) exactly if the object is away;
    /// - `EditsUsedUp` (24) exactly if it is local and was written as often as the limits allow.
    pub fn may_write(&self, o: u32) -> Result<(), Refusal>
        requires { o < length self.now.records }
        ensures { refusal_in result ≡ write_refusal self.now o }
    {
        self.here(o)?;
        if self.records[o as usize].version >= self.max_writes {
            return Err(Refusal::EditsUsedUp);
        }
        Ok(())
    }

    /// Mutably borrows the list of an object that may be written, in place. Allocates nothing.
    ///
    /// The object counts as written before it is borrowed: it becomes dirty, hot and the most recently used, and its version increases
    /// by one. The borrow changes only this object's list (`alone`).
    pub fn lend_mut(&mut self, o: u32) -> &mut [T]
        requires within { o < length self.old.records }
        requires free { write_refusal self.old o ≡ None }
        ensures* writes_back { sem 𝓛
            (lends_written T.row S.row S.Ticket.row T.Elem S.FarTickets self.entry o 0 result) }
        ensures lent { list_in self.old.memory o ≡ Some result.now }
        ensures alone { (list : List T) → length list ≡ length result.now
            → ChangesList (list_of T.meaning S.content self.old)
            (list_of T.meaning S.content (after_overwrite (after_write self.old o) o 0 list)) o
            (Some list) }
        ensures keeps { KeepsWhileLent T.meaning S.content S.is_of self.old o 0
            (length result.now) }
    {
        self.mark(o);
        let len = self.records[o as usize].len as usize;
        let memory = &mut self.memory;
        memory.lend_mut(o as usize, len)
    }

    /// Mutably borrows the elements `from..to` of an object that may be written, in place. Allocates nothing.
    ///
    /// The object counts as written, as with `lend_mut`.
    pub fn lend_range_mut(&mut self, o: u32, from: usize, to: usize) -> &mut [T]
        requires within { o < length self.old.records }
        requires free { write_refusal self.old o ≡ None }
        requires ordered { from ≤ to }
        requires there { IsSomeAnd (list_in self.old.memory o) (λ list. to ≤ length list) }
        ensures* writes_back { sem 𝓛
            (lends_written T.row S.row S.Ticket.row T.Elem S.FarTickets self.entry o from result) }
        ensures lent { IsSomeAnd (list_in self.old.memory o)
            (λ list. result.now ≡ slice_range list from to) }
        ensures alone { IsSomeAnd (list_in self.old.memory o) (λ list. (range : List T)
            → length range ≡ to - from
            → ChangesList (list_of T.meaning S.content self.old) (list_of T.meaning S.content
            (after_overwrite (after_write self.old o) o from range)) o
            (Some (take from list ++ (range ++ drop to list)))) }
        ensures keeps { KeepsWhileLent T.meaning S.content S.is_of self.old o from (to - from) }
    {
        self.mark(o);
        let memory = &mut self.memory;
        memory.lend_range_mut(o as usize, from, to)
    }

    // Marks the object as written.
    pub(super) fn mark(&mut self, o: u32)
        requires within { o < length self.old.records }
        requires free { write_refusal self.old o ≡ None }
        ensures written { self.new ≡ after_write self.old o }
        ensures dirty { dirty self.new o ≡ true }
        ensures local { is_local self.new o ≡ true }
        ensures parts { (p : ℕ) → list_in self.new.memory p ≡ list_in self.old.memory p }
        ensures lists { (p : ℕ)
            → list_of T.meaning S.content self.new p ≡ list_of T.meaning S.content self.old p }
        ensures clean { AreClean T.meaning S.content self.old
            → AreClean T.meaning S.content self.new }
    {
        // The word is written last, so that the next borrow of the object finds it in cache.
        self.order.touch(o);
        self.records[o as usize].version += 1;
        self.memory.mark(o as usize);
    }

    /// Returns whether an object is local: its list is in local memory and can be borrowed. Allocates nothing.
    pub fn is_local(&self, o: u32) -> bool
        requires { o < length self.now.records }
        ensures { result ≡ is_local self.now o }
    {
        match self.memory.word(o as usize).read() {
            Pointer::Local { .. } => true,
            Pointer::Remote => false,
        }
    }

    // Returns whether an object is away.
    pub(super) fn is_away(&self, o: u32) -> bool
        requires { o < length self.now.records }
        ensures { result ≡ not (is_local self.now o) }
    {
        !self.is_local(o)
    }

    // Returns the refusal `Absent` with this object's name.
    pub(super) fn absent(&self, o: u32) -> Refusal
        requires { o < length self.now.records }
        ensures { result ≡ (absent self.now o).1 }
    {
        let name = self.records[o as usize].name;
        Refusal::Absent {
            column: name.column,
            group: name.group,
        }
    }
}
