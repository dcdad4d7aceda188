// Replaces the lists of objects.
ghost use Rattle.std.specs.Prelude.{◌≡◌, ℕ, ◌<◌, ◌^◌, ◌⊎◌, [], ◌∷◌, length, map, All, Some, None, OnOk, OnErr, IfErr};
ghost use Rattle.far_types.specs.FirstOf.{first_of};
ghost use Rattle.far_scopes.specs.Movement.{list_of, AreClean};
ghost use Rattle.far_scopes.specs.Replacing.{AreListedOnce, AreCleanElsewhere};
ghost use Rattle.far_scopes.specs.Refusing.{refusal_in, replace_refusal, write_refusal, first_absent, any_written_out, replace_all_refusal, IsReplaceAllRefused};
ghost use Rattle.far_scopes.specs.Effects.{with_lens, after_write_all};
ghost use Rattle.far_scopes.specs.Keeping.{KeepsCopies};
ghost use Rattle.far_scopes.specs.Outcomes.{IsReplaced, AreReplaced};

use super::Objects;
use crate::object_record::ObjectRecord;
use crate::replacement::Replacement;
use far_codec::Elem;
use far_store::FarTickets;
use far_types::Refusal;

impl<T: Elem, S: FarTickets> Objects<T, S> {
    /// Replaces the list of an object: places the new part before it drops the old one. The object counts as written: it becomes dirty,
    /// hot and the most recently used, and its version increases by one. It keeps its ticket.
    ///
    /// A refused call changes nothing. Refused with:
    /// - `Absent` (16) exactly if the object is away;
    /// - else `RegionFull` (17) exactly if no segment has the space;
    /// - else `EditsUsedUp` (24) exactly if it was written as often as the limits allow;
    /// - else only `NoMemory` (1).
    pub fn replace(&mut self, o: u32, items: &[T]) -> Result<(), Refusal>
        requires some { 0 < length items.now }
        requires within { o < length self.old.records }
        ensures replaced { OnOk result
            (IsReplaced T.meaning S.content self.old self.new o items.now) }
        ensures copies { KeepsCopies T.meaning S.content S.is_of self.old self.new }
        ensures free { OnOk result (replace_refusal self.old o (length items.now) ≡ None) }
        ensures refused { IfErr result (λ e. (replace_refusal self.old o (length items.now)
            ≡ Some e)
            ⊎ ((replace_refusal self.old o (length items.now) ≡ None)
            × (e ≡ Refusal.NoMemory))) }
        ensures err { OnErr result (self.new ≡ self.old) }
    {
        self.may_write_if_placed(o, items.len())?;
        self.memory.replace(o as usize, items)?;
        // For the proof: shows that the length fits into 32 bits.
        self.memory.lists_are_short();
        self.records[o as usize].len = items.len() as u32;
        self.mark(o);
        Ok(())
    }

    // Like `may_replace`, but does not look for space if the object may be written, since `place` does so later.
    fn may_write_if_placed(&self, o: u32, len: usize) -> Result<(), Refusal>
        requires { o < length self.now.records }
        ensures free { OnOk result (write_refusal self.now o ≡ None) }
        ensures refused { IfErr result (λ e. replace_refusal self.now o len ≡ Some e) }
    {
        self.here(o)?;
        if self.records[o as usize].version < self.max_writes {
            return Ok(());
        }
        if self.memory.fits(len) {
            Err(Refusal::EditsUsedUp)
        } else {
            Err(Refusal::RegionFull)
        }
    }

    /// Checks that the list of an object may be replaced by one of `len` elements. Allocates nothing.
    ///
    /// Refused as `replace` is, but never with `NoMemory`:
    /// - `Absent` (16) exactly if the object is away;
    /// - else `RegionFull` (17) exactly if no segment has the space;
    /// - else `EditsUsedUp` (24) exactly if it was written as often as the limits allow.
    pub fn may_replace(&self, o: u32, len: usize) -> Result<(), Refusal>
        requires { o < length self.now.records }
        ensures { refusal_in result ≡ replace_refusal self.now o len }
    {
        self.here(o)?;
        if !self.memory.fits(len) {
            return Err(Refusal::RegionFull);
        }
        if self.records[o as usize].version >= self.max_writes {
            return Err(Refusal::EditsUsedUp);
        }
        Ok(())
    }

    /// Replaces the lists of several objects, all or none: places all new parts, in the given order, before it drops an old one.
    ///
    /// The objects count as written in that order: each becomes dirty and hot, and its version increases by one. The last listed object
    /// is then the most recently used. The objects keep their tickets.
    ///
    /// A refused call changes nothing. Refused with:
    /// - `Absent` (16), which names the first such object, exactly if a listed object is away;
    /// - else `RegionFull` (17) if the new parts, placed one after another, do not fit while all old parts are still in the region;
    /// - else `EditsUsedUp` (24) if some listed object was written as often as the limits allow;
    /// - `NoMemory` (1) if an allocation failed. This may happen before the call finds that 17 or 24 applies, but only if the first new
    ///   part has space.
    pub fn replace_all(&mut self, lists: &[Replacement<T>]) -> Result<(), Refusal>
        requires some { All (λ r. 0 < length r.list.items) lists.now }
        requires within { All (λ r. r.object < length self.old.records) lists.now }
        requires once { AreListedOnce lists.now }
        ensures replaced { OnOk result
            (AreReplaced T.meaning S.content self.old self.new lists.now) }
        ensures copies { KeepsCopies T.meaning S.content S.is_of self.old self.new }
        ensures free { OnOk result (replace_all_refusal self.old lists.now ≡ None) }
        ensures refused { IfErr result (IsReplaceAllRefused self.old lists.now) }
        ensures err { OnErr result (self.new ≡ self.old) }
    {
        self.all_here(lists)?;
        let checked = self.all_writable(lists);
        self.memory.replace_all(lists, checked)?;
        // For the proof: shows that the lengths fit into 32 bits.
        self.memory.lists_are_short();
        set_lens(&mut self.records, lists);
        self.mark_all(lists);
        Ok(())
    }

    // Checks that listed objects are local. The refusal names the first that is away.
    fn all_here(&self, lists: &[Replacement<T>]) -> Result<(), Refusal>
        requires { All (λ r. r.object < length self.now.records) lists.now }
        ensures { refusal_in result ≡ first_absent self.now (map (λ r. r.object) lists.now) }
    {
        for replacement in lists {
            let o = replacement.object;
            if self.is_away(o) {
                return Err(self.absent(o));
            }
        }
        Ok(())
    }

    // Checks that each listed object may be written once more.
    fn all_writable(&self, lists: &[Replacement<T>]) -> Result<(), Refusal>
        requires { All (λ r. r.object < length self.now.records) lists.now }
        ensures { refusal_in result ≡ first_of (any_written_out self.now lists.now ∷ []) }
    {
        for replacement in lists {
            if self.records[replacement.object as usize].version >= self.max_writes {
                return Err(Refusal::EditsUsedUp);
            }
        }
        Ok(())
    }

    // Marks the listed objects as written, one after another.
    fn mark_all(&mut self, lists: &[Replacement<T>])
        requires within { All (λ r. r.object < length self.old.records) lists.now }
        requires free { All (λ r. write_refusal self.old r.object ≡ None) lists.now }
        requires once { AreListedOnce lists.now }
        ensures written { self.new ≡ after_write_all self.old lists.now }
        ensures count { length self.new.records ≡ length self.old.records }
        ensures lists { (p : ℕ)
            → list_of T.meaning S.content self.new p ≡ list_of T.meaning S.content self.old p }
        ensures clean { AreCleanElsewhere T.meaning S.content self.old lists.now
            → AreClean T.meaning S.content self.new }
    {
        for replacement in lists {
            self.mark(replacement.object);
        }
    }
}

// Records the lengths of the new lists.
fn set_lens<T, K>(records: &mut [ObjectRecord<K>], lists: &[Replacement<T>])
    requires within { All (λ r. r.object < length records.old) lists.now }
    requires short { All (λ r. length r.list.items < 2 ^ 32) lists.now }
    ensures { records.new ≡ with_lens records.old lists.now }
{
    for replacement in lists {
        records[replacement.object as usize].len = replacement.list.len() as u32;
    }
}
