// The local memory of objects.
ghost use Rattle.std.specs.Prelude.{◌≡◌, ℕ, ◌-◌, ◌<◌, ◌≤◌, ◌^◌, ◌↔◌, ◌⊎◌, List, [], length, replicate, All, true, false, Some, None, IsSome, IsTrue, IfSome, IfOk, IfErr, OnOk, OnErr, IsErrOf, slice_get, is_some};
ghost use Rattle.std.specs.Borrow.{sem};
ghost use Rattle.far_pointer.specs.Layout.{HasWord, with_dirty, with_hot};
ghost use Rattle.far_log.specs.RegionState.{fits_in, fit_in_order, spaces_of, space_of, capacity_of};
ghost use Rattle.far_scopes.specs.Memory.{at_of as word_at, place_of, list_in, ChangesList, IsMemory};
ghost use Rattle.far_scopes.specs.Cool.{cool_of, cool_in};
ghost use Rattle.far_pointer.specs.declared.pointer.Pointer.{Pointer};
ghost use Rattle.std.specs.Prelude.{not};
ghost use Rattle.far_scopes.specs.Placing.{with_object, after_remove_last, after_mark, after_heat, after_send_away, after_bring, replaced};

mod compaction;
mod lending;
mod renewing;
mod replacing;

use far_codec::Elem;
use far_log::Region;
use far_pointer::{At, Pointer, Word};
use far_types::Refusal;
use std::alloc::Global;
use std::marker::Model;

/// The pointer word of each object, and the region that holds the lists of local objects.
#[derive(Drop)]
pub(crate) struct LocalMemory<T> {
    words: Vec<Word>,
    region: Region<T>,
    /// How many objects are local and not hot.
    cool: usize,
}

impl<T> Model for LocalMemory<T> {
    ghost use Rattle.far_scopes.specs.Memory.{Memory};

    ghost Value = { Memory T };

    ghost use Rattle.far_scopes.specs.Cool.{IsCounted};

    ghost view = { λ m. record { words = m.words.items; state = m.region } };

    ghost invariant = { λ m. IsCounted m.words.items m.region m.cool };
}

impl<T: Elem> LocalMemory<T> {
    /// Creates a local memory without objects, and allocates all memory for elements.
    pub fn new(alloc: Global, segments: u32, size: u32) -> Result<LocalMemory<T>, Refusal>
        requires { segments ≤ 65536 }
        ensures empty { IfOk result (λ m. m
            ≡ record
            { words = []; state = replicate segments record { parts = []; size = size } }) }
        ensures memory { IfErr result (λ e. e ≡ Refusal.NoMemory) }
    {
        Ok(LocalMemory {
            words: Vec::new(alloc),
            region: Region::new(alloc, segments, size)?,
            cool: 0,
        })
    }

    /// Returns the pointer word of an object.
    pub fn word(&self, o: usize) -> Word
        requires { o < length self.now.words }
        ensures word { slice_get self.now.words o ≡ Some result }
        ensures valid { HasWord result }
    {
        let word = self.words[o];
        word.read();
        word
    }

    /// Does nothing at run time. Tells the prover that each local object owns one part of the region, and that no other part exists.
    #[inline(always)]
    pub fn each_owns_its_part(&self)
        ensures { IsMemory self.now.words self.now.state }
    {
        let _region = &self.region;
    }

    /// Does nothing at run time. Tells the prover that the list of a local object has fewer than 2^32 elements.
    #[inline(always)]
    pub fn lists_are_short(&self)
        ensures { (o : ℕ) → (list : List T) → list_in self.now o ≡ Some list
            → length list < 2 ^ 32 }
    {
        let _size = self.region.size();
    }

    /// Returns how many objects are local and not hot.
    pub fn cool(&self) -> usize
        ensures { result ≡ cool_in self.now.words }
    {
        self.cool
    }

    /// Borrows the list of a local object. The list has `len` elements.
    pub fn lend(&self, o: usize, len: usize) -> &[T]
        requires local { IsSome (place_of self.now.words o) }
        requires long { IfSome (list_in self.now o) (λ list. length list ≡ len) }
        ensures { list_in self.now o ≡ Some result.now }
    {
        self.region.part_long(at_of(self.words[o]), len)
    }

    /// Adds a local object with this list. The object is dirty and hot. A refused call changes nothing.
    pub fn add(&mut self, items: &[T]) -> Result<(), Refusal>
        requires some { 0 < length items.now }
        ensures ok { OnOk result (self.new ≡ with_object self.old items.now) }
        ensures list { OnOk result (ChangesList (list_in self.old) (list_in self.new)
            (length self.old.words) (Some items.now)) }
        ensures undone { OnOk result (after_remove_last self.new ≡ self.old) }
        ensures full { IsErrOf result Refusal.RegionFull
            ↔ (fits_in self.old.state (length items.now) ≡ false) }
        ensures refused { IfErr result
            (λ e. (e ≡ Refusal.RegionFull) ⊎ (e ≡ Refusal.NoMemory)) }
        ensures err { OnErr result (self.new ≡ self.old) }
    {
        if !self.region.fits(items.len()) {
            return Err(Refusal::RegionFull);
        }
        self.words.reserve(1)?;
        let at = self.region.place(items)?;
        self.words.push_reserved(local_word(at, true));
        Ok(())
    }

    /// Evicts object `o`, which is local: makes its word remote and drops its part.
    pub fn send_away(&mut self, o: usize)
        requires { IsSome (place_of self.old.words o) }
        ensures away { self.new ≡ after_send_away self.old o }
        ensures list { ChangesList (list_in self.old) (list_in self.new) o None }
    {
        let word = self.words[o];
        let at = at_of(word);
        self.words[o] = Word::remote();
        self.cool -= cool_of(word);
        self.region.drop_at(at);
    }

    /// Removes the last object, which is local.
    pub fn remove_last(&mut self)
        requires { IsSome (place_of self.old.words (length self.old.words - 1)) }
        ensures removed { self.new ≡ after_remove_last self.old }
        ensures list { ChangesList (list_in self.old) (list_in self.new) (length self.old.words - 1)
            None }
    {
        let Some(word) = self.words.pop() else {
            unreachable!()
        };
        self.cool -= cool_of(word);
        self.region.drop_at(at_of(word));
    }

    /// Makes object `o`, which is away, local with this list. The object is clean and hot. A refused call changes nothing.
    pub fn bring(&mut self, o: usize, items: &[T]) -> Result<(), Refusal>
        requires some { 0 < length items.now }
        requires away { slice_get self.old.words o ≡ Some Pointer.Remote }
        ensures ok { OnOk result (self.new ≡ after_bring self.old o items.now) }
        ensures list { OnOk result
            (ChangesList (list_in self.old) (list_in self.new) o (Some items.now)) }
        ensures full { IsErrOf result Refusal.RegionFull
            ↔ (fits_in self.old.state (length items.now) ≡ false) }
        ensures refused { IfErr result
            (λ e. (e ≡ Refusal.RegionFull) ⊎ (e ≡ Refusal.NoMemory)) }
        ensures err { OnErr result (self.new ≡ self.old) }
    {
        let at = self.region.place(items)?;
        self.words[o] = local_word(at, false);
        Ok(())
    }

    /// Replaces the list of object `o`, which is local: places the new list before it drops the old one. A refused call changes
    /// nothing.
    #[inline(always)]
    pub fn replace(&mut self, o: usize, items: &[T]) -> Result<(), Refusal>
        requires some { 0 < length items.now }
        requires local { IsSome (place_of self.old.words o) }
        ensures ok { OnOk result (self.new ≡ replaced self.old o items.now) }
        ensures list { OnOk result
            (ChangesList (list_in self.old) (list_in self.new) o (Some items.now)) }
        ensures full { IsErrOf result Refusal.RegionFull
            ↔ (fits_in self.old.state (length items.now) ≡ false) }
        ensures refused { IfErr result
            (λ e. (e ≡ Refusal.RegionFull) ⊎ (e ≡ Refusal.NoMemory)) }
        ensures err { OnErr result (self.new ≡ self.old) }
    {
        let word = self.words[o];
        let at = self.region.place(items)?;
        self.words[o] = word.with_at(at);
        self.region.drop_at(at_of(word));
        Ok(())
    }

    /// Returns whether a list of `len` elements can be placed.
    pub fn fits(&self, len: usize) -> bool
        ensures { result ≡ fits_in self.now.state len }
    {
        self.region.fits(len)
    }

    /// Returns the total space of the segments, in elements.
    pub fn space(&self) -> usize
        ensures { result ≡ space_of self.now.state }
    {
        self.region.space()
    }

    /// Returns the total capacity of the segments, in elements.
    pub fn capacity(&self) -> usize
        ensures { result ≡ capacity_of self.now.state }
    {
        self.region.capacity()
    }

    /// Returns whether lists of these lengths can be placed one after another.
    pub fn fits_in_order(&self, lens: &[usize]) -> bool
        requires few { length lens.now ≤ 16 }
        requires some { All (λ len. 0 < len) lens.now }
        ensures { result ≡ fit_in_order (spaces_of self.now.state) lens.now }
    {
        self.region.fits_in_order(lens)
    }

    /// Sets the hot bit of object `o`, if it is local.
    pub fn heat(&mut self, o: usize)
        requires { o < length self.old.words }
        ensures heated { self.new ≡ after_heat self.old o }
        ensures lists { (p : ℕ) → list_in self.new p ≡ list_in self.old p }
    {
        let word = self.words[o];
        self.words[o] = word.with_hot(true);
        self.cool -= cool_of(word);
    }

    /// Sets the dirty bit and the hot bit of object `o`, if it is local.
    pub fn mark(&mut self, o: usize)
        requires { o < length self.old.words }
        ensures marked { self.new ≡ after_mark self.old o }
        ensures lists { (p : ℕ) → list_in self.new p ≡ list_in self.old p }
    {
        let word = self.words[o];
        if is_marked(word) {
            return;
        }
        self.words[o] = word.with_dirty().with_hot(true);
        self.cool -= cool_of(word);
    }
}

// Returns the location in the word of a local object.
fn at_of(word: Word) -> At
    requires { IsSome (word_at word) }
    ensures { word_at word ≡ Some result }
{
    let Pointer::Local { at, .. } = word.read() else {
        unreachable!()
    };
    at
}

// Returns whether a word is already dirty and hot, so that `mark` has nothing to do. This is usual for repeated writes.
fn is_marked(word: Word) -> bool
    ensures { IsTrue result → with_hot (with_dirty word) true ≡ word }
{
    let dirty = word.dirty();
    let hot = word.hot();
    dirty && hot
}

// Returns 1 for the word of a local object that is not hot, else 0.
fn cool_of(word: Word) -> usize
    ensures { result ≡ cool_of word }
{
    match word.read() {
        Pointer::Local { hot, .. } if !hot => 1,
        _ => 0,
    }
}

// Returns the word of a local, hot object: dirty without a far copy, or clean with one.
fn local_word(at: At, dirty: bool) -> Word
    ensures { result ≡ Pointer.Local at dirty true (not dirty) }
{
    let Some(word) = Word::local(at, dirty, true, !dirty) else {
        unreachable!()
    };
    word
}
