// A log of uses.
ghost use Rattle.std.specs.Prelude.{◌≡◌, ◌<◌, ◌≤◌, ◌+◌, ℕ, List, [], ◌∷◌, length, drop, not, false, slice_index, slice_set, vec_capacity, IsTrue, IfSome, IfNone, OnOk};
ghost use Rattle.std.specs.Map.{keys_of};
ghost use Rattle.far_scopes.specs.Recency.{has, after_use, after_uses, newest, AreNoted};

use lru::LruCache;
use std::alloc::{AllocError, Global};

// A log has place for this many uses of each object in the order, so that an object is moved in the cache once in four uses on average.
const USES_PER_OBJECT: usize = 4;

// A log has place for at least this many uses, so that a few objects that are used in turn are seldom moved.
const LEAST: usize = 64;

// A log does not grow with more objects, so that each index in it fits into 32 bits.
const MOST_OBJECTS: usize = 0x1000_0000;

/// The uses of objects that the cache does not know yet. A use is appended here, which is cheaper than to move the object in the cache. When
/// the log is settled, the cache makes up for them: it moves each of these objects once.
#[derive(Drop)]
pub(crate) struct UseLog {
    /// The objects that were used since the log was last settled, in order of use. An object may be there several times.
    pub uses: Vec<u32>,
    /// For each object number, 0 if the object is not in the order of use. For an object of `uses` it is 1 + the index of its last use, and
    /// for any other object of the order it is some number that is not 0.
    pub last: Vec<u32>,
    /// The number of uses with which the log is full. There is capacity for as many.
    pub most: u32,
    ghost room: { most ≤ vec_capacity uses },
    ghost noted: { AreNoted uses.items last.items },
}

impl UseLog {
    /// Creates a log that is full with no use.
    pub fn new(alloc: Global) -> UseLog
        ensures uses { result.uses.items ≡ [] }
        ensures last { result.last.items ≡ [] }
    {
        UseLog {
            uses: Vec::new(alloc),
            last: Vec::new(alloc),
            most: 0,
        }
    }

    /// Appends a use of an object, and returns whether it did. It does not if the log is full, or if the object is not in the order.
    #[inline(always)]
    pub fn note(&mut self, o: u32) -> bool
        ensures used { IsTrue result → (order : List ℕ)
            → after_uses order self.new.uses.items
            ≡ after_use (after_uses order self.old.uses.items) o }
        ensures known { (p : ℕ) → 0 < slice_index self.new.last.items p
            → 0 < slice_index self.old.last.items p }
        ensures same { result ≡ false → self.new.uses.items ≡ self.old.uses.items }
    {
        let len = self.uses.len();
        // Another use of the object that was used last does not change the order.
        if len > 0 && self.uses[len - 1] == o {
            return true;
        }
        let at = o as usize;
        if len >= self.most as usize || at >= self.last.len() || self.last[at] == 0 {
            return false;
        }
        self.uses.push_reserved(o);
        self.last[at] = len as u32 + 1;
        true
    }

    /// Empties the log: moves each of its objects in the cache to where its last use puts it.
    pub fn settle(&mut self, cache: &mut LruCache<u32, ()>)
        ensures order { keys_of cache.new.entries
            ≡ after_uses (keys_of cache.old.entries) self.old.uses.items }
        ensures cap { cache.new.cap ≡ cache.old.cap }
        ensures empty { self.new.uses.items ≡ [] }
        ensures last { self.new.last.items ≡ self.old.last.items }
    {
        self.follow(cache);
        self.uses.clear();
    }

    // Uses the objects of the log in the cache, each once.
    fn follow(&self, cache: &mut LruCache<u32, ()>)
        ensures order { keys_of cache.new.entries
            ≡ after_uses (keys_of cache.old.entries) self.now.uses.items }
        ensures cap { cache.new.cap ≡ cache.old.cap }
    {
        for at in 0..self.uses.len() {
            if self.is_last(at) {
                cache.promote(&self.uses[at]);
            }
        }
    }

    /// Makes place for an object, and for the uses of so many objects. The log is empty.
    pub fn reserve(&mut self, o: u32, objects: usize) -> Result<(), AllocError>
        requires { self.old.uses.items ≡ [] }
        ensures empty { self.new.uses.items ≡ [] }
        ensures last { (p : ℕ)
            → slice_index self.new.last.items p ≡ slice_index self.old.last.items p }
        ensures ok { OnOk result (o < length self.new.last.items) }
    {
        let needed = o as usize + 1;
        if self.last.len() < needed {
            self.last.resize(needed, 0)?;
        }
        let most = LEAST + USES_PER_OBJECT * objects.min(MOST_OBJECTS);
        self.uses.reserve(most)?;
        self.most = most as u32;
        Ok(())
    }

    /// Notes that an object is in the order from now on. The log is empty, and has place for the object.
    pub fn admit(&mut self, o: u32)
        requires empty { self.old.uses.items ≡ [] }
        requires within { o < length self.old.last.items }
        ensures empty { self.new.uses.items ≡ [] }
        ensures last { self.new.last.items ≡ slice_set self.old.last.items o 1 }
    {
        self.last[o as usize] = 1;
    }

    /// Notes that an object is no longer in the order. The log is empty.
    pub fn dismiss(&mut self, o: u32)
        requires { self.old.uses.items ≡ [] }
        ensures empty { self.new.uses.items ≡ [] }
        ensures last { self.new.last.items ≡ slice_set self.old.last.items o 0 }
    {
        let at = o as usize;
        if at < self.last.len() {
            self.last[at] = 0;
        }
    }

    /// Returns whether an object is in the log.
    pub fn has(&self, o: u32) -> bool
        ensures { result ≡ has self.now.uses.items o }
    {
        let at = o as usize;
        if at >= self.last.len() {
            return false;
        }
        let last = self.last[at] as usize;
        if last == 0 {
            return false;
        }
        if last > self.uses.len() {
            return false;
        }
        let used = self.uses[last - 1];
        used == o
    }

    // Returns whether the use at an index is the last one of its object.
    fn is_last(&self, at: usize) -> bool
        requires { at < length self.now.uses.items }
        ensures { result ≡ not (has (drop (at + 1) self.now.uses.items)
            (slice_index self.now.uses.items at)) }
    {
        let o = self.uses[at];
        self.last[o as usize] as usize == at + 1
    }

    /// Returns the first index, of those from `from` on, whose use is the last one of its object.
    pub fn next_last(&self, from: usize) -> Option<usize>
        ensures some { IfSome result (λ at. newest (drop from self.now.uses.items)
            ≡ slice_index self.now.uses.items at ∷ newest (drop (at + 1) self.now.uses.items)) }
        ensures within { IfSome result (λ at. at < length self.now.uses.items) }
        ensures none { IfNone result (newest (drop from self.now.uses.items) ≡ []) }
    {
        for at in from..self.uses.len() {
            if self.is_last(at) {
                return Some(at);
            }
        }
        None
    }
}
