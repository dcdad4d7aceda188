// The order in which objects were used.
ghost use Rattle.std.specs.Prelude.{◌≡◌, [], ◌∷◌, length, IfOk, IfErr, OnOk, OnErr, false};
ghost use Rattle.far_scopes.specs.Recency.{has, without, after_use};

mod least_recent;
mod use_log;

use far_types::Refusal;
use least_recent::LeastRecent;
use lru::LruCache;
use std::alloc::Global;
use std::marker::Model;
use use_log::UseLog;

/// An order of use, stored in an LRU cache that never evicts. In contracts it is the list of object numbers, the most recent first.
///
/// To move an object in the cache reads and writes its neighbours, which are anywhere in memory. So most uses are only noted in a log. The
/// cache makes up for them when the log is full, or when an object is added or removed.
#[derive(Drop)]
pub(crate) struct Recency {
    cache: LruCache<u32, ()>,
    log: UseLog,
}

impl Model for Recency {
    ghost use Rattle.std.specs.Prelude.{List, ℕ, ◌≡◌, ◌-◌, ◌^◌};
    ghost use Rattle.std.specs.Map.{keys_of};
    ghost use Rattle.far_scopes.specs.Recency.{after_uses, AreKnown};

    ghost Value = { List ℕ };

    ghost view = { λ r. after_uses (keys_of r.cache.entries) r.log.uses.items };

    ghost invariant = { λ r. (r.cache.cap ≡ 2 ^ 64 - 1)
        × AreKnown r.log.last.items (keys_of r.cache.entries) };
}

impl Recency {
    /// Creates an empty order of use.
    pub fn new(alloc: Global) -> Result<Recency, Refusal>
        ensures empty { IfOk result (λ r. r ≡ []) }
        ensures memory { IfErr result (λ e. e ≡ Refusal.NoMemory) }
    {
        Ok(Recency {
            cache: LruCache::unbounded(alloc)?,
            log: UseLog::new(alloc),
        })
    }

    /// Returns how many objects are in the order. Allocates nothing.
    pub fn len(&self) -> usize
        ensures { result ≡ length self.now }
    {
        self.cache.len()
    }

    /// Adds an object, which is not in the order, as the most recently used.
    pub fn add(&mut self, o: u32) -> Result<(), Refusal>
        requires { has self.old o ≡ false }
        ensures ok { OnOk result (self.new ≡ o ∷ self.old) }
        ensures memory { IfErr result (λ e. e ≡ Refusal.NoMemory) }
        ensures err { OnErr result (self.new ≡ self.old) }
    {
        self.log.settle(&mut self.cache);
        let objects = self.cache.len() + 1;
        self.log.reserve(o, objects)?;
        self.cache.put(o, ())?;
        self.log.admit(o);
        Ok(())
    }

    /// Removes an object. Allocates nothing.
    pub fn remove(&mut self, o: u32)
        ensures { self.new ≡ without self.old o }
    {
        self.log.settle(&mut self.cache);
        self.cache.pop(&o);
        self.log.dismiss(o);
    }

    /// Moves an object that is in the order to the beginning. Allocates nothing. It is inlined, since usually the cache does not change.
    #[inline(always)]
    pub fn touch(&mut self, o: u32)
        ensures { self.new ≡ after_use self.old o }
    {
        if !self.log.note(o) {
            self.promote(o);
        }
    }

    // Moves an object to the beginning in the cache, after the objects of the log. It is not inlined, so that callers of `touch` save no
    // registers for it.
    #[inline(never)]
    fn promote(&mut self, o: u32)
        ensures { self.new ≡ after_use self.old o }
    {
        self.log.settle(&mut self.cache);
        self.cache.promote(&o);
    }

    /// Returns the objects, the least recently used first. Allocates nothing.
    pub fn least_recent(&self) -> LeastRecent<'_>
        ensures { result ≡ self.now }
    {
        LeastRecent::new(&self.cache, &self.log)
    }
}
