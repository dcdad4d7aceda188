// The order of use from its end.
ghost use Rattle.std.specs.Prelude.{◌≡◌, [], ◌∷◌, ◌++◌, filter, IfSome, IfNone};
ghost use Rattle.std.specs.Map.{keys_of};
ghost use Rattle.far_scopes.specs.Recency.{after_uses, is_unused, AreKnown};

use super::use_log::UseLog;
use lru::{Iter, LruCache};
use std::marker::Model;

/// An iterator over an order of use, the least recently used object first. In contracts it is the order of the remaining objects.
#[derive(Drop)]
pub(crate) struct LeastRecent<'a> {
    // The rest of the cache, whose objects come first, from its end, if they are not in the log.
    cache: Iter<'a, u32, ()>,
    log: &'a UseLog,
    // The objects of the log come then, each at its last use. The uses from this index on are left.
    at: usize,
}

impl<'a> Model for LeastRecent<'a> {
    ghost use Rattle.std.specs.Prelude.{List, ℕ, ◌++◌, drop, filter, reverse};
    ghost use Rattle.std.specs.Map.{keys_of};
    ghost use Rattle.far_scopes.specs.Recency.{newest, is_unused};

    ghost Value = { List ℕ };

    ghost view = { λ l. reverse (newest (drop l.at l.log.now.uses.items))
        ++ filter (is_unused l.log.now.uses.items) (keys_of l.cache) };
}

impl<'a> LeastRecent<'a> {
    /// Makes the iterator over the order of a cache after the uses of a log.
    pub fn new(cache: &'a LruCache<u32, ()>, log: &'a UseLog) -> LeastRecent<'a>
        requires { AreKnown log.now.last.items (keys_of cache.now.entries) }
        ensures { result ≡ after_uses (keys_of cache.now.entries) log.now.uses.items }
    {
        // For the proof: shows that no object is in the cache twice.
        let _len = cache.len();
        LeastRecent {
            cache: cache.iter(),
            log,
            at: 0,
        }
    }

    /// Returns the next object, or `None` at the end. Allocates nothing.
    pub fn next(&mut self) -> Option<u32>
        ensures last { IfSome result (λ o. self.old ≡ self.new ++ o ∷ []) }
        ensures none { IfNone result ((self.old ≡ []) × (self.new ≡ [])) }
    {
        let log = self.log;
        if let Some(o) = next_unused(&mut self.cache, log) {
            return Some(o);
        }
        let at = log.next_last(self.at)?;
        self.at = at + 1;
        Some(log.uses[at])
    }
}

// Takes objects from the end of a cache's order, up to the first that is not in the log, and returns it.
fn next_unused(cache: &mut Iter<'_, u32, ()>, log: &UseLog) -> Option<u32>
    ensures last { IfSome result (λ o. filter (is_unused log.now.uses.items) (keys_of cache.old)
        ≡ filter (is_unused log.now.uses.items) (keys_of cache.new) ++ o ∷ []) }
    ensures none { IfNone result
        ((filter (is_unused log.now.uses.items) (keys_of cache.old) ≡ [])
        × (cache.new ≡ [])) }
{
    while let Some((o, _)) = cache.next_back() {
        if !log.has(*o) {
            return Some(*o);
        }
    }
    None
}
