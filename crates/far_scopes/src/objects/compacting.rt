// Compaction of a segment of the objects' local memory.
ghost use Rattle.std.specs.Prelude.{◌≡◌, ◌<◌, ◌≤◌, ◌↔◌, ◌⊎◌, length, OnOk, OnErr, IfErr, IsErrOf};
ghost use Rattle.far_log.specs.Effects.{HasNoEmptyOther};
ghost use Rattle.far_scopes.specs.Compaction.{IsCompacted};
ghost use Rattle.far_scopes.specs.Keeping.{KeepsLists};

use super::Objects;
use far_codec::Elem;
use far_store::FarTickets;
use far_types::Refusal;
use std::alloc::Global;

impl<T: Elem, S: FarTickets> Objects<T, S> {
    /// Compacts a segment: moves its parts, without gaps, into the lowest other segment that has no parts. Places the parts of hot
    /// objects first, then the other parts, each group in the order of the old offsets.
    ///
    /// Clears the hot bits of the moved objects. Lists, the order of use, and which objects are local, dirty or away do not change.
    ///
    /// A refused call changes nothing. Refused with:
    /// - `OutOfRange` (14) exactly if there is no such segment;
    /// - `RegionFull` (17) exactly if the segment exists and every other segment has a part;
    /// - else only `NoMemory` (1).
    pub fn compact(&mut self, alloc: Global, segment: u32) -> Result<(), Refusal>
        ensures compacted { OnOk result (IsCompacted self.old.memory self.new.memory segment) }
        ensures rest { self.new ≡ record self.old { memory = self.new.memory } }
        ensures keeps { KeepsLists T.meaning S.content S.is_of self.old self.new }
        ensures missing { IsErrOf result Refusal.OutOfRange
            ↔ (length self.old.memory.state ≤ segment) }
        ensures full { IsErrOf result Refusal.RegionFull
            ↔ ((segment < length self.old.memory.state)
            × HasNoEmptyOther self.old.memory.state segment) }
        ensures refused { IfErr result
            (λ e. (e ≡ Refusal.OutOfRange)
            ⊎ ((e ≡ Refusal.RegionFull) ⊎ (e ≡ Refusal.NoMemory))) }
        ensures err { OnErr result (self.new ≡ self.old) }
    {
        self.memory.compact(alloc, segment)?;
        Ok(())
    }
}
