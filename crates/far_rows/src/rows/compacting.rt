// Compacts segments of the local memory of the rows' objects.
ghost use Rattle.std.specs.Prelude.{◌≡◌, ◌<◌, ◌≤◌, ◌↔◌, ◌⊎◌, length, OnOk, OnErr, IfErr, IsErrOf};
ghost use Rattle.far_log.specs.Effects.{HasNoEmptyOther};
ghost use Rattle.far_scopes.specs.Compaction.{IsCompacted};
ghost use Rattle.far_rows.specs.Moving.{KeepsCells};

use super::Rows;
use far_store::FarTickets;
use far_types::Refusal;
use std::alloc::Global;

impl<S: FarTickets> Rows<S> {
    /// Compacts a segment of the memory of numbers: moves its parts without gaps into the lowest other segment that has no
    /// parts, beginning with the parts of hot objects. Clears the hot bits of the moved objects.
    ///
    /// Refused with the first of these that applies:
    ///
    /// - `OutOfRange` (14): there is no such segment.
    /// - `RegionFull` (17): every other segment has a part.
    /// - `NoMemory` (1): an allocation fails.
    ///
    /// A refused call changes nothing.
    pub fn compact_numbers(&mut self, alloc: Global, segment: u32) -> Result<(), Refusal>
        ensures compacted { OnOk result
            (IsCompacted self.old.number_objects.memory self.new.number_objects.memory segment) }
        ensures stays { self.new
            ≡ record self.old {
              number_objects = record self.old.number_objects {
                memory = self.new.number_objects.memory;
              };
            } }
        ensures kept { KeepsCells S.content S.is_of self.old self.new }
        ensures missing { IsErrOf result Refusal.OutOfRange
            ↔ (length self.old.number_objects.memory.state ≤ segment) }
        ensures full { IsErrOf result Refusal.RegionFull
            ↔ ((segment < length self.old.number_objects.memory.state)
            × HasNoEmptyOther self.old.number_objects.memory.state segment) }
        ensures refused { IfErr result
            (λ e. (e ≡ Refusal.OutOfRange)
            ⊎ ((e ≡ Refusal.RegionFull) ⊎ (e ≡ Refusal.NoMemory))) }
        ensures err { OnErr result (self.new ≡ self.old) }
    {
        self.number_objects.compact(alloc, segment)
    }

    /// Compacts a segment of the memory of texts, as `compact_numbers` does for numbers. Refused in the same cases, with
    /// `OutOfRange` (14), `RegionFull` (17) or `NoMemory` (1).
    pub fn compact_texts(&mut self, alloc: Global, segment: u32) -> Result<(), Refusal>
        ensures compacted { OnOk result
            (IsCompacted self.old.text_objects.memory self.new.text_objects.memory segment) }
        ensures stays { self.new
            ≡ record self.old {
              text_objects = record self.old.text_objects { memory = self.new.text_objects.memory };
            } }
        ensures kept { KeepsCells S.content S.is_of self.old self.new }
        ensures missing { IsErrOf result Refusal.OutOfRange
            ↔ (length self.old.text_objects.memory.state ≤ segment) }
        ensures full { IsErrOf result Refusal.RegionFull
            ↔ ((segment < length self.old.text_objects.memory.state)
            × HasNoEmptyOther self.old.text_objects.memory.state segment) }
        ensures refused { IfErr result
            (λ e. (e ≡ Refusal.OutOfRange)
            ⊎ ((e ≡ Refusal.RegionFull) ⊎ (e ≡ Refusal.NoMemory))) }
        ensures err { OnErr result (self.new ≡ self.old) }
    {
        self.text_objects.compact(alloc, segment)
    }
}
