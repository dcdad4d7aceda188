// Compaction: moves a segment's parts into another segment.
ghost use Rattle.std.specs.Prelude.{◌≡◌, ◌≢◌, ◌<◌, ◌≤◌, [], length, map, OnOk, OnErr, IfOk, IfErr};
ghost use Rattle.far_log.specs.RegionState.{segment_of, IsLayout};
ghost use Rattle.far_log.specs.Effects.{gathered, compacted, with_segment, IsOrder};

use super::segments::Segments;
use far_pointer::At;
use far_types::Refusal;
use std::alloc::Global;

/// Where the parts of a compacted segment are now.
#[derive(Debug, Drop)]
pub struct Moved {
    /// The segment to which they were moved.
    pub segment: u16,
    /// Where each part begins in it, in the order in which the call listed them.
    pub offsets: Vec<u32>,
}

impl<T: Copy + Drop> Segments<T> {
    // Copies the parts of segment `from` into segment `to`, which is empty, in the given order. Returns where each begins. Copies each
    // element once. Refused only with `NoMemory` (1). Then segment `to` may have some of the parts.
    fn gather(
        &mut self,
        alloc: Global,
        from: u16,
        to: usize,
        order: &[u32],
    ) -> Result<Vec<u32>, Refusal>
        requires from { from < length self.old }
        requires to { to < length self.old }
        requires other { to ≢ from }
        requires empty { (segment_of self.old to).parts ≡ [] }
        requires size { (segment_of self.old from).size ≤ (segment_of self.old to).size }
        requires layout { IsLayout (segment_of self.old from) }
        requires order { IsOrder (segment_of self.old from).parts order.now }
        ensures gathered { OnOk result (self.new
            ≡ with_segment self.old to (record (segment_of self.old to)
            { parts = gathered (segment_of self.old from).parts order.now })) }
        ensures offsets { IfOk result (λ offsets. offsets.items
            ≡ map (λ p. p.offset) (gathered (segment_of self.old from).parts order.now)) }
        ensures memory { IfErr result (λ e. e ≡ Refusal.NoMemory) }
        ensures count { length self.new ≡ length self.old }
        ensures rest { with_segment self.new to (record (segment_of self.new to) { parts = [] })
            ≡ self.old }
    {
        let mut offsets = Vec::with_capacity(alloc, order.len())?;
        for offset in order {
            let part = At {
                segment: from,
                offset: *offset,
            };
            offsets.push(self.place_copy(part, to)?)?;
        }
        Ok(offsets)
    }

    /// Moves the parts of segment `from` into segment `to`, which is empty, in the given order. Returns where each begins. Refused only
    /// with `NoMemory` (1). Then the segments are as before.
    pub fn compact(
        &mut self,
        alloc: Global,
        from: u16,
        to: usize,
        order: &[u32],
    ) -> Result<Vec<u32>, Refusal>
        requires from { from < length self.old }
        requires to { to < length self.old }
        requires other { to ≢ from }
        requires empty { (segment_of self.old to).parts ≡ [] }
        requires size { (segment_of self.old from).size ≤ (segment_of self.old to).size }
        requires layout { IsLayout (segment_of self.old from) }
        requires order { IsOrder (segment_of self.old from).parts order.now }
        ensures moved { OnOk result (self.new ≡ compacted self.old from to order.now) }
        ensures offsets { IfOk result (λ offsets. offsets.items
            ≡ map (λ p. p.offset) (gathered (segment_of self.old from).parts order.now)) }
        ensures memory { IfErr result (λ e. e ≡ Refusal.NoMemory) }
        ensures err { OnErr result (self.new ≡ self.old) }
    {
        match self.gather(alloc, from, to, order) {
            Ok(offsets) => {
                self.clear(from as usize);
                Ok(offsets)
            }
            Err(refusal) => {
                self.clear(to);
                Err(refusal)
            }
        }
    }
}
