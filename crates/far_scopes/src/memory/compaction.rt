// Compaction of a segment.
ghost use Rattle.std.specs.Prelude.{◌≡◌, ◌≢◌, ℕ, ◌+◌, ◌<◌, ◌≤◌, ◌↔◌, ◌⊎◌, if◌then◌else◌, length, map, All, AllPairs, OnOk, OnErr, IfOk, IfErr, IsErrOf};
ghost use Rattle.far_log.specs.Effects.{HasNoEmptyOther};
ghost use Rattle.far_pointer.specs.Layout.{is_hot};
ghost use Rattle.far_scopes.specs.Memory.{list_in};
ghost use Rattle.far_scopes.specs.Cool.{cool_in};
ghost use Rattle.far_scopes.specs.Compaction.{IsCompacted};
ghost use Rattle.far_scopes.specs.SegmentObjects.{offset_if, AreObjects, AreSorted, AreHotFirst, Settles};

use super::LocalMemory;
use far_codec::Elem;
use far_log::Moved;
use far_pointer::{At, Pointer, Word};
use far_types::Refusal;
use std::alloc::Global;

/// An object whose part is in the segment that is compacted.
#[derive(Clone, Copy, Drop)]
pub(crate) struct SegmentObject {
    /// The number of the object.
    object: usize,
    /// The offset of its part in the segment.
    offset: u32,
}

impl<T: Elem> LocalMemory<T> {
    /// Moves the parts of a segment into the lowest other segment that has no parts, with the parts of hot objects first. Clears the
    /// hot bit of each moved object. A refused call changes nothing.
    pub fn compact(&mut self, alloc: Global, segment: u32) -> Result<(), Refusal>
        ensures ok { OnOk result (IsCompacted self.old self.new segment) }
        ensures lists { (p : ℕ) → list_in self.new p ≡ list_in self.old p }
        ensures missing { IsErrOf result Refusal.OutOfRange
            ↔ (length self.old.state ≤ segment) }
        ensures full { IsErrOf result Refusal.RegionFull
            ↔ ((segment < length self.old.state) × HasNoEmptyOther self.old.state segment) }
        ensures refused { IfErr result
            (λ e. (e ≡ Refusal.OutOfRange)
            ⊎ ((e ≡ Refusal.RegionFull) ⊎ (e ≡ Refusal.NoMemory))) }
        ensures err { OnErr result (self.new ≡ self.old) }
    {
        self.region.may_compact(segment)?;
        let moving = hot_first(alloc, &self.words, segment)?;
        let order = offsets_of(alloc, &moving)?;
        let moved = self.region.compact(alloc, segment, &order)?;
        self.cool += settle(&mut self.words, &moving, &moved);
        Ok(())
    }
}

// Returns the objects with parts in a segment: first the hot objects, then the others, each group by ascending offset.
fn hot_first(alloc: Global, words: &[Word], segment: u32) -> Result<Vec<SegmentObject>, Refusal>
    ensures found { IfOk result (λ found. AreHotFirst words.now segment found.items) }
    ensures memory { IfErr result (λ e. e ≡ Refusal.NoMemory) }
{
    let mut found = sorted(alloc, words, segment, true)?;
    found.append(&mut sorted(alloc, words, segment, false)?)?;
    Ok(found)
}

// Returns the objects whose part is in a segment and whose hot bit is `hot`, by ascending offset.
fn sorted(
    alloc: Global,
    words: &[Word],
    segment: u32,
    hot: bool,
) -> Result<Vec<SegmentObject>, Refusal>
    ensures found { IfOk result (λ found. AreSorted words.now segment hot found.items) }
    ensures memory { IfErr result (λ e. e ≡ Refusal.NoMemory) }
{
    let mut found = objects_in(alloc, words, segment, hot)?;
    found.sort_unstable_by_key(|found| found.offset);
    Ok(found)
}

// Returns the objects whose part is in a segment and whose hot bit is `hot`, by ascending number.
fn objects_in(
    alloc: Global,
    words: &[Word],
    segment: u32,
    hot: bool,
) -> Result<Vec<SegmentObject>, Refusal>
    ensures found { IfOk result
        (λ found. AreObjects words.now segment hot (length words.now) found.items) }
    ensures memory { IfErr result (λ e. e ≡ Refusal.NoMemory) }
{
    let mut found = Vec::new(alloc);
    for (object, word) in words.iter().enumerate() {
        if let Some(offset) = offset_if(*word, segment, hot) {
            found.push(SegmentObject { object, offset })?;
        }
    }
    Ok(found)
}

// Returns the offset of an object's part, if the part is in this segment and the object's hot bit is `hot`.
fn offset_if(word: Word, segment: u32, hot: bool) -> Option<u32>
    ensures { result ≡ offset_if segment hot word }
{
    match word.read() {
        Pointer::Local {
            at,
            hot: is_hot,
            ..
        } if u32::from(at.segment) == segment && is_hot == hot => Some(at.offset),
        _ => None,
    }
}

// Returns the offsets of the objects' parts.
fn offsets_of(alloc: Global, objects: &[SegmentObject]) -> Result<Vec<u32>, Refusal>
    ensures offsets { IfOk result
        (λ offsets. offsets.items ≡ map (λ found. found.offset) objects.now) }
    ensures memory { IfErr result (λ e. e ≡ Refusal.NoMemory) }
{
    let mut offsets = Vec::with_capacity(alloc, objects.len())?;
    offsets.extend(objects.iter().map(|found| found.offset))?;
    Ok(offsets)
}

// Updates the words of objects after their parts moved: sets the new locations and clears the hot bits. Returns how many objects were hot.
fn settle(words: &mut [Word], objects: &[SegmentObject], moved: &Moved) -> usize
    requires within { All (λ found. found.object < length words.old) objects.now }
    requires once { AllPairs (λ o p. o ≢ p) (map (λ found. found.object) objects.now) }
    requires long { length moved.now.offsets.items ≡ length objects.now }
    ensures settled { Settles words.old words.new objects.now moved.now.segment
        moved.now.offsets.items (length objects.now) }
    ensures cooled { cool_in words.new ≡ cool_in words.old + result }
{
    let mut cooled = 0;
    for (k, found) in objects.iter().enumerate() {
        let at = At {
            segment: moved.segment,
            offset: moved.offsets[k],
        };
        let word = words[found.object];
        words[found.object] = word.with_at(at).with_hot(false);
        cooled += hot_of(word);
    }
    cooled
}

// Returns 1 for the word of a hot object, else 0.
fn hot_of(word: Word) -> usize
    ensures { result ≡ (if is_hot word then 1 else 0) }
{
    if word.hot() { 1 } else { 0 }
}
