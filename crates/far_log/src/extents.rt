// The table of a segment: the extents of its parts, and of dropped parts.
ghost use Rattle.std.specs.Prelude.{◌≡◌, ℕ, ◌+◌, ◌<◌, ◌≤◌, ◌^◌, length, slice_get, Some, IfSome};
ghost use Rattle.far_log.specs.Chunking.{capacity_at, start_at};
ghost use Rattle.far_log.specs.Storage.{AreAdjacent, IsSorted, extents_end, extents_of};

use super::chunked_vec::{ChunkedVec, chunk_of, start_of};
use super::part_entry::PartEntry;

/// A range of a segment that has a part, or had one before it was dropped.
#[derive(Clone, Copy)]
pub struct Extent {
    /// Where it begins in the segment.
    pub offset: u32,
    /// How many elements it has.
    pub len: u32,
    /// Whether it has a part now.
    pub live: bool,
}

// Returns the index of the extent that begins at an offset; an arbitrary index if none does.
fn extent_among(entries: &[PartEntry], offset: u32) -> usize
    requires some { 0 < length entries.now }
    requires sorted { IsSorted (extents_of entries.now) }
    ensures within { result < length entries.now }
    ensures found { (k : ℕ) (s : Extent) → slice_get (extents_of entries.now) k ≡ Some s
        → s.offset ≡ offset → result ≡ k }
{
    let mut low = 0;
    let mut size = entries.len();
    while size > 1 {
        let half = size / 2;
        let middle = low + half;
        // This chooses between two values, so that the compiler needs no branch.
        low = if entries[middle].extent.offset <= offset {
            middle
        } else {
            low
        };
        size -= half;
    }
    low
}

// Returns the number of the chunk that has the extent that begins at an offset; an arbitrary chunk if none does.
fn chunk_at(table: &ChunkedVec<PartEntry>, offset: u32) -> usize
    requires some { 0 < length table.now }
    requires adjacent { AreAdjacent 0 (extents_of table.now) }
    ensures few { result ≤ 26 }
    ensures there { start_at 64 result < length table.now }
    ensures found { (k : ℕ) (s : Extent) → slice_get (extents_of table.now) k ≡ Some s
        → s.offset ≡ offset
        → (start_at 64 result ≤ k) × (k < start_at 64 result + capacity_at 64 result) }
{
    // The last chunk has about half of the extents, so it is searched first.
    let mut number = chunk_of(table.len() - 1);
    while number > 0 {
        if table.chunk(number)[0].extent.offset <= offset {
            return number;
        }
        number -= 1;
    }
    0
}

// Searches for the extent that begins at an offset and returns its number; an arbitrary number if none does. It is not inlined, so that
// `number_at` stays short.
#[inline(never)]
fn number_among(table: &ChunkedVec<PartEntry>, offset: u32) -> usize
    requires some { 0 < length table.now }
    requires adjacent { AreAdjacent 0 (extents_of table.now) }
    ensures { (k : ℕ) (s : Extent) → slice_get (extents_of table.now) k ≡ Some s
        → s.offset ≡ offset → result ≡ k }
{
    let chunk = chunk_at(table, offset);
    start_of(chunk) + extent_among(table.chunk(chunk), offset)
}

/// Returns the number of the extent that begins at an offset; an arbitrary number if none does.
#[inline(always)]
pub fn number_at(table: &ChunkedVec<PartEntry>, offset: u32) -> usize
    requires some { 0 < length table.now }
    requires adjacent { AreAdjacent 0 (extents_of table.now) }
    ensures { (k : ℕ) (s : Extent) → slice_get (extents_of table.now) k ≡ Some s
        → s.offset ≡ offset → result ≡ k }
{
    // An object whose list is replaced drops its old part after the new one is placed. So the last extent but one is tried first. If the
    // new part is in another segment, the old one may be the last.
    let last = table.len() - 1;
    let number = last.saturating_sub(1);
    if table.get(number).extent.offset == offset {
        return number;
    }
    if table.get(last).extent.offset == offset {
        return last;
    }
    number_among(table, offset)
}

/// Returns the extent that begins at an offset. If none does, returns an arbitrary extent, or `None` if the table has no extent.
pub fn extent_at(table: &ChunkedVec<PartEntry>, offset: u32) -> Option<Extent>
    requires { AreAdjacent 0 (extents_of table.now) }
    ensures there { IfSome result
        (λ s. (k : ℕ) × (slice_get (extents_of table.now) k ≡ Some s)) }
    ensures found { (k : ℕ) (s : Extent) → slice_get (extents_of table.now) k ≡ Some s
        → s.offset ≡ offset → result ≡ Some s }
{
    if table.len() == 0 {
        return None;
    }
    let entries = table.chunk(chunk_at(table, offset));
    Some(entries[extent_among(entries, offset)].extent)
}

/// Returns where the last of the extents ends.
pub fn end_of(table: &ChunkedVec<PartEntry>) -> usize
    requires adjacent { AreAdjacent 0 (extents_of table.now) }
    requires fits { extents_end 0 (extents_of table.now) < 2 ^ 32 }
    ensures { result ≡ extents_end 0 (extents_of table.now) }
{
    let Some(last) = table.len().checked_sub(1) else {
        return 0;
    };
    let extent = table.get(last).extent;
    extent.offset as usize + extent.len as usize
}
