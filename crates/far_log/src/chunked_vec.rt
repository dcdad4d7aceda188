// A vector in chunks whose sizes double.
ghost use Rattle.std.specs.Prelude.{◌≡◌, ℕ, ◌+◌, ◌<◌, ◌≤◌, ◌^◌, List, [], ◌∷◌, ◌++◌, length, take, drop, vec_len, slice_get, slice_set, Some, OnOk, OnErr, IfErr};
ghost use Rattle.far_log.specs.Chunking.{capacity_at, start_at, items_of, AreChunks, IsPlaceOf};

use far_types::Refusal;
use std::alloc::Global;
use std::marker::Model;

// The capacity of the first chunk, and its binary logarithm.
const FIRST: usize = 64;

const FIRST_LEVEL: usize = 6;

// The chunk of an element, and its index in the chunk.
#[derive(Clone, Copy)]
struct Place {
    chunk: usize,
    at: usize,
}

// Returns the capacity of a chunk.
fn chunk_capacity(chunk: usize) -> usize
    requires { chunk ≤ 26 }
    ensures size { result ≡ capacity_at 64 chunk }
    ensures start { result ≡ start_at 64 chunk + 64 }
    ensures small { result ≤ 2 ^ 32 }
{
    FIRST << chunk
}

// Returns the chunk of the element at `index`, and the element's index in the chunk.
fn place_of(index: usize) -> Place
    requires { index < 2 ^ 32 }
    ensures place { IsPlaceOf index result.chunk result.at }
    ensures few { result.chunk ≤ 26 }
{
    // Chunk k begins at element 64 * 2^k - 64, so the highest bit of the sum is bit k + 6. The cast to 32 bits shows the compiler that the
    // sum is not 0, so that the logarithm needs no test.
    let sum = index as u32 as usize + FIRST;
    let chunk = sum.ilog2() as usize - FIRST_LEVEL;
    Place {
        chunk,
        at: sum - chunk_capacity(chunk),
    }
}

/// Returns the number of the chunk that has the element at `index`.
pub fn chunk_of(index: usize) -> usize
    requires { index < 2 ^ 32 }
    ensures from { start_at 64 result ≤ index }
    ensures to { index < start_at 64 result + capacity_at 64 result }
    ensures few { result ≤ 26 }
{
    // A short list has only this chunk. The branch saves the logarithm.
    if index < FIRST {
        0
    } else {
        place_of(index).chunk
    }
}

/// Returns the index of the first element of a chunk.
pub fn start_of(chunk: usize) -> usize
    requires { chunk ≤ 26 }
    ensures start { result ≡ start_at 64 chunk }
    ensures small { result < 2 ^ 32 }
{
    chunk_capacity(chunk) - FIRST
}

// Allocates a chunk, unless it exists. Refused only with `NoMemory` (1). Then the elements are as before.
#[inline(always)]
fn make_chunk<T: Drop>(chunks: &mut Vec<Vec<T>>, chunk: usize) -> Result<(), Refusal>
    requires few { chunk ≤ 26 }
    requires kept { AreChunks 64 chunks.old.items }
    requires next { chunk ≤ length chunks.old.items }
    requires full { chunk ≡ length chunks.old.items
        → length (items_of chunks.old.items) ≡ start_at 64 chunk }
    ensures there { OnOk result (chunk < length chunks.new.items) }
    ensures kept { AreChunks 64 chunks.new.items }
    ensures same { items_of chunks.new.items ≡ items_of chunks.old.items }
    ensures memory { IfErr result (λ e. e ≡ Refusal.NoMemory) }
{
    if chunk == chunks.len() {
        let alloc = *chunks.allocator();
        chunks.push(Vec::with_capacity(alloc, chunk_capacity(chunk))?)?;
    }
    Ok(())
}

/// A list of plain values that grows without moving them (a segmented array).
///
/// The values are in at most 27 chunks. The first has capacity for 64 values, and each later one has twice the capacity of the one before
/// it. A chunk is allocated when it is first needed. Only the list of chunks is moved when it grows.
///
/// `truncate` keeps the chunks for later values, as `Vec` keeps its memory. Dropping the list frees them.
#[derive(Drop)]
pub struct ChunkedVec<T> {
    chunks: Vec<Vec<T>>,
    len: usize,
}

impl<T> Model for ChunkedVec<T> {
    ghost use Rattle.std.specs.Prelude.{List, take};
    ghost use Rattle.far_log.specs.Chunking.{items_of, IsChunked};

    ghost Value = { List T };

    ghost view = { λ v. take v.len (items_of v.chunks.items) };

    ghost invariant = { λ v. IsChunked v.chunks.items v.len };
}

impl<T: Copy + Drop> ChunkedVec<T> {
    /// Makes an empty list. Allocates nothing.
    pub fn new(alloc: Global) -> ChunkedVec<T>
        ensures { result ≡ [] }
    {
        ChunkedVec {
            chunks: Vec::new(alloc),
            len: 0,
        }
    }

    /// Returns how many values the list has.
    pub fn len(&self) -> usize
        ensures len { result ≡ length self.now }
        ensures few { result ≤ 2 ^ 32 }
    {
        self.len
    }

    /// Returns the value at `index`.
    pub fn get(&self, index: usize) -> T
        requires { index < length self.now }
        ensures { slice_get self.now index ≡ Some result }
    {
        let chunks = &self.chunks;
        let Place { chunk, at } = place_of(index);
        chunks[chunk][at]
    }

    /// Borrows the values of one chunk in place.
    pub fn chunk(&self, chunk: usize) -> &[T]
        requires few { chunk ≤ 26 }
        requires there { start_at 64 chunk < length self.now }
        ensures { result.now ≡ take (capacity_at 64 chunk) (drop (start_at 64 chunk) self.now) }
    {
        let left = self.len - start_of(chunk);
        let chunk = &self.chunks[chunk];
        if left < chunk.len() {
            return &chunk[..left];
        }
        chunk
    }

    /// Sets the value at `index`.
    pub fn set(&mut self, index: usize, value: T)
        requires { index < length self.old }
        ensures { self.new ≡ slice_set self.old index value }
    {
        let chunks = &mut self.chunks;
        let Place { chunk, at } = place_of(index);
        chunks[chunk][at] = value;
    }

    /// Appends a value, and moves no other. Refused only with `NoMemory` (1), if a chunk cannot be allocated. Then the list is as before.
    #[inline(always)]
    pub fn push(&mut self, value: T) -> Result<(), Refusal>
        requires few { length self.old < 2 ^ 32 }
        ensures pushed { OnOk result (self.new ≡ self.old ++ value ∷ []) }
        ensures memory { IfErr result (λ e. e ≡ Refusal.NoMemory) }
        ensures err { OnErr result (self.new ≡ self.old) }
    {
        let Place { chunk, at } = place_of(self.len);
        make_chunk(&mut self.chunks, chunk)?;
        let chunk = &mut self.chunks[chunk];
        if at < chunk.len() {
            chunk[at] = value;
        } else {
            chunk.push_reserved(value);
        }
        self.len += 1;
        Ok(())
    }

    /// Cuts the list to its first `len` values; a shorter list is unchanged. Takes constant time, and frees no memory.
    pub fn truncate(&mut self, len: usize)
        ensures { self.new ≡ take len self.old }
    {
        self.len = self.len.min(len);
    }
}
