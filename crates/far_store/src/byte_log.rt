// An engine as an example: a log of bytes in memory. docs/FAR_STORE.md explains it step by step.
ghost use Rattle.std.specs.Prelude.{◌≡◌, ◌≤◌, ◌+◌, ◌<◌, ℕ, ⊤, Some, map, length, slice_get, IfOk, IfSome};

use crate::engine::{Engine, Failure};
use boxcar::slot::{OnceSlot, SlotRule, Written};
use boxcar::tag::Tag;
use std::alloc::{AllocError, Global};
use std::error::Error;
use std::fmt;
use std::marker::Model;
use std::sync::atomic::{AtomicUsize, Ordering};

/// A log of bytes in memory, to which each write is appended. Contracts see the list of the ids of its slots, one for each
/// byte of its capacity.
///
/// A write takes its slots in one atomic step and then fills them, so threads share the log without a lock. A write that
/// does not fit fails with [`LogFull`] and takes none. Reading fails only if memory runs out.
#[derive(Drop)]
pub struct ByteLog {
    slots: Vec<OnceSlot<u8, AnyByte>>,
    used: AtomicUsize,
}

impl Model for ByteLog {
    ghost use Rattle.std.specs.Prelude.{ℕ, List, map};
    ghost use base.Stored.{coded_ℕ, coded_list};

    ghost Value = { List ℕ };

    ghost coded = { coded_list coded_ℕ };

    ghost view = { λ log. map (λ slot. slot.id) log.slots.items };
}

/// The key of a write: its offset in the log, and a token for each of its bytes. Tokens take no space at run time.
#[derive(Drop)]
pub struct LogKey {
    offset: usize,
    written: Vec<Written<u8>>,
}

/// The error of a write that does not fit into the log.
#[derive(Drop, Debug)]
pub struct LogFull;

/// Prints a sentence, without a full stop.
impl fmt::Display for LogFull {
    ghost use Rattle.std.specs.Prelude.{Some, codes};

    ghost output = { λ _. Some (codes "the log has no room for so many bytes") };

    fn fmt<W: fmt::Write>(&self, f: &mut fmt::Formatter<W>) -> fmt::Result {
        f.write_str("the log has no room for so many bytes")
    }
}

impl Error for LogFull {}

// The rule of a slot: any byte may be written.
pub struct AnyByte;

impl SlotRule<u8> for AnyByte {
    ghost holds = { λ _ _. ⊤ };
}

impl ByteLog {
    /// Returns an empty log for `size` bytes. Fails only if out of memory.
    pub fn new(alloc: Global, size: usize) -> Result<ByteLog, AllocError>
        ensures { IfOk result (λ log. length log ≡ size) }
    {
        let mut slots = Vec::new(alloc);
        slots.resize_with(size, || OnceSlot::new(&Tag::empty()))?;
        Ok(ByteLog {
            slots,
            used: AtomicUsize::new(0),
        })
    }

    /// Returns the capacity in bytes. Allocates nothing.
    pub fn size(&self) -> usize
        ensures { result ≡ length self.now }
    {
        self.slots.len()
    }

    /// Returns how many bytes are in use, including the bytes of writes under way. Allocates nothing.
    pub fn used(&self) -> usize
        ensures { result ≤ length self.now }
    {
        // For the proof: the type of the counter does not say that it stays within the size.
        self.used.load(Ordering::SeqCst).min(self.size())
    }

    // Takes `count` slots, and returns the offset of the first, or `None` if fewer are free.
    fn take(&self, count: usize) -> Option<usize>
        ensures { IfSome result (λ offset. offset + count ≤ length self.now) }
    {
        let size = self.size();
        let offset = self
            .used
            .fetch_update(Ordering::SeqCst, Ordering::SeqCst, |used| {
                end_of(used, count, size)
            })
            .ok()?;
        end_of(offset, count, size)?;
        Some(offset)
    }

    fn write_at(&self, at: usize, byte: u8) -> Result<Written<u8>, Failure<LogFull>>
        requires { at < length self.now }
        ensures here { IfOk result (λ token. slice_get self.now at ≡ Some token.of) }
        ensures byte { IfOk result (λ token. token.value ≡ byte) }
    {
        match self.slots[at].set_written(byte) {
            Ok(token) => Ok(token),
            // Unreachable: no slot is taken twice.
            Err(_) => Err(Failure::Engine(LogFull)),
        }
    }

    fn byte_at(&self, at: usize, token: &Written<u8>) -> u8
        requires { slice_get self.now at ≡ Some token.now.of }
        ensures { result ≡ token.now.value }
    {
        *self.slots[at].value(token)
    }
}

// Returns the end of `count` slots from an offset on, or `None` if it is past the end of the log.
fn end_of(offset: usize, count: usize, size: usize) -> Option<usize>
    ensures { IfSome result (λ end. (end ≡ offset + count) × (end ≤ size)) }
{
    offset.checked_add(count).filter(|end| *end <= size)
}

// Returns element `n` of a list. It is generic because the compiler does not index elements that it knows to be zero-sized,
// such as tokens.
fn nth<T>(list: &Vec<T>, n: usize) -> &T
    requires { n < length list.now.items }
    ensures { slice_get list.now.items n ≡ Some result.now }
{
    &list[n]
}

impl Engine for ByteLog {
    type Key = LogKey;

    type Error = LogFull;

    ghost written = { λ key. map (λ token. token.value) key.written.items };

    ghost engine_id = { λ log. log };

    ghost is_of = { λ key id. (i : ℕ) → IfSome (slice_get key.written.items i)
        (λ token. slice_get id (key.offset + i) ≡ Some token.of) };

    fn write(&self, alloc: Global, bytes: &[u8]) -> Result<LogKey, Failure<LogFull>> {
        let mut written = Vec::with_capacity(alloc, bytes.len())?;
        let Some(offset) = self.take(bytes.len()) else {
            return Err(Failure::Engine(LogFull));
        };
        // For the proof: shows that the offset of a slot is a `usize`.
        let _size = self.size();
        for (i, byte) in bytes.iter().enumerate() {
            written.push(self.write_at(offset + i, *byte)?)?;
        }
        Ok(LogKey { offset, written })
    }

    fn read(
        &self,
        _alloc: Global,
        key: &LogKey,
        buffer: &mut Vec<u8>,
    ) -> Result<(), Failure<LogFull>> {
        // For the proof: shows that the offset of a slot is a `usize`.
        let _size = self.size();
        for i in 0..key.written.len() {
            let token = nth(&key.written, i);
            buffer.push(self.byte_at(key.offset + i, token))?;
        }
        Ok(())
    }
}
