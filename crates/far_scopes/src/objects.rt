// Objects that are local or away.
ghost use Rattle.std.specs.Prelude.{◌≡◌, ℕ, ◌<◌, ◌≤◌, ◌^◌, List, length, IfOk, IfErr, Some, option_map, is_some, false};
ghost use Rattle.far_pointer.specs.Layout.{HasWord};
ghost use Rattle.far_codec.specs.Spelling.{IsSpelled};
ghost use Rattle.std.specs.Option.{option_map_or};
ghost use Rattle.far_scopes.specs.Memory.{IsMemory};
ghost use Rattle.far_scopes.specs.Movement.{AreTracked, word_of, version_of, leavings_of, pins_of, ticket_of, has_copy};
ghost use Rattle.far_scopes.specs.Opening.{no_objects};

mod coldest;
mod compacting;
mod creating;
mod lending;
mod moving;
mod pins;
mod readers;
mod renewing;
mod replacing;
mod scopes;

use super::limits::ObjectLimits;
use super::memory::LocalMemory;
use super::object_record::ObjectRecord;
use super::recency::Recency;
use far_codec::Elem;
use far_pointer::Word;
use far_store::FarTickets;
use far_types::Refusal;
use std::alloc::Global;
use std::marker::Model;

/// Objects, each a list of elements, that move between local memory and a far store of type `S`.
#[derive(Drop)]
pub struct Objects<T: Elem, S: FarTickets> {
    number: u32,
    max_writes: u64,
    leavings: u64,
    memory: LocalMemory<T>,
    records: Vec<ObjectRecord<S::Ticket>>,
    order: Recency,
}

impl<T: Elem, S: FarTickets> Model for Objects<T, S> {
    ghost use Rattle.far_scopes.specs.Movement.{Movement};

    ghost Value = { Movement T S.Ticket };

    ghost use Rattle.far_codec.specs.Spelling.{IsSpelled};
    ghost use Rattle.far_scopes.specs.Movement.{AreTracked};

    ghost view = { λ a. record {
      number = a.number;
      max_writes = a.max_writes;
      leavings = a.leavings;
      memory = a.memory;
      records = a.records.items;
      order = a.order;
    } };

    ghost invariant = { λ a. AreTracked T.meaning S.content
        (IsSpelled T.in_range T.has_spelling T.spelling) record {
          number = a.number;
          max_writes = a.max_writes;
          leavings = a.leavings;
          memory = a.memory;
          records = a.records.items;
          order = a.order;
        } };
}

impl<T: Elem, S: FarTickets> Objects<T, S> {
    /// Creates an empty collection of objects. It stores the frame's number, which distinguishes the jobs of different frames.
    ///
    /// Allocates all memory for elements. Refused only with `NoMemory` (1).
    pub fn new(alloc: Global, number: u32, limits: ObjectLimits) -> Result<Objects<T, S>, Refusal>
        requires { limits.segments ≤ 65536 }
        ensures empty { IfOk result (λ m. m ≡ no_objects number limits) }
        ensures memory { IfErr result (λ e. e ≡ Refusal.NoMemory) }
    {
        Ok(Objects {
            number,
            max_writes: limits.max_writes,
            leavings: limits.leavings,
            memory: LocalMemory::new(alloc, limits.segments, limits.size)?,
            records: Vec::new(alloc),
            order: Recency::new(alloc)?,
        })
    }

    /// Returns the frame's number, which was passed to `new`. Allocates nothing.
    ///
    /// For the proof, it shows the invariant of all objects (`tracked`). It also shows that each local object owns one part of the
    /// region, and that there is no other part (`own`).
    pub fn number(&self) -> u32
        ensures number { result ≡ self.now.number }
        ensures tracked { AreTracked T.meaning S.content
            (IsSpelled T.in_range T.has_spelling T.spelling) self.now }
        ensures own { IsMemory self.now.memory.words self.now.memory.state }
    {
        self.memory.each_owns_its_part();
        self.number
    }

    /// Returns the pointer word of an object. Allocates nothing.
    pub fn word(&self, o: u32) -> Word
        requires { o < length self.now.records }
        ensures word { word_of self.now o ≡ Some result }
        ensures valid { HasWord result }
    {
        self.memory.word(o as usize)
    }

    /// Returns how often an object was written. Allocates nothing.
    pub fn version(&self, o: u32) -> u64
        requires { o < length self.now.records }
        ensures { result ≡ version_of self.now o }
    {
        self.records[o as usize].version
    }

    /// Returns how often an object was evicted. Allocates nothing.
    pub fn leavings(&self, o: u32) -> u64
        requires { o < length self.now.records }
        ensures { result ≡ leavings_of self.now o }
    {
        self.records[o as usize].leavings
    }

    /// Returns how many pins an object has. Allocates nothing.
    pub fn pins(&self, o: u32) -> u32
        requires { o < length self.now.records }
        ensures { result ≡ pins_of self.now o }
    {
        u32::from(self.records[o as usize].pins)
    }

    /// Returns the ticket of an object's newest far copy, if there is one. Allocates nothing.
    pub fn ticket(&self, o: u32) -> Option<&S::Ticket>
        requires { o < length self.now.records }
        ensures ticket { option_map (λ ticket. ticket.now) result ≡ ticket_of self.now o }
        ensures copy { is_some result ≡ option_map_or has_copy (word_of self.now o) false }
    {
        self.records[o as usize].ticket.as_ref()
    }
}
