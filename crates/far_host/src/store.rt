// The far store of a host.
ghost use Rattle.std.specs.Prelude.{◌≡◌, ◌<◌, ◌≤◌, [], ◌∷◌, ⊤, IfOk, IfErr, IfSome};
ghost use Rattle.far_store.specs.Faults.{RefusedBy};
ghost use Rattle.far_host.specs.HostTickets.{HasDigestOf, IsNoted, IsOf, id_of};

use crate::contents::Contents;
use crate::note::Note;
use crate::notes::Notes;
use crate::ticket::HostTicket;
use far_store::{FarDelivery, FarRead, FarStore, FarTickets, Meter};
use far_types::Refusal;
use std::alloc::Global;
use std::collections::BTreeMap;
use std::marker::Model;
use std::sync::atomic::{AtomicU64, Ordering};

/// A far store whose contents the calling program keeps: in files, on a server, wherever it likes. Contracts see its capacity
/// and its notes, which together are its id.
///
/// - A put draws a number, and notes the length and the digest of the bytes. It keeps no byte: the caller of the put gives them to the
///   program, with the ticket's number.
/// - A get reads what the program delivered for the ticket. If nothing was delivered, the get fails with a fault.
/// - [`FarDelivery::deliver`] takes bytes that the program kept. If their length or their digest differs from the note, the call fails
///   with a fault, and nothing changes.
///
/// A content is hashed once on its way out and once on its way in. A note takes 56 bytes, and is never freed before the store. Notes
/// are made in chunks of 256 as numbers are drawn, so an unused store takes some 2 KB, whatever its capacity.
///
/// No call waits. If two threads put at the same moment and both make one chunk, a put may be refused with `NoMemory` (1), and can then
/// be repeated.
///
/// Bytes are put. Later the same bytes are delivered and read:
///
/// ```
/// fn comes_back(alloc: Global, capacity: u64, bytes: &[u8]) -> Result<(u64, Vec<u8>), Refusal> {
///     let mut store = HostStore::new(alloc, capacity)?;
///     let mut meter = Meter::new();
///     let ticket = store.put(alloc, &mut meter, bytes)?;
///     let number = store.number(&ticket);
///     store.deliver(alloc, &mut meter, &ticket, bytes)?;
///     let mut buffer = Vec::new(alloc);
///     store.get(alloc, &mut meter, &ticket, &mut buffer)?;
///     store.forget(&ticket);
///     Ok((number, buffer))
/// }
/// ```
#[derive(Drop)]
pub struct HostStore {
    capacity: u64,
    drawn: AtomicU64,
    notes: Notes,
    delivered: BTreeMap<u64, Contents>,
}

impl Model for HostStore {
    ghost use Rattle.std.specs.Prelude.{◌≡◌, ℕ, IfSome};
    ghost use Rattle.std.specs.Ordering.{nat_cmp};
    ghost use Rattle.std.specs.BTreeMap.{get};
    ghost use Rattle.far_host.specs.HostTickets.{HostState, IsNoted, host_coded};

    ghost Value = { HostState };

    ghost coded = { host_coded };

    ghost view = { λ s. record { capacity = s.capacity; notes = s.notes } };

    // The content that is stored under a number was delivered for a ticket with that number.
    ghost invariant = { λ s. (n : ℕ) →
        IfSome (get nat_cmp s.delivered n) (λ contents.
        (contents.ticket.number ≡ n) × IsNoted contents.ticket s.notes) };
}

impl HostStore {
    /// Makes an empty store whose numbers are below `capacity`. Refused only with `NoMemory` (1).
    pub fn new(alloc: Global, capacity: u64) -> Result<HostStore, Refusal>
        ensures capacity { IfOk result (λ s. s.capacity ≡ capacity) }
        ensures memory { IfErr result (λ e. e ≡ Refusal.NoMemory) }
    {
        Ok(HostStore {
            capacity,
            drawn: AtomicU64::new(0),
            notes: Notes::new(alloc)?,
            delivered: BTreeMap::new(alloc),
        })
    }

    /// Returns the number of tickets that were given out. Allocates nothing.
    pub fn drawn(&self) -> u64
        ensures { result ≤ self.now.capacity }
    {
        self.drawn.load(Ordering::SeqCst).min(self.capacity)
    }

    // Returns the bytes that were delivered for a ticket.
    fn delivered(&self, ticket: &HostTicket) -> Option<&[u8]>
        requires { IsNoted ticket.now self.now.notes }
        ensures { IfSome result (λ bytes. bytes.now ≡ ticket.now.content) }
    {
        let contents = self.delivered.get(&ticket.number)?;
        contents.ticket.agrees(ticket);
        Some(&contents.bytes)
    }
}

impl FarTickets for HostStore {
    type Ticket = HostTicket;

    ghost content = { λ t. t.content };

    ghost number_of = { λ t. t.number };

    ghost store_id = { id_of };

    ghost is_of = { IsOf };

    ghost capacity_of = { λ s. s.capacity };

    ghost may_fail = { ⊤ };

    fn again(&self, ticket: &HostTicket) -> HostTicket {
        ticket.copy()
    }

    fn number(&self, ticket: &HostTicket) -> u64 {
        ticket.number
    }

    fn same(&self, a: &HostTicket, b: &HostTicket) -> bool {
        if a.number != b.number {
            return false;
        }
        a.agrees(b);
        true
    }
}

impl FarRead for HostStore {
    fn get(
        &self,
        _alloc: Global,
        meter: &mut Meter,
        ticket: &HostTicket,
        buffer: &mut Vec<u8>,
    ) -> Result<(), Refusal> {
        buffer.clear();
        let Some(bytes) = self.delivered(ticket) else {
            meter.rise();
            return Err(Refusal::FarFault);
        };
        buffer.extend_from_slice(bytes)?;
        Ok(())
    }
}

impl FarStore for HostStore {
    fn put(&self, alloc: Global, meter: &mut Meter, bytes: &[u8]) -> Result<HostTicket, Refusal>
        ensures here { IfOk result (λ ticket. IsOf ticket (id_of self.now)) }
        ensures content { IfOk result (λ ticket. ticket.content ≡ bytes.now) }
        ensures number { IfOk result (λ ticket. ticket.number < self.now.capacity) }
        ensures faultless { meter.new ≡ meter.old }
        ensures refused { RefusedBy (22 ∷ 1 ∷ []) result }
    {
        let next = self.drawn.load(Ordering::SeqCst);
        // A full store hashes nothing.
        if next >= self.capacity {
            return Err(Refusal::FarFull);
        }
        // The chunk comes first, so that a put without memory for it uses up no number.
        if self.notes.reserve(alloc, next).is_none() {
            return Err(Refusal::NoMemory);
        }
        let note = Note::of(bytes);
        let number = self.drawn.fetch_add(1, Ordering::SeqCst);
        if number >= self.capacity {
            return Err(Refusal::FarFull);
        }
        self.notes
            .write(alloc, number, note)
            .ok_or(Refusal::NoMemory)
    }
}

impl FarDelivery for HostStore {
    ghost matches = { λ t bytes. HasDigestOf t.content bytes };

    fn deliver(
        &mut self,
        alloc: Global,
        meter: &mut Meter,
        ticket: &HostTicket,
        bytes: &[u8],
    ) -> Result<(), Refusal> {
        if !self.notes.note(ticket).fits(bytes) {
            meter.rise();
            return Err(Refusal::FarFault);
        }
        let contents = Contents {
            ticket: ticket.copy(),
            bytes: Vec::from_slice(alloc, bytes)?,
        };
        self.delivered.insert(ticket.number, contents)?;
        Ok(())
    }

    fn forget(&mut self, ticket: &HostTicket) {
        self.delivered.remove(&ticket.number);
    }

    fn forget_all(&mut self) {
        self.delivered.clear();
    }
}
