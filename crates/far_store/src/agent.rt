// The agent: a far store in this process.
ghost use Rattle.std.specs.Prelude.{◌≡◌, ◌<◌, [], ◌∷◌, IfOk, IfErr, OnOk, OnErr};
ghost use Rattle.far_store.specs.StoreState.{IsTicketOf, full_id};
ghost use Rattle.far_store.specs.Faults.{RefusedBy};

use crate::Meter;
use crate::drawn::below;
use crate::store::{FarRead, FarStore, FarTickets};
use boxcar::Pushed;
use far_types::Refusal;
use std::alloc::Global;
use std::marker::Model;
use std::sync::Wait;

/// A far store in this process, over a vector that only grows and that threads share without a lock. It never returns `FarFault` (21).
/// Contracts see its id and its capacity.
///
/// A `get` never waits. A `put` may wait while another thread allocates the space for the next contents.
///
/// Puts bytes into any store, and reads them back:
///
/// ```
/// pub fn round_trip<S: FarStore>(store: &S, alloc: Global, bytes: &[u8]) -> Result<Vec<u8>, Refusal>
///     ensures whole { IfOk result (λ got. got.items ≡ bytes.now) }
///     ensures refused { RefusedBy (21 ∷ 22 ∷ 1 ∷ []) result }
/// {
///     let mut meter = Meter::new();
///     let ticket = store.put(alloc, &mut meter, bytes)?;
///     let mut buffer = Vec::new(alloc);
///     store.get(alloc, &mut meter, &store.again(&ticket), &mut buffer)?;
///     Ok(buffer)
/// }
/// ```
#[derive(Drop)]
pub struct AgentStore<R> {
    rt: R,
    contents: boxcar::Vec<Vec<u8>>,
    capacity: u64,
}

impl<R> Model for AgentStore<R> {
    ghost use Rattle.far_store.specs.StoreState.{StoreState, store_coded, bucket_ids};

    ghost Value = { StoreState };

    ghost coded = { store_coded };

    ghost view = { λ s. record { id = bucket_ids s.contents; capacity = s.capacity } };
}

impl<R: Drop> AgentStore<R> {
    /// Makes an empty store that gives out the numbers below `capacity`. It keeps the runtime `rt`, with which a put may wait. Refused only
    /// with `NoMemory` (1).
    pub fn new(rt: R, alloc: Global, capacity: u64) -> Result<AgentStore<R>, Refusal>
        ensures capacity { IfOk result (λ s. s.capacity ≡ capacity) }
        ensures memory { IfErr result (λ e. e ≡ Refusal.NoMemory) }
    {
        Ok(AgentStore {
            rt,
            contents: boxcar::Vec::new(alloc)?,
            capacity,
        })
    }
}

impl<R: Sync + Drop> FarTickets for AgentStore<R> {
    type Ticket = Pushed<Vec<u8>>;

    ghost content = { λ t. t.value.items };

    ghost number_of = { λ t. t.index };

    ghost store_id = { full_id };

    ghost is_of = { IsTicketOf };

    ghost capacity_of = { λ s. s.capacity };

    ghost may_fail = { ⊥ };

    fn again(&self, ticket: &Pushed<Vec<u8>>) -> Pushed<Vec<u8>> {
        ticket.again()
    }

    fn number(&self, ticket: &Pushed<Vec<u8>>) -> u64 {
        ticket.index() as u64
    }

    fn same(&self, a: &Pushed<Vec<u8>>, b: &Pushed<Vec<u8>>) -> bool {
        if a.index() != b.index() {
            return false;
        }
        // For the proof: shows that one number has one content. At run time nothing happens here.
        self.contents.agrees(a, b);
        true
    }
}

impl<R: Sync + Drop> FarRead for AgentStore<R> {
    fn get(
        &self,
        _alloc: Global,
        meter: &mut Meter,
        ticket: &Pushed<Vec<u8>>,
        buffer: &mut Vec<u8>,
    ) -> Result<(), Refusal>
        requires { IsTicketOf ticket.now (full_id self.now) }
        ensures content { OnOk result (buffer.new.items ≡ ticket.now.value.items) }
        ensures empty { OnErr result (buffer.new.items ≡ []) }
        ensures faultless { meter.new ≡ meter.old }
        ensures memory { IfErr result (λ e. e ≡ Refusal.NoMemory) }
    {
        buffer.clear();
        buffer.extend_from_slice(self.contents.value(ticket))?;
        Ok(())
    }
}

impl<R: Sync + Drop + Wait> FarStore for AgentStore<R> {
    fn put(
        &self,
        alloc: Global,
        meter: &mut Meter,
        bytes: &[u8],
    ) -> Result<Pushed<Vec<u8>>, Refusal>
        ensures here { IfOk result (λ ticket. IsTicketOf ticket (full_id self.now)) }
        ensures content { IfOk result (λ ticket. ticket.value.items ≡ bytes.now) }
        ensures number { IfOk result (λ ticket. ticket.index < self.now.capacity) }
        ensures faultless { meter.new ≡ meter.old }
        ensures refused { RefusedBy (22 ∷ 1 ∷ []) result }
    {
        // The count is tested before the copy is made, so that repeated puts into a full store allocate nothing.
        if self.contents.count() as u64 >= self.capacity {
            return Err(Refusal::FarFull);
        }
        let copy = Vec::from_slice(alloc, bytes)?;
        let Ok(ticket) = self.contents.push_shown(&self.rt, copy) else {
            return Err(Refusal::NoMemory);
        };
        below(self.capacity, ticket)
    }
}
