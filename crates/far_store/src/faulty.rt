// A far store that fails as planned, for tests.
ghost use Rattle.std.specs.Prelude.{◌≡◌, ◌<◌, ⊤, IsTrue};

use crate::Meter;
use crate::store::{FarRead, FarStore, FarTickets};
use far_types::Refusal;
use std::alloc::Global;
use std::marker::Model;
use std::sync::atomic::{AtomicBool, AtomicU64, Ordering};

/// A far store that fails one `put` and one `get`, each once, and passes all other calls to the store inside it. Contracts see the inner
/// store.
///
/// It is for testing how a caller handles a fault: the failing call returns `FarFault` (21) without calling the inner store. The call made
/// again reaches the inner store.
#[derive(Drop)]
pub struct FaultyStore<S> {
    store: S,
    puts: PlannedFault,
    gets: PlannedFault,
}

impl<S> Model for FaultyStore<S> {
    ghost Value = { S };

    ghost view = { λ f. f.store };
}

impl<S> FaultyStore<S> {
    /// Makes a store over `store` whose put number `failing_put` and whose get number `failing_get` return `FarFault` (21).
    /// Allocates nothing.
    ///
    /// Calls are counted from 1, and 0 plans no fault. A call that is refused with `NoMemory` (1) is not counted.
    pub fn new(store: S, failing_put: u64, failing_get: u64) -> FaultyStore<S>
        ensures { result ≡ store }
    {
        FaultyStore {
            store,
            puts: PlannedFault::at(failing_put),
            gets: PlannedFault::at(failing_get),
        }
    }
}

impl<S: FarTickets> FarTickets for FaultyStore<S> {
    type Ticket = S::Ticket;

    ghost content = { S.content };

    ghost number_of = { S.number_of };

    ghost store_id = { S.store_id };

    ghost is_of = { S.is_of };

    ghost capacity_of = { S.capacity_of };

    ghost may_fail = { ⊤ };

    fn again(&self, ticket: &S::Ticket) -> S::Ticket {
        self.store.again(ticket)
    }

    fn number(&self, ticket: &S::Ticket) -> u64 {
        self.store.number(ticket)
    }

    fn same(&self, a: &S::Ticket, b: &S::Ticket) -> bool {
        self.store.same(a, b)
    }
}

impl<S: FarRead> FarRead for FaultyStore<S> {
    fn get(
        &self,
        alloc: Global,
        meter: &mut Meter,
        ticket: &S::Ticket,
        buffer: &mut Vec<u8>,
    ) -> Result<(), Refusal> {
        if self.gets.is_due() {
            buffer.clear();
            meter.rise();
            return Err(Refusal::FarFault);
        }
        let answer = self.store.get(alloc, meter, ticket, buffer);
        if let Err(Refusal::NoMemory) = &answer {
            self.gets.take_back();
        }
        answer
    }
}

impl<S: FarStore> FarStore for FaultyStore<S> {
    fn put(&self, alloc: Global, meter: &mut Meter, bytes: &[u8]) -> Result<S::Ticket, Refusal> {
        if self.puts.is_due() {
            meter.rise();
            return Err(Refusal::FarFault);
        }
        let answer = self.store.put(alloc, meter, bytes);
        if let Err(Refusal::NoMemory) = &answer {
            self.puts.take_back();
        }
        answer
    }
}

// The planned fault of one kind of call, and the count of these calls.
#[derive(Drop)]
struct PlannedFault {
    number: u64,
    counted: AtomicU64,
    met: AtomicBool,
}

impl PlannedFault {
    fn at(number: u64) -> PlannedFault
        ensures { result.number ≡ number }
    {
        PlannedFault {
            number,
            counted: AtomicU64::new(0),
            met: AtomicBool::new(false),
        }
    }

    // Counts a call as it begins, and returns whether it must fail. A call is counted before it is served, so that threads draw different
    // numbers. A number that was taken back is drawn again; `met` keeps it from failing twice.
    fn is_due(&self) -> bool
        ensures { IsTrue result → 0 < self.now.number }
    {
        let earlier = self.counted.fetch_add(1, Ordering::SeqCst);
        self.number > 0 && earlier == self.number - 1 && !self.met.swap(true, Ordering::SeqCst)
    }

    // Removes a call that ran out of memory from the count.
    fn take_back(&self) {
        self.counted.fetch_sub(1, Ordering::SeqCst);
    }
}
