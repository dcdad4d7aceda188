// A far store that holds its first put, for tests.
ghost use Rattle.std.specs.Prelude.{◌≡◌, ⊤};

use crate::Meter;
use crate::store::{FarRead, FarStore, FarTickets};
use far_types::Refusal;
use std::alloc::Global;
use std::marker::Model;
use std::sync::atomic::{AtomicBool, AtomicU64, Ordering};
use std::{hint, thread};

// The most turns of a loop for which a put is held.
const TURNS: u32 = 10_000_000;

// A held put yields the processor once in this many turns.
const YIELDING: u32 = 10_000;

/// A far store that holds its first `put` at a gate, and passes all other calls to the store inside it. Contracts see the inner store, but
/// not the atomics of the gate. So `release` and `held` have no clauses.
///
/// It is for testing what else a table can do while a put is under way. A put is held for at most 10,000,000 turns of a loop, and then
/// returns `FarFault` (21). So no call waits for ever.
#[derive(Drop)]
pub struct GateStore<S> {
    store: S,
    opened_by: Opener,
    begun: AtomicU64,
    open: AtomicBool,
}

// The event that opens a gate.
#[derive(Clone, Copy, PartialEq, Eq)]
enum Opener {
    Release,
    SecondPut,
}

impl<S> Model for GateStore<S> {
    ghost Value = { S };

    ghost view = { λ g. g.store };
}

impl<S> GateStore<S> {
    /// Makes a store over `store` that holds its first put until `release`. Allocates nothing.
    pub fn new(store: S) -> GateStore<S>
        ensures { result ≡ store }
    {
        GateStore::shut(store, Opener::Release)
    }

    /// Makes a store over `store` that holds its first put until a second put begins. Allocates nothing.
    pub fn two(store: S) -> GateStore<S>
        ensures { result ≡ store }
    {
        GateStore::shut(store, Opener::SecondPut)
    }

    fn shut(store: S, opened_by: Opener) -> GateStore<S>
        ensures { result ≡ store }
    {
        GateStore {
            store,
            opened_by,
            begun: AtomicU64::new(0),
            open: AtomicBool::new(false),
        }
    }

    /// Opens the gate permanently. Allocates nothing.
    pub fn release(&self) {
        self.open.store(true, Ordering::SeqCst);
    }

    /// Returns whether a put has reached the gate, now or earlier. Allocates nothing.
    pub fn held(&self) -> bool {
        self.begun.load(Ordering::SeqCst) > 0
    }

    // Waits for the gate to open. Returns whether it did.
    fn waits(&self) -> bool {
        for turn in 0..TURNS {
            if self.open.load(Ordering::SeqCst) {
                return true;
            }
            rest(turn);
        }
        false
    }

    // Counts a put as it begins. Returns whether it may continue to the store.
    fn admits(&self) -> bool {
        let earlier = self.begun.fetch_add(1, Ordering::SeqCst);
        if self.opened_by == Opener::SecondPut && earlier == 1 {
            self.release();
        }
        earlier > 0 || self.waits()
    }
}

// Pauses for one turn. Most pauses are short, so that all turns take a fraction of a second. The other thread may need this processor,
// so some pauses yield it.
fn rest(turn: u32) {
    if turn % YIELDING == 0 {
        thread::yield_now();
    } else {
        hint::spin_loop();
    }
}

impl<S: FarTickets> FarTickets for GateStore<S> {
    type Ticket = S::Ticket;

    ghost content = { S.content };

    ghost number_of = { S.number_of };

    ghost store_id = { S.store_id };

    ghost is_of = { S.is_of };

    ghost capacity_of = { S.capacity_of };

    ghost may_fail = { ⊤ };

    fn again(&self, ticket: &S::Ticket) -> S::Ticket {
        self.store.again(ticket)
    }

    fn number(&self, ticket: &S::Ticket) -> u64 {
        self.store.number(ticket)
    }

    fn same(&self, a: &S::Ticket, b: &S::Ticket) -> bool {
        self.store.same(a, b)
    }
}

impl<S: FarRead> FarRead for GateStore<S> {
    fn get(
        &self,
        alloc: Global,
        meter: &mut Meter,
        ticket: &S::Ticket,
        buffer: &mut Vec<u8>,
    ) -> Result<(), Refusal> {
        self.store.get(alloc, meter, ticket, buffer)
    }
}

impl<S: FarStore> FarStore for GateStore<S> {
    fn put(&self, alloc: Global, meter: &mut Meter, bytes: &[u8]) -> Result<S::Ticket, Refusal> {
        if !self.admits() {
            meter.rise();
            return Err(Refusal::FarFault);
        }
        self.store.put(alloc, meter, bytes)
    }
}
