// A store whose puts may be held, or whose gets.
ghost use Rattle.std.specs.Prelude.{⊤};

use crate::scenes::Gate;
use far_store::{FarRead, FarStore, FarTickets, GateStore, Meter};
use far_types::Refusal;
use std::alloc::Global;
use std::marker::Model;
use std::sync::atomic::{AtomicBool, Ordering};
use std::thread;

// The number of turns that a wait for a put or a get takes at most.
const TURNS: u32 = 1_000_000;

// A session's calls on a gate.
pub trait Gated {
    // Returns whether a put or a get is held at the gate.
    fn is_held(&self) -> bool;

    // Opens the gate.
    fn open(&self);
}

// A store with one gate: of its puts, or of its gets. A put that is held until a second begins is held by a `GateStore`, for some 60 ms
// at most. All other calls are held here: they yield the processor in each turn, and so wait longer while other threads are busy.
#[derive(Drop)]
pub struct Gates<S> {
    store: GateStore<S>,
    gate: Gate,
    is_reached: AtomicBool,
    is_open: AtomicBool,
}

impl<S> Model for Gates<S> {
    ghost Value = { S };

    ghost view = { λ g. g.store };
}

impl<S> Gated for Gates<S> {
    fn is_held(&self) -> bool {
        match self.gate {
            Gate::Released | Gate::OfGets => self.is_reached.load(Ordering::SeqCst),
            _ => self.store.held(),
        }
    }

    fn open(&self) {
        self.store.release();
        self.is_open.store(true, Ordering::SeqCst);
    }
}

impl<S> Gates<S> {
    // Waits until no call is held. Returns whether none is.
    fn admits(&self) -> bool {
        for _ in 0..TURNS {
            if self.is_open.load(Ordering::SeqCst) {
                return true;
            }
            self.is_reached.store(true, Ordering::SeqCst);
            thread::yield_now();
        }
        false
    }
}

impl<S: FarTickets> FarTickets for Gates<S> {
    type Ticket = S::Ticket;

    ghost content = { S.content };

    ghost number_of = { S.number_of };

    ghost store_id = { S.store_id };

    ghost is_of = { S.is_of };

    ghost capacity_of = { S.capacity_of };

    ghost may_fail = { ⊤ };

    fn again(&self, ticket: &S::Ticket) -> S::Ticket {
        self.store.again(ticket)
    }

    fn number(&self, ticket: &S::Ticket) -> u64 {
        self.store.number(ticket)
    }

    fn same(&self, a: &S::Ticket, b: &S::Ticket) -> bool {
        self.store.same(a, b)
    }
}

impl<S: FarRead> FarRead for Gates<S> {
    fn get(
        &self,
        alloc: Global,
        meter: &mut Meter,
        ticket: &S::Ticket,
        buffer: &mut Vec<u8>,
    ) -> Result<(), Refusal> {
        if matches!(self.gate, Gate::OfGets) && !self.admits() {
            buffer.clear();
            meter.rise();
            return Err(Refusal::FarFault);
        }
        self.store.get(alloc, meter, ticket, buffer)
    }
}

impl<S: FarStore> FarStore for Gates<S> {
    fn put(&self, alloc: Global, meter: &mut Meter, bytes: &[u8]) -> Result<S::Ticket, Refusal> {
        if matches!(self.gate, Gate::Released) && !self.admits() {
            meter.rise();
            return Err(Refusal::FarFault);
        }
        self.store.put(alloc, meter, bytes)
    }
}

// Returns a store with this gate over another.
pub fn with_gate<S>(store: S, gate: Gate) -> Gates<S> {
    Gates {
        store: with_gate_of_puts(store, gate),
        gate,
        is_reached: AtomicBool::new(false),
        is_open: AtomicBool::new(false),
    }
}

// Returns a store that holds its first put over another, if it is held until a second begins.
fn with_gate_of_puts<S>(store: S, gate: Gate) -> GateStore<S> {
    match gate {
        Gate::Open | Gate::Released | Gate::OfGets => open_gate(store),
        Gate::Paired => GateStore::two(store),
    }
}

// Returns a gate that is open.
fn open_gate<S>(store: S) -> GateStore<S> {
    let gate = GateStore::new(store);
    gate.release();
    gate
}

// Waits until a put or a get is held at the gate. Returns whether one is.
pub fn awaits_held<S: Gated>(store: &S) -> bool {
    for _ in 0..TURNS {
        if store.is_held() {
            return true;
        }
        thread::yield_now();
    }
    false
}
