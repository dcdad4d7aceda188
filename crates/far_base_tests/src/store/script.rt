// Scripts of calls on a store.
ghost use Rattle.std.specs.Prelude.{IfOk, IfSome};

use crate::store::carrying::{is_carried_from_shelf, is_carried_to_shelf};
use crate::store::generic::{Why, get, put};
use crate::store::threads::read_back_by_four;
use far_store::{FarRead, FarStore, FarTickets};
use std::alloc::Global;
use std::thread::Threads;

// A call, or many, with the expected reply.
#[derive(Clone, Copy)]
pub enum Line {
    // Puts these bytes: gets this number, or is refused.
    Put(&'static [u8], Result<u64, Why>),
    // Gets the last content: replaces the bytes of the buffer by these, or is refused and leaves the buffer empty.
    Get(Result<&'static [u8], Why>),
    // Puts this many contents, with the numbers from 0 on.
    Fill(u64),
    // Makes this many puts of this many bytes, each of which finds the store full.
    StaysFull(u32, usize),
    // Runs the generic callers over the store and a shelf, which is full afterwards.
    ToShelf,
    // Runs the generic callers over a shelf and the store.
    FromShelf,
    // Four threads put this many contents each: this many read back all of their own, and this many meet a fault.
    FourThreads(u64, usize, usize),
}

// Returns whether a store returns the expected reply to each call.
pub fn plays<R: Threads + Sync, S: FarStore>(
    rt: &R,
    store: &S,
    alloc: Global,
    lines: &[Line],
) -> bool {
    let mut last = None;
    let mut buffer = Vec::new(alloc);
    for line in lines {
        if !line.holds(rt, store, alloc, &mut last, &mut buffer) {
            return false;
        }
    }
    true
}

impl Line {
    // Returns whether a store returns the expected reply to a call. `ticket` is the last one that it returned.
    fn holds<R: Threads + Sync, S: FarStore>(
        self,
        rt: &R,
        store: &S,
        alloc: Global,
        last: &mut Option<S::Ticket>,
        buffer: &mut Vec<u8>,
    ) -> bool
        requires { IfSome last.old (λ t. S.is_of t (S.store_id store.now)) }
        ensures { IfSome last.new (λ t. S.is_of t (S.store_id store.now)) }
    {
        match self {
            Line::Put(bytes, wanted) => is_put(store, alloc, last, bytes, wanted),
            Line::Get(wanted) => is_got(store, alloc, last, buffer, wanted),
            Line::Fill(count) => are_drawn(store, alloc, count),
            Line::StaysFull(puts, length) => stays_full(store, alloc, puts, length),
            Line::ToShelf => is_carried_to_shelf(store, alloc),
            Line::FromShelf => is_carried_from_shelf(store, alloc),
            Line::FourThreads(puts, read, faults) => {
                read_back_by_four(rt, store, alloc, puts) == Ok((read, faults))
            }
        }
    }
}

// Makes a put, again if memory runs out unexpectedly.
fn put_at_last<S: FarStore>(
    store: &S,
    alloc: Global,
    bytes: &[u8],
    wanted: Result<u64, Why>,
) -> Result<S::Ticket, Why>
    ensures { IfOk result (λ t. S.is_of t (S.store_id store.now)) }
{
    match put(store, alloc, bytes) {
        Err(Why::NoMemory) if wanted != Err(Why::NoMemory) => put(store, alloc, bytes),
        answer => answer,
    }
}

// Returns whether a put gets this reply.
fn is_put<S: FarStore>(
    store: &S,
    alloc: Global,
    last: &mut Option<S::Ticket>,
    bytes: &[u8],
    wanted: Result<u64, Why>,
) -> bool
    requires { IfSome last.old (λ t. S.is_of t (S.store_id store.now)) }
    ensures { IfSome last.new (λ t. S.is_of t (S.store_id store.now)) }
{
    match put_at_last(store, alloc, bytes, wanted) {
        Ok(ticket) => {
            let number = store.number(&ticket);
            *last = Some(ticket);
            wanted == Ok(number)
        }
        Err(why) => wanted == Err(why),
    }
}

// Makes a get, again if memory runs out unexpectedly.
fn get_at_last<S: FarRead>(
    store: &S,
    alloc: Global,
    ticket: &S::Ticket,
    buffer: &mut Vec<u8>,
    wanted: Result<&[u8], Why>,
) -> Result<(), Why>
    requires { S.is_of ticket.now (S.store_id store.now) }
{
    match get(store, alloc, ticket, buffer) {
        Err(Why::NoMemory) if wanted != Err(Why::NoMemory) => get(store, alloc, ticket, buffer),
        answer => answer,
    }
}

// Returns whether a get by a copy of the last ticket gets this reply.
fn is_got<S: FarRead>(
    store: &S,
    alloc: Global,
    last: &Option<S::Ticket>,
    buffer: &mut Vec<u8>,
    wanted: Result<&[u8], Why>,
) -> bool
    requires { IfSome last.now (λ t. S.is_of t (S.store_id store.now)) }
{
    let Some(ticket) = last else {
        return false;
    };
    let answer = get_at_last(store, alloc, &store.again(ticket), buffer, wanted);
    match wanted {
        Ok(bytes) => answer == Ok(()) && buffer.as_slice() == bytes,
        Err(why) => answer == Err(why) && buffer.is_empty(),
    }
}

// Returns whether this many puts get the numbers from 0 on.
fn are_drawn<S: FarStore>(store: &S, alloc: Global, count: u64) -> bool {
    for number in 0..count {
        if !is_put(store, alloc, &mut None, &[1, 2, 3], Ok(number)) {
            return false;
        }
    }
    true
}

// Returns whether this many puts of this many bytes each find the store full.
fn stays_full<S: FarStore>(store: &S, alloc: Global, puts: u32, length: usize) -> bool {
    let Ok(content) = vec![in alloc; 0x61; length] else {
        return false;
    };
    for _ in 0..puts {
        if !is_put(store, alloc, &mut None, &content, Err(Why::Full)) {
            return false;
        }
    }
    true
}
