// Tests of what no clause says: that contents are put, delivered and read, that other bytes are refused, and where notes are stored.
ghost use Rattle.std.specs.Prelude.{◌≡◌, IfOk, length};
ghost use Rattle.far_host.specs.ContentDigest.{content_digest};
ghost use Rattle.far_host.specs.HostTickets.{IsOf, HasNoCollision, id_of};

use crate::digest::digest_of;
use crate::{HostStore, HostTicket};
use far_store::{FarDelivery, FarRead, FarStore, FarTickets, Meter};
use far_types::Refusal;
use std::alloc::Global;
use std::process::Abort;

const LOAVES: &[u8] = b"bread 2 rye 3";

// Makes each call a second time if memory runs out in the first.

fn made(alloc: Global, capacity: u64) -> Result<HostStore, Refusal> {
    match HostStore::new(alloc, capacity) {
        Err(Refusal::NoMemory) => HostStore::new(alloc, capacity),
        answer => answer,
    }
}

fn copy(alloc: Global, bytes: &[u8]) -> Result<Vec<u8>, Refusal>
    ensures { IfOk result (λ copy. copy.items ≡ bytes.now) }
{
    match Vec::from_slice(alloc, bytes) {
        Err(_) => Ok(Vec::from_slice(alloc, bytes)?),
        Ok(copy) => Ok(copy),
    }
}

fn put(store: &HostStore, alloc: Global, bytes: &[u8]) -> Result<HostTicket, Refusal>
    ensures here { IfOk result (λ ticket. IsOf ticket (id_of store.now)) }
    ensures content { IfOk result (λ ticket. ticket.content ≡ bytes.now) }
{
    match store.put(alloc, &mut Meter::new(), bytes) {
        Err(Refusal::NoMemory) => store.put(alloc, &mut Meter::new(), bytes),
        answer => answer,
    }
}

fn get(store: &HostStore, alloc: Global, ticket: &HostTicket) -> Result<Vec<u8>, Refusal>
    requires { IsOf ticket.now (id_of store.now) }
{
    let mut bytes = Vec::new(alloc);
    match store.get(alloc, &mut Meter::new(), ticket, &mut bytes) {
        Err(Refusal::NoMemory) => store.get(alloc, &mut Meter::new(), ticket, &mut bytes)?,
        answer => answer?,
    }
    Ok(bytes)
}

// Returns whether the store has this content for the ticket.
fn reads(
    store: &HostStore,
    alloc: Global,
    ticket: &HostTicket,
    content: &[u8],
) -> Result<bool, Refusal>
    requires { IsOf ticket.now (id_of store.now) }
{
    Ok(get(store, alloc, ticket)?.as_slice() == content)
}

// Returns whether the store has no content for the ticket, and counts that as a fault.
fn misses(store: &HostStore, alloc: Global, ticket: &HostTicket) -> bool
    requires { IsOf ticket.now (id_of store.now) }
{
    let mut meter = Meter::new();
    let mut bytes = Vec::new(alloc);
    let answer = store.get(alloc, &mut meter, ticket, &mut bytes);
    matches!(answer, Err(Refusal::FarFault)) && meter.faults() == 1 && bytes.is_empty()
}

// Returns whether the store refuses the bytes, and counts that as a fault.
fn refuses(store: &mut HostStore, alloc: Global, ticket: &HostTicket, bytes: &[u8]) -> bool
    requires here { IsOf ticket.now (id_of store.old) }
    requires no_collision { HasNoCollision ticket.now bytes.now }
    ensures { store.new ≡ store.old }
{
    let mut meter = Meter::new();
    let answer = store.deliver(alloc, &mut meter, ticket, bytes);
    matches!(answer, Err(Refusal::FarFault)) && meter.faults() == 1
}

// Delivers a content.
fn deliver(
    store: &mut HostStore,
    alloc: Global,
    ticket: &HostTicket,
    content: &[u8],
) -> Result<(), Refusal>
    requires here { IsOf ticket.now (id_of store.old) }
    requires content { ticket.now.content ≡ content.now }
    ensures { store.new ≡ store.old }
{
    match store.deliver(alloc, &mut Meter::new(), ticket, content) {
        Err(Refusal::NoMemory) => store.deliver(alloc, &mut Meter::new(), ticket, content),
        answer => answer,
    }
}

// Returns whether the store lacks a content, takes it, reads it, and lacks it again after it is forgotten.
fn takes(
    store: &mut HostStore,
    alloc: Global,
    ticket: &HostTicket,
    content: &[u8],
) -> Result<bool, Refusal>
    requires here { IsOf ticket.now (id_of store.old) }
    requires content { ticket.now.content ≡ content.now }
    ensures { store.new ≡ store.old }
{
    let missed = misses(store, alloc, ticket);
    deliver(store, alloc, ticket, content)?;
    let read = reads(store, alloc, ticket, content)?;
    store.forget(ticket);
    Ok(missed && read && misses(store, alloc, ticket))
}

// Ends the run if two contents with one digest were found.
fn no_collision(rt: &impl Abort, content: &[u8], bytes: &[u8])
    ensures { content_digest bytes.now ≡ content_digest content.now → bytes.now ≡ content.now }
{
    if bytes != content {
        assert!(rt; digest_of(bytes) != digest_of(content));
    }
}

// Returns whether a store refuses other bytes for a content, and then takes the content.
fn tells_apart(
    rt: &impl Abort,
    alloc: Global,
    content: &[u8],
    other: &[u8],
) -> Result<bool, Refusal> {
    no_collision(rt, content, other);
    let mut store = made(alloc, 1)?;
    let ticket = put(&store, alloc, content)?;
    let refused = refuses(&mut store, alloc, &ticket, other);
    Ok(refused && takes(&mut store, alloc, &ticket, content)?)
}

fn tells_each_flipped_bit(rt: &impl Abort, alloc: Global, content: &[u8]) -> Result<bool, Refusal> {
    for i in 0..content.len() {
        for bit in 0..8u32 {
            let mut other = copy(alloc, content)?;
            other[i] ^= 1 << bit;
            if !tells_apart(rt, alloc, content, &other)? {
                return Ok(false);
            }
        }
    }
    Ok(true)
}

fn tells_each_prefix(rt: &impl Abort, alloc: Global, content: &[u8]) -> Result<bool, Refusal> {
    for n in 0..content.len() {
        if !tells_apart(rt, alloc, content, &content[..n])? {
            return Ok(false);
        }
    }
    Ok(true)
}

#[test]
fn bytes_that_were_changed_or_cut_are_refused(rt: HostRuntime) {
    let alloc = rt.alloc();
    assert!(rt; matches!(tells_each_flipped_bit(&rt, alloc, LOAVES), Ok(true)));
    assert!(rt; matches!(tells_each_prefix(&rt, alloc, LOAVES), Ok(true)));
    assert!(rt;
        matches!(
            tells_apart(&rt, alloc, LOAVES, b"bread 2 rye 3\0"),
            Ok(true)
        )
    );
    assert!(rt; matches!(tells_apart(&rt, alloc, b"", b"\0"), Ok(true)));
}

// Returns whether each of two contents is refused in place of the other. A call drops the store: a function that drops one itself is long
// to prove.
fn tells_two_numbers(
    rt: &impl Abort,
    alloc: Global,
    old: &[u8],
    new: &[u8],
) -> Result<bool, Refusal> {
    no_collision(rt, old, new);
    no_collision(rt, new, old);
    let mut store = made(alloc, 2)?;
    let told = tells_two_in(&mut store, alloc, old, new);
    drop(store);
    told
}

fn tells_two_in(
    store: &mut HostStore,
    alloc: Global,
    old: &[u8],
    new: &[u8],
) -> Result<bool, Refusal>
    requires new { content_digest new.now ≡ content_digest old.now → new.now ≡ old.now }
    requires old { content_digest old.now ≡ content_digest new.now → old.now ≡ new.now }
{
    let first = put(store, alloc, old)?;
    let second = put(store, alloc, new)?;
    let refused = refuses(store, alloc, &first, new) && refuses(store, alloc, &second, old);
    Ok(refused && takes(store, alloc, &first, old)? && takes(store, alloc, &second, new)?)
}

// Returns whether two delivered contents are read side by side, and each is forgotten by itself.
fn holds_two(alloc: Global, one: &[u8], other: &[u8]) -> Result<bool, Refusal> {
    let mut store = made(alloc, 2)?;
    let held = holds_two_in(&mut store, alloc, one, other);
    drop(store);
    held
}

fn holds_two_in(
    store: &mut HostStore,
    alloc: Global,
    one: &[u8],
    other: &[u8],
) -> Result<bool, Refusal> {
    let first = put(store, alloc, one)?;
    let second = put(store, alloc, other)?;
    holds_each(store, alloc, &first, one, &second, other)
}

fn holds_each(
    store: &mut HostStore,
    alloc: Global,
    first: &HostTicket,
    one: &[u8],
    second: &HostTicket,
    other: &[u8],
) -> Result<bool, Refusal>
    requires first { IsOf first.now (id_of store.old) }
    requires second { IsOf second.now (id_of store.old) }
    requires one { first.now.content ≡ one.now }
    requires other { second.now.content ≡ other.now }
{
    deliver(store, alloc, second, other)?;
    deliver(store, alloc, first, one)?;
    deliver(store, alloc, second, other)?;
    let is_read = reads(store, alloc, first, one)?;
    store.forget(first);
    let is_kept = misses(store, alloc, first) && reads(store, alloc, second, other)?;
    store.forget_all();
    Ok(is_read && is_kept && misses(store, alloc, second))
}

#[test]
fn each_number_has_its_content(rt: HostRuntime) {
    let alloc = rt.alloc();
    assert!(rt;
        matches!(
            tells_two_numbers(&rt, alloc, LOAVES, b"bread 1 rye 3"),
            Ok(true)
        )
    );
    assert!(rt; matches!(holds_two(alloc, LOAVES, b""), Ok(true)));
    assert!(rt; matches!(holds_two(alloc, LOAVES, LOAVES), Ok(true)));
}

// Returns whether a store of a capacity is full after that many contents, and takes the first and the last of them.
fn fills(alloc: Global, capacity: u64) -> Result<bool, Refusal> {
    let mut store = made(alloc, capacity)?;
    let filled = fills_up(&mut store, alloc, capacity);
    drop(store);
    filled
}

fn fills_up(store: &mut HostStore, alloc: Global, capacity: u64) -> Result<bool, Refusal> {
    let first = put(store, alloc, LOAVES)?;
    for number in 2..capacity {
        put(store, alloc, &number.to_le_bytes())?;
    }
    let last = put(store, alloc, b"last")?;
    let ends = store.number(&first) == 0 && Some(store.number(&last)) == capacity.checked_sub(1);
    Ok(
        is_full(store, alloc, capacity)
            && ends
            && takes(store, alloc, &first, LOAVES)?
            && takes(store, alloc, &last, b"last")?,
    )
}

// Returns whether a store has no number for another content.
fn is_full(store: &HostStore, alloc: Global, capacity: u64) -> bool {
    matches!(put(store, alloc, b"more"), Err(Refusal::FarFull)) && store.drawn() == capacity
}

// The capacities are chosen at the bounds of chunks and groups: a chunk has 256 notes, and the groups have one chunk, two and four.
#[test]
fn contents_are_kept_up_to_the_capacity(rt: HostRuntime) {
    let alloc = rt.alloc();
    for capacity in [2, 256, 257, 768, 769, 1_792, 1_793] {
        assert!(rt; matches!(fills(alloc, capacity), Ok(true)), "at {capacity}");
    }
}

// Puts bytes into a store, delivers and reads them. Returns their number, under which a program keeps them, and the bytes that were
// read.
fn comes_back(alloc: Global, capacity: u64, bytes: &[u8]) -> Result<(u64, Vec<u8>), Refusal> {
    let mut store = HostStore::new(alloc, capacity)?;
    let mut meter = Meter::new();
    let ticket = store.put(alloc, &mut meter, bytes)?;
    let number = store.number(&ticket);
    store.deliver(alloc, &mut meter, &ticket, bytes)?;
    let mut buffer = Vec::new(alloc);
    store.get(alloc, &mut meter, &ticket, &mut buffer)?;
    store.forget(&ticket);
    Ok((number, buffer))
}

// Returns whether a content comes back from a store of any capacity, and a store of none is full.
fn serves_any_capacity(alloc: Global) -> Result<bool, Refusal> {
    let (number, read) = match comes_back(alloc, u64::MAX, LOAVES) {
        Err(Refusal::NoMemory) => comes_back(alloc, u64::MAX, LOAVES)?,
        answer => answer?,
    };
    let none = made(alloc, 0)?;
    let full = matches!(put(&none, alloc, LOAVES), Err(Refusal::FarFull)) && none.drawn() == 0;
    Ok(full && number == 0 && read.as_slice() == LOAVES)
}

#[test]
fn any_capacity_is_served(rt: HostRuntime) {
    assert!(rt; matches!(serves_any_capacity(rt.alloc()), Ok(true)));
}
