// Calls on objects.
ghost use Rattle.std.specs.Prelude.{◌≡◌, ◌<◌, ◌^◌, ℕ, List, length, All, IfOk, OnOk};
ghost use Rattle.far_scopes.specs.Movement.{AreHere};

use crate::fixtures::{bring_back, digest_of, send_away};
use crate::scopes::script::{Call, Change, Fact, WRONG, found};
use crate::writing::write_over;
use far_scopes::{Objects, Replacement, Scope};
use far_store::{FarStore, FarTickets};
use far_types::{Name, Refusal};
use std::alloc::Global;

/// Makes a call, again if it runs out of memory, and returns its last reply. Returns `WRONG` if a refused call changed the
/// objects.
pub fn last_reply<S: FarStore>(
    alloc: Global,
    store: &S,
    objects: &mut Objects<i64, S>,
    call: &Call,
) -> Result<(), Refusal>
    requires { AreHere S.is_of (S.store_id store.now) objects.old }
    ensures { AreHere S.is_of (S.store_id store.now) objects.new }
{
    let before = digest_of(objects);
    match reply(alloc, store, objects, call) {
        Err(_) if digest_of(objects) != before => Err(WRONG),
        Err(Refusal::NoMemory) => reply(alloc, store, objects, call),
        reply => reply,
    }
}

fn reply<S: FarStore>(
    alloc: Global,
    store: &S,
    objects: &mut Objects<i64, S>,
    call: &Call,
) -> Result<(), Refusal>
    requires { AreHere S.is_of (S.store_id store.now) objects.old }
    ensures { AreHere S.is_of (S.store_id store.now) objects.new }
{
    match call {
        Call::Create(group, list) => create(objects, *group, list),
        Call::On(o, change) => change_one(alloc, store, objects, *o, change),
        Call::Find(o, fact) => find(store, objects, *o, fact),
        Call::PinTogether(listed, pins) => pin_three(alloc, objects, *listed, *pins, false),
        Call::PinAndUnpin(listed, pins) => pin_three(alloc, objects, *listed, *pins, true),
        Call::Compact(segment) => objects.compact(alloc, *segment),
        Call::Coldest(o) => found(objects.coldest() == *o),
    }
}

fn create<S: FarTickets>(
    objects: &mut Objects<i64, S>,
    group: u32,
    list: &[i64],
) -> Result<(), Refusal>
    ensures { (id : List ℕ) → AreHere S.is_of id objects.old → AreHere S.is_of id objects.new }
{
    if list.is_empty() || objects.count() >= 8 {
        return Err(WRONG);
    }
    objects.create(Name { column: 0, group }, list)?;
    Ok(())
}

fn change_one<S: FarStore>(
    alloc: Global,
    store: &S,
    objects: &mut Objects<i64, S>,
    o: u32,
    change: &Change,
) -> Result<(), Refusal>
    requires { AreHere S.is_of (S.store_id store.now) objects.old }
    ensures { AreHere S.is_of (S.store_id store.now) objects.new }
{
    if o >= objects.count() {
        return Err(WRONG);
    }
    match change {
        Change::Write(list) => write_over(objects, o, list),
        Change::Give([]) => Err(WRONG),
        Change::Give(list) => give(objects, replacement(alloc, o, list)?),
        Change::Pin(times) => pin_often(objects, o, *times),
        Change::Leave => send_away(alloc, objects, store, o),
        Change::Arrive => bring_back(alloc, objects, store, o),
        Change::Touch => {
            objects.touch(o);
            Ok(())
        }
    }
}

fn pin_often<S: FarTickets>(
    objects: &mut Objects<i64, S>,
    o: u32,
    times: u32,
) -> Result<(), Refusal>
    ensures { (id : List ℕ) → AreHere S.is_of id objects.old → AreHere S.is_of id objects.new }
{
    for _ in 0..times {
        if o >= objects.count() {
            return Err(WRONG);
        }
        objects.pin(o)?;
    }
    Ok(())
}

/// Pins three objects as a scope, and closes it, which must remove this many pins. With `unpins`, removes a pin of the
/// first object before the close.
fn pin_three<S: FarTickets>(
    alloc: Global,
    objects: &mut Objects<i64, S>,
    listed: [u32; 3],
    pins: u32,
    unpins: bool,
) -> Result<(), Refusal>
    ensures { (id : List ℕ) → AreHere S.is_of id objects.old → AreHere S.is_of id objects.new }
{
    let count = objects.count();
    if listed[0] >= count || listed[1] >= count || listed[2] >= count {
        return Err(WRONG);
    }
    if unpins {
        return pin_and_unpin(alloc, objects, listed[0], &listed, pins);
    }
    pin_together(alloc, objects, &listed, pins)
}

fn pin_together<S: FarTickets>(
    alloc: Global,
    objects: &mut Objects<i64, S>,
    listed: &[u32],
    pins: u32,
) -> Result<(), Refusal>
    requires within { All (λ o. o < length objects.old.records) listed.now }
    requires few { length listed.now < 2 ^ 32 }
    ensures { (id : List ℕ) → AreHere S.is_of id objects.old → AreHere S.is_of id objects.new }
{
    let scope = enter(alloc, objects, listed)?;
    found(objects.close(scope) == pins)
}

fn pin_and_unpin<S: FarTickets>(
    alloc: Global,
    objects: &mut Objects<i64, S>,
    first: u32,
    listed: &[u32],
    pins: u32,
) -> Result<(), Refusal>
    requires first { first < length objects.old.records }
    requires within { All (λ o. o < length objects.old.records) listed.now }
    requires few { length listed.now < 2 ^ 32 }
    ensures { (id : List ℕ) → AreHere S.is_of id objects.old → AreHere S.is_of id objects.new }
{
    let scope = enter(alloc, objects, listed)?;
    unpin_one(objects, first);
    found(objects.close(scope) == pins)
}

/// Removes a pin of an object, if it has one. Keeps the number of objects.
fn unpin_one<S: FarTickets>(objects: &mut Objects<i64, S>, o: u32)
    requires within { o < length objects.old.records }
    ensures count { length objects.new.records ≡ length objects.old.records }
    ensures store { (id : List ℕ) → AreHere S.is_of id objects.old → AreHere S.is_of id objects.new }
{
    objects.unpin(o).ok();
}

/// Pins objects as a scope. Keeps the number of objects. Refused as `Objects::enter` is.
fn enter<S: FarTickets>(
    alloc: Global,
    objects: &mut Objects<i64, S>,
    listed: &[u32],
) -> Result<Scope, Refusal>
    requires within { All (λ o. o < length objects.old.records) listed.now }
    requires few { length listed.now < 2 ^ 32 }
    ensures scope { IfOk result (λ scope. scope ≡ listed.now) }
    ensures count { OnOk result (length objects.new.records ≡ length objects.old.records) }
    ensures store { (id : List ℕ) → AreHere S.is_of id objects.old → AreHere S.is_of id objects.new }
{
    let scope = objects.enter(alloc, listed)?;
    Ok(scope)
}

/// Replaces an object's list, by the call that can replace several.
fn give<S: FarTickets>(
    objects: &mut Objects<i64, S>,
    replacement: Replacement<i64>,
) -> Result<(), Refusal>
    requires some { 0 < length replacement.list.items }
    requires within { replacement.object < length objects.old.records }
    ensures { (id : List ℕ) → AreHere S.is_of id objects.old → AreHere S.is_of id objects.new }
{
    objects.replace_all(&[replacement])
}

/// Returns the replacement of an object's list by a list.
fn replacement(alloc: Global, object: u32, list: &[i64]) -> Result<Replacement<i64>, Refusal>
    ensures object { IfOk result (λ r. r.object ≡ object) }
    ensures list { IfOk result (λ r. r.list.items ≡ list.now) }
{
    Ok(Replacement {
        object,
        list: list.to_vec(alloc)?,
    })
}

/// Returns `Ok` if a fact holds for an object, and `WRONG` otherwise.
fn find<S: FarStore>(
    store: &S,
    objects: &Objects<i64, S>,
    o: u32,
    fact: &Fact,
) -> Result<(), Refusal>
    requires { AreHere S.is_of (S.store_id store.now) objects.now }
{
    let count = objects.count();
    if o >= count {
        return Err(WRONG);
    }
    match fact {
        Fact::List(list) => found(objects.lend(o)? == *list),
        Fact::PutBefore(p) if *p < count => found(is_put_before(store, objects, o, *p)),
        fact => found(is_so_of(objects, o, fact)),
    }
}

/// Returns whether a fact holds for an object. One call on the object checks it.
fn is_so_of<S: FarTickets>(objects: &Objects<i64, S>, o: u32, fact: &Fact) -> bool
    requires { o < length objects.now.records }
{
    match fact {
        Fact::Version(times) => objects.version(o) == *times,
        Fact::Pins(pins) => objects.pins(o) == *pins,
        Fact::Dirty(is_dirty) => objects.word(o).dirty() == *is_dirty,
        _ => false,
    }
}

fn is_put_before<S: FarStore>(store: &S, objects: &Objects<i64, S>, o: u32, p: u32) -> bool
    requires here { AreHere S.is_of (S.store_id store.now) objects.now }
    requires one { o < length objects.now.records }
    requires other { p < length objects.now.records }
{
    match (objects.ticket(o), objects.ticket(p)) {
        (Some(one), Some(other)) => store.number(one) < store.number(other),
        _ => false,
    }
}
