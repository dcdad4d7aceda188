//! Steps that one call of `run` serves. The call is refused before any step or not at all, so it is made again if it runs
//! out of memory.
use crate::answers::{Due, is_reply};
use crate::call::Value::{Int, Missing};
use crate::call::{Call, TOTALS, step};
use crate::opening::{A_SEGMENT_EACH, SOUND, store, world};
use crate::script::Calls;
use far_frame::{Reply, Step, World, run};
use far_store::FarStore;
use far_types::{Kind, Refusal};
use std::alloc::Global;
use std::sync::Wait;

/// Two row groups are evicted, and then scanned in the store into an aggregate that was registered later.
const BUILT: Calls = &[
    (Call::Insert(&[Int(1)]), Due::Place(0)),
    (Call::Insert(&[Int(2)]), Due::Place(1)),
    (Call::Insert(&[Int(3)]), Due::Place(2)),
    (Call::Insert(&[Int(4)]), Due::Place(3)),
    (Call::Insert(&[Int(5)]), Due::Place(4)),
    (Call::Insert(&[Int(6)]), Due::Place(5)),
    (Call::Insert(&[Int(7)]), Due::Place(6)),
    (Call::Insert(&[Int(8)]), Due::Place(7)),
    (Call::Evac(0, 0), Due::Job(0)),
    (Call::Carry(0), Due::Done),
    (Call::Commit(0), Due::Done),
    (Call::Evac(0, 1), Due::Job(1)),
    (Call::Carry(1), Due::Done),
    (Call::Commit(1), Due::Done),
    (Call::Watch(TOTALS), Due::Aggregate(0)),
    (Call::Ask(0), Due::Refused(Refusal::Building(2))),
    (
        Call::Scan(0, 0),
        Due::Refused(Refusal::Absent {
            column: 0,
            group: 0,
        }),
    ),
    (Call::Offload(0, 0), Due::Job(2)),
    (Call::Carry(2), Due::Done),
    (Call::Merge(2), Due::Done),
    (Call::Ask(0), Due::Refused(Refusal::Building(1))),
    (Call::Merge(2), Due::Refused(Refusal::StaleJob)),
    (Call::Offload(0, 1), Due::Job(3)),
    (Call::Carry(3), Due::Done),
    (Call::Merge(3), Due::Done),
    (Call::Ask(0), Due::Lines(&[(Missing, 8, 36)])),
];

/// Returns calls as steps.
fn steps(alloc: Global, calls: Calls) -> Result<Vec<Step>, Refusal> {
    let mut steps = Vec::new(alloc);
    for (call, _) in calls {
        steps.push(step(alloc, *call)?)?;
    }
    Ok(steps)
}

// Runs steps, if they are few and few faults were met before.
fn run_few<S: FarStore>(world: &mut World<S>, steps: Vec<Step>) -> Result<Vec<Reply>, Refusal> {
    if world.faults() < 9 && steps.len() < 99 {
        run(world, steps)
    } else {
        Err(Refusal::FarFault)
    }
}

/// Returns the replies of a run of calls.
fn replies_once<S: FarStore>(
    alloc: Global,
    world: &mut World<S>,
    calls: Calls,
) -> Result<Vec<Reply>, Refusal> {
    match steps(alloc, calls) {
        Ok(steps) => run_few(world, steps),
        Err(refusal) => Err(refusal),
    }
}

/// Returns the same, from a second run if the first is refused.
fn replies<S: FarStore>(
    alloc: Global,
    world: &mut World<S>,
    calls: Calls,
) -> Result<Vec<Reply>, Refusal> {
    match replies_once(alloc, world, calls) {
        Err(Refusal::NoMemory) => replies_once(alloc, world, calls),
        replies => replies,
    }
}

/// Returns the index of the first unexpected reply, for row groups of this size. Refused with `NoMemory` (1) if a step ran
/// out of memory.
fn first_wrong_in(replies: &[Reply], calls: Calls, size: u32) -> Result<Option<usize>, Refusal> {
    for (at, (_, due)) in calls.iter().enumerate() {
        match replies.get(at) {
            Some(Reply::Refused(Refusal::NoMemory)) => return Err(Refusal::NoMemory),
            Some(reply) if is_reply(reply, *due, size) => {}
            _ => return Ok(Some(at)),
        }
    }
    if replies.len() == calls.len() {
        Ok(None)
    } else {
        Ok(Some(calls.len()))
    }
}

/// Returns the same for these replies, if there are any.
fn first_wrong(replies: Result<Vec<Reply>, Refusal>) -> Result<Option<usize>, Refusal> {
    match replies {
        Ok(replies) => first_wrong_in(&replies, BUILT, A_SEGMENT_EACH.group),
        Err(refusal) => Err(refusal),
    }
}

/// Returns the same for a run on a new table over a store, if that was made.
fn first_wrong_over<S: FarStore>(
    alloc: Global,
    store: Result<S, Refusal>,
) -> Result<Option<usize>, Refusal> {
    match world(alloc, &[Kind::Int], A_SEGMENT_EACH, store) {
        Ok(mut world) => {
            let replies = replies(alloc, &mut world, BUILT);
            drop(world);
            first_wrong(replies)
        }
        Err(refusal) => Err(refusal),
    }
}

/// Returns the same over a new store.
fn play_once<R: Wait + Sync + Drop + Copy>(rt: R, alloc: Global) -> Result<Option<usize>, Refusal> {
    first_wrong_over(alloc, store(rt, alloc, SOUND))
}

/// Returns the same, with a second run if memory runs out.
fn play<R: Wait + Sync + Drop + Copy>(rt: R, alloc: Global) -> Result<Option<usize>, Refusal> {
    match play_once(rt, alloc) {
        Err(Refusal::NoMemory) => play_once(rt, alloc),
        played => played,
    }
}

#[test]
fn a_run_gives_a_reply_to_each_step(rt: HostRuntime) {
    assert!(rt; play(&rt, rt.alloc()) == Ok(None));
}
