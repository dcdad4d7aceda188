//! Objects of a table that are evicted to one log of bytes, and fetched from it.
use crate::answers::Due;
use crate::call::Call;
use crate::call::Value::{Int, Missing};
use crate::opening::{NUMBERS, SOUND, with_next};
use crate::script::{Calls, Script, play_over};
use far_store::{ByteLog, EngineStore, FarStore, Meter};
use far_types::Refusal;
use std::alloc::Global;
use std::sync::Wait;
use std::thread::Threads;

/// Two row groups are evicted and fetched. Then one is written, and stays, since the log has no space for its new form.
const COME_AND_GO: Calls = &[
    (Call::Evac(0, 0), Due::Job(0)),
    (Call::Carry(0), Due::Done),
    (Call::Commit(0), Due::Done),
    (Call::Insert(&[Int(8)]), Due::Place(3)),
    (Call::Evac(0, 1), Due::Job(1)),
    (Call::Carry(1), Due::Done),
    (Call::Commit(1), Due::Done),
    (Call::Ask(0), Due::Lines(&[(Missing, 4, 26)])),
    (Call::Fetch(0, 0), Due::Job(2)),
    (Call::Carry(2), Due::Done),
    (Call::Install(2), Due::Done),
    (Call::Fetch(0, 1), Due::Job(3)),
    (Call::Carry(3), Due::Done),
    (Call::Install(3), Due::Done),
    (
        Call::Lend(0, 0, 4),
        Due::Lent(
            0,
            &[
                (Int(5), true),
                (Int(6), true),
                (Int(7), true),
                (Int(8), true),
            ],
        ),
    ),
    // A clean object has its bytes in the log already.
    (Call::Evac(0, 1), Due::Job(4)),
    (Call::Carry(4), Due::Done),
    (Call::Commit(4), Due::Done),
    (Call::Set(0, 0, Int(9)), Due::Done),
    (Call::Evac(0, 0), Due::Job(5)),
    (Call::Carry(5), Due::Refused(Refusal::FarFault)),
    (Call::Ask(0), Due::Lines(&[(Missing, 4, 30)])),
    (Call::Faults(1), Due::Done),
];

/// Space for two far forms of two numbers, of 22 bytes each.
const CAPACITY: usize = 44;

static SCRIPT: Script = Script {
    name: "objects come and go over one log",
    opening: NUMBERS,
    plans: &[SOUND],
    calls: COME_AND_GO,
    then: &[],
};

/// Returns a store that has put no bytes once, so that its next puts find memory for their keys.
fn with_keys<S: FarStore>(alloc: Global, made: Result<S, Refusal>) -> Result<S, Refusal> {
    match made {
        Ok(store) => match store.put(alloc, &mut Meter::new(), &[]).err() {
            None => Ok(store),
            Some(refusal) => {
                drop(store);
                Err(refusal)
            }
        },
        Err(refusal) => Err(refusal),
    }
}

/// Returns a store over a log.
fn log_store<'a, R: Wait + Sync>(
    rt: &'a R,
    alloc: Global,
) -> Result<EngineStore<ByteLog, &'a R>, Refusal> {
    match ByteLog::new(alloc, CAPACITY) {
        Ok(log) => with_keys(alloc, EngineStore::new(rt, alloc, log, SOUND.capacity)),
        Err(_) => Err(Refusal::NoMemory),
    }
}

/// Returns the index of the first call over a new log that does not reply as expected.
fn first_wrong_once<R: Threads + Wait + Sync>(
    rt: &R,
    alloc: Global,
) -> Result<Option<usize>, Refusal> {
    let stores = with_next(Ok(Vec::new(alloc)), log_store(rt, alloc));
    play_over(rt, alloc, stores, &SCRIPT)
}

/// Returns the same, with a second run if memory runs out.
fn first_wrong<R: Threads + Wait + Sync>(rt: &R, alloc: Global) -> Result<Option<usize>, Refusal> {
    match first_wrong_once(rt, alloc) {
        Err(Refusal::NoMemory) => first_wrong_once(rt, alloc),
        wrong => wrong,
    }
}

#[test]
fn objects_of_a_table_come_and_go_over_one_log(rt: HostRuntime) {
    assert!(rt; first_wrong(&rt, rt.alloc()) == Ok(None));
}
