// Tests of stores over engines: the refusal if an engine fails, and a full log.
use crate::cases::must_be;
use crate::store::case::{Base, Case, LOG, all_hold};
use crate::store::generic::Why::{Fault, Full, NoMemory};
use crate::store::planned_engine::Turn;
use crate::store::script::Line::{self, FourThreads, FromShelf, Get, Put, ToShelf};
use crate::store::script::plays;
use far_store::{ByteLog, EngineStore};
use far_types::Refusal;
use std::alloc::Global;
use std::sync::Wait;
use std::thread::Threads;

static CASES: [Case; 5] = [
    Case {
        name: "a put is refused as its engine fails",
        base: Base::Log(64, &[Turn::Fail, Turn::NoMemory, Turn::Serve, Turn::Fail]),
        lines: &[
            Put(&[1], Err(Fault)),
            Put(&[1], Err(NoMemory)),
            Put(&[1], Ok(0)),
            Put(&[1], Err(Fault)),
            Put(&[1], Ok(1)),
        ],
        ..LOG
    },
    Case {
        name: "a get is refused as its engine fails and leaves nothing",
        base: Base::Log(64, &[Turn::Serve, Turn::Fail, Turn::NoMemory]),
        lines: &[
            Put(&[1, 2], Ok(0)),
            Get(Err(Fault)),
            Get(Err(NoMemory)),
            Get(Ok(&[1, 2])),
        ],
        ..LOG
    },
    // The engine would fail if it were called.
    Case {
        name: "a full store does not ask its engine",
        base: Base::Log(64, &[Turn::Serve, Turn::Serve, Turn::Fail, Turn::Fail]),
        capacity: 2,
        lines: &[
            Put(&[1], Ok(0)),
            Put(&[1], Ok(1)),
            Put(&[1], Err(Full)),
            Put(&[1], Err(Full)),
        ],
        ..LOG
    },
    Case {
        name: "generic callers are served by a log and a shelf",
        capacity: 4,
        lines: &[ToShelf, FromShelf, Put(&[1], Err(Full))],
        ..LOG
    },
    Case {
        name: "four threads read back their own from a log",
        base: Base::Log(320_000, &[]),
        capacity: 40_000,
        lines: &[FourThreads(10_000, 4, 0), Put(&[1], Err(Full))],
        ..LOG
    },
];

#[test]
fn a_store_over_an_engine_replies_as_each_case_says(rt: HostRuntime) {
    all_hold(&rt, rt.alloc(), &CASES);
}

static IN_FIVE_BYTES: [Line; 6] = [
    Put(&[1, 2, 3], Ok(0)),
    Put(&[4, 5, 6], Err(Fault)),
    Put(&[7, 8], Ok(1)),
    Get(Ok(&[7, 8])),
    Put(&[9], Err(Fault)),
    Put(&[], Ok(2)),
];

// Returns whether a store over a log of five bytes returns the expected replies, and has used all five afterwards.
fn uses_all<R: Threads + Wait + Sync + Drop>(
    rt: &R,
    alloc: Global,
    store: &EngineStore<ByteLog, &R>,
) -> bool {
    plays(rt, store, alloc, &IN_FIVE_BYTES) && store.engine().used() == 5
}

// Returns the same for a store, if it could be made.
fn uses_all_of_five<R: Threads + Wait + Sync + Drop>(
    rt: &R,
    alloc: Global,
) -> Result<bool, Refusal> {
    let store = EngineStore::new(rt, alloc, ByteLog::new(alloc, 5)?, 8)?;
    let uses_all = uses_all(rt, alloc, &store);
    drop(store);
    Ok(uses_all)
}

#[test]
fn a_content_that_does_not_fit_into_the_log_leaves_its_space(rt: HostRuntime) {
    must_be(&rt, uses_all_of_five(&rt, rt.alloc()), Ok(true));
}
