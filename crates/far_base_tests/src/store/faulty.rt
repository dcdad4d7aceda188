// Tests of when a planned fault comes: no clause says it, since no clause knows the value of an atomic.
use crate::store::case::{AGENT, Base, Case, LOG, all_hold};
use crate::store::generic::Why::{Fault, Full, NoMemory};
use crate::store::planned_engine::Turn;
use crate::store::script::Line::{self, FourThreads, Get, Put};

// The numbers of five puts if the first fails, or the third. The put that fails gets none.
const FIRST_FAILS: &[Line] = &[
    Put(&[1], Err(Fault)),
    Put(&[1], Ok(0)),
    Put(&[1], Ok(1)),
    Put(&[1], Ok(2)),
    Put(&[1], Ok(3)),
];

const THIRD_FAILS: &[Line] = &[
    Put(&[1], Ok(0)),
    Put(&[1], Ok(1)),
    Put(&[1], Err(Fault)),
    Put(&[1], Ok(2)),
    Put(&[1], Ok(3)),
];

static CASES: [Case; 6] = [
    Case {
        name: "the first put fails once and its repeat is served",
        failing_put: 1,
        lines: FIRST_FAILS,
        ..AGENT
    },
    Case {
        name: "the planned put does not reach the store under it",
        failing_put: 3,
        lines: THIRD_FAILS,
        ..AGENT
    },
    Case {
        name: "the planned get fails once and leaves nothing",
        failing_get: 2,
        lines: &[
            Put(&[1, 2], Ok(0)),
            Get(Ok(&[1, 2])),
            Get(Err(Fault)),
            Get(Ok(&[1, 2])),
        ],
        ..AGENT
    },
    // The first put and the first get run out of memory, and are not counted.
    Case {
        name: "a call that runs out of memory is not counted",
        base: Base::Log(
            64,
            &[Turn::NoMemory, Turn::Serve, Turn::Serve, Turn::NoMemory],
        ),
        failing_put: 2,
        failing_get: 2,
        lines: &[
            Put(&[1, 2], Err(NoMemory)),
            Put(&[1, 2], Ok(0)),
            Put(&[1, 2], Err(Fault)),
            Put(&[1, 2], Ok(1)),
            Get(Err(NoMemory)),
            Get(Ok(&[1, 2])),
            Get(Err(Fault)),
            Get(Ok(&[1, 2])),
        ],
        ..LOG
    },
    Case {
        name: "a put into a full store is counted",
        capacity: 1,
        failing_put: 3,
        lines: &[
            Put(&[1], Ok(0)),
            Put(&[1], Err(Full)),
            Put(&[1], Err(Fault)),
            Put(&[1], Err(Full)),
        ],
        ..AGENT
    },
    Case {
        name: "one of four threads meets the planned fault",
        capacity: 4_000,
        failing_put: 2_000,
        lines: &[FourThreads(1_000, 3, 1)],
        ..AGENT
    },
];

#[test]
fn a_faulty_store_fails_where_each_case_says(rt: HostRuntime) {
    all_hold(&rt, rt.alloc(), &CASES);
}
