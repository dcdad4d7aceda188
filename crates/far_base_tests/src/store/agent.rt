// Tests of the agent store: worked examples, four threads at once, and failed allocations.
use crate::store::case::{AGENT, Case, all_hold};
use crate::store::generic::Why::Full;
use crate::store::script::Line::{Fill, FourThreads, FromShelf, Get, Put, StaysFull, ToShelf};

static CASES: [Case; 6] = [
    Case {
        name: "a store of capacity one takes one content and keeps it",
        capacity: 1,
        lines: &[
            Put(&[0x61], Ok(0)),
            Get(Ok(&[0x61])),
            Put(&[1], Err(Full)),
            Get(Ok(&[0x61])),
        ],
        ..AGENT
    },
    Case {
        name: "numbers are drawn from 0 up to the capacity",
        capacity: 100,
        lines: &[Fill(100), StaysFull(3, 1)],
        ..AGENT
    },
    // A store that kept these contents would then have 1,000 GiB.
    Case {
        name: "a full store takes no memory for what it refuses",
        capacity: 0,
        lines: &[StaysFull(1_000_000, 1 << 20)],
        ..AGENT
    },
    Case {
        name: "a full store with a content takes no memory for what it refuses",
        capacity: 1,
        lines: &[
            Put(&[0x61], Ok(0)),
            StaysFull(1_000_000, 1 << 20),
            Get(Ok(&[0x61])),
        ],
        ..AGENT
    },
    Case {
        name: "generic callers are served by an agent and a shelf",
        capacity: 4,
        lines: &[ToShelf, FromShelf, Put(&[1], Err(Full))],
        ..AGENT
    },
    Case {
        name: "a call that ran out of memory can be made again",
        capacity: 2,
        lines: &[Put(&[1, 2, 3], Ok(0)), Get(Ok(&[1, 2, 3]))],
        ..AGENT
    },
];

#[test]
fn an_agent_replies_as_each_case_says(rt: HostRuntime) {
    all_hold(&rt, rt.alloc(), &CASES);
}

static FILLED_BY_FOUR: [Case; 1] = [Case {
    name: "four threads fill a store together, and each reads back all of its own",
    capacity: 40_000,
    lines: &[FourThreads(10_000, 4, 0), Put(&[1], Err(Full))],
    ..AGENT
}];

#[test]
fn four_threads_read_back_their_own(rt: HostRuntime) {
    all_hold(&rt, rt.alloc(), &FILLED_BY_FOUR);
}
