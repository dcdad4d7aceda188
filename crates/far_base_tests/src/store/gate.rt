// Tests of what a gate does to a put, which no clause says.
use crate::store::generic::Why::{self, Fault};
use crate::store::generic::put;
use crate::store::script::Line::{self, Put};
use crate::store::script::plays;
use crate::store::threads::had;
use far_store::{AgentStore, FarStore, GateStore};
use far_types::Refusal;
use std::alloc::Global;
use std::process::Abort;
use std::sync::Wait;
use std::thread::{self, Threads};

// What opens a gate.
#[derive(Clone, Copy)]
enum Opener {
    // A call of `release`.
    Release,
    // The second put.
    SecondPut,
}

// A trial on a gate.
#[derive(Clone, Copy)]
enum Trial {
    // These calls get their replies in order, and a put was held at the gate.
    Plays(&'static [Line]),
    // A put that is held is served after the release, and the next one at once.
    ServesTheReleased,
    // Two threads put once each: this many meet a fault, and this many are served.
    AnswersTwo(usize, usize),
}

fn gated<S: FarStore>(store: S, opener: Opener) -> GateStore<S> {
    match opener {
        Opener::Release => GateStore::new(store),
        Opener::SecondPut => GateStore::two(store),
    }
}

// Waits until a put is held, and then opens the gate. Returns whether a put came.
fn release_when_held<S>(gate: &GateStore<S>) -> bool {
    for _ in 0..1_000_000 {
        if gate.held() {
            gate.release();
            return true;
        }
        thread::yield_now();
    }
    false
}

// Returns why a put is refused, or `None` if it is served.
fn unserved<S: FarStore>(store: &S, alloc: Global) -> Option<Why> {
    put(store, alloc, &[1]).err()
}

// Returns whether a put that is held is served after the release, and the next one at once.
fn serves_the_released<R: Threads, S: FarStore>(
    rt: &R,
    gate: &GateStore<S>,
    alloc: Global,
) -> bool {
    let is_held_before = gate.held();
    let (held, came) = thread::join(rt, || unserved(gate, alloc), || release_when_held(gate));
    !is_held_before && came && [held, unserved(gate, alloc)] == [None, None]
}

// Returns the results of two puts at once.
fn two_at_once<R: Threads, S: FarStore>(
    rt: &R,
    gate: &GateStore<S>,
    alloc: Global,
) -> [Option<Why>; 2] {
    let (one, other) = thread::join(rt, || unserved(gate, alloc), || unserved(gate, alloc));
    [one, other]
}

// Returns whether a trial passes on a gate.
fn comes_out<R: Threads + Sync, S: FarStore>(
    rt: &R,
    gate: &GateStore<S>,
    alloc: Global,
    trial: Trial,
) -> bool {
    match trial {
        Trial::Plays(lines) => plays(rt, gate, alloc, lines) && gate.held(),
        Trial::ServesTheReleased => serves_the_released(rt, gate, alloc),
        Trial::AnswersTwo(faults, served) => {
            let answers = two_at_once(rt, gate, alloc);
            had(&answers, &Some(Fault)) == faults && had(&answers, &None) == served
        }
    }
}

// Returns whether a trial passes on a gate over a store made for it.
fn comes_out_on<R: Threads + Sync, S: FarStore>(
    rt: &R,
    alloc: Global,
    store: Result<S, Refusal>,
    opener: Opener,
    trial: Trial,
) -> Result<bool, Refusal> {
    match store {
        Ok(store) => Ok(comes_out(rt, &gated(store, opener), alloc, trial)),
        Err(refusal) => Err(refusal),
    }
}

// A trial on a gate over an agent, with a name.
type Case = (&'static str, Opener, Trial);

// Ends the test at the first trial that fails.
fn all_come_out<R: Abort + Threads + Wait + Sync + Drop>(rt: &R, alloc: Global, cases: &[Case]) {
    for (name, opener, trial) in cases {
        let came_out = comes_out_on(rt, alloc, AgentStore::new(rt, alloc, 8), *opener, *trial);
        assert!(rt; came_out == Ok(true), "{name}");
    }
}

// The first put is held until it becomes a fault, and the second is served.
const UNRELEASED: Trial = Trial::Plays(&[Put(&[1], Err(Fault)), Put(&[1], Ok(0))]);

static CASES: [Case; 5] = [
    (
        "a held put goes on when it is released",
        Opener::Release,
        Trial::ServesTheReleased,
    ),
    (
        "a second put passes a gate that waits for release and does not open it",
        Opener::Release,
        Trial::AnswersTwo(1, 1),
    ),
    (
        "the second put opens the gate of two",
        Opener::SecondPut,
        Trial::AnswersTwo(0, 2),
    ),
    (
        "a put that no second releases is a fault",
        Opener::SecondPut,
        UNRELEASED,
    ),
    ("nobody releases a put", Opener::Release, UNRELEASED),
];

#[test]
fn a_gate_over_an_agent_opens_as_each_case_says(rt: HostRuntime) {
    all_come_out(&rt, rt.alloc(), &CASES);
}
