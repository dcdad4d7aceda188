// Work beside sessions that edit: objects move, aggregates are registered and scanned, and gauges are read.
use crate::scenes::{Replied, Reply, Step};
use crate::signals::Signals;
use far_shared::Work;
use far_types::Refusal;
use std::thread;

// The number of turns that a session takes at most beside others.
const TURNS: u32 = 1_000_000_000;

// The number of steps that a loop over all objects takes at most.
const STEPS: u32 = 1_000_000;

// The number of aggregates that are registered beside the gauge, and the number of edits between two registrations.
const AGGREGATES: u32 = 4;

const EDITS_BETWEEN: u64 = 2_000;

// The numbers of turns that a worker has taken, and of aggregates that it has registered.
#[derive(Clone, Copy)]
struct Worked {
    turns: u32,
    registered: u32,
}

// Returns whether a work may get this reply while other sessions run. They may overtake it.
fn may_answer(reply: Replied) -> Result<(), Refusal> {
    match reply {
        Ok(_) => Ok(()),
        Err(Refusal::StaleJob) => Ok(()),
        Err(refusal) => Err(refusal),
    }
}

// Returns the number of edits of a reading.
fn edits_in(reply: Replied) -> u64 {
    match reply {
        Ok(Reply::Reading(edits, _, _)) => edits,
        _ => 0,
    }
}

// Returns whether a worker has taken its eight turns for each edit.
fn is_ahead(worked: Worked, edits: u64) -> bool {
    u64::from(worked.turns) >= edits.saturating_mul(8)
}

// Returns whether one more aggregate is to be registered after this many edits.
fn is_due(worked: Worked, edits: u64) -> bool {
    worked.registered < AGGREGATES && edits / EDITS_BETWEEN > u64::from(worked.registered)
}

// The work of one turn: evicts an object of a stripe, and then builds a row group that is pending there, in turn as `build_once` does
// and in the far store.
fn step_at(turn: u32) -> Step {
    let stripe = turn / 2 % 4;
    if turn % 2 == 0 {
        Step::Evacuate(stripe)
    } else if turn % 16 < 8 {
        Step::Build(stripe)
    } else {
        Step::InPhases(Work::Build(stripe))
    }
}

// The next work.
fn next_step(worked: Worked, edits: u64) -> Step {
    if is_due(worked, edits) {
        Step::WatchTotals
    } else {
        step_at(worked.turns)
    }
}

// Returns the counts of a worker after its next step, which got this reply.
fn after(worked: Worked, edits: u64, reply: Replied) -> Result<Worked, Refusal> {
    let registers = u32::from(is_due(worked, edits));
    let next = Worked {
        turns: worked.turns.wrapping_add(1 - registers),
        registered: worked.registered.wrapping_add(registers),
    };
    match may_answer(reply) {
        Ok(()) => Ok(next),
        Err(refusal) => Err(refusal),
    }
}

// Works until this many sessions have ended. Returns the number of aggregates that were registered.
fn work_until<M, F: Fn(&mut M, Step) -> Replied>(
    call: &F,
    me: &mut M,
    signals: &Signals,
    until: u64,
) -> Result<u32, Refusal>
    requires { F.IsAlwaysCallable call.now }
{
    let mut worked = Worked {
        turns: 0,
        registered: 0,
    };
    for _ in 0..TURNS {
        if signals.was_sent(until) {
            return Ok(worked.registered);
        }
        let edits = edits_in(call(me, Step::Gauge(0)));
        if is_ahead(worked, edits) {
            thread::yield_now();
            continue;
        }
        match after(worked, edits, call(me, next_step(worked, edits))) {
            Ok(next) => worked = next,
            Err(refusal) => return Err(refusal),
        }
    }
    Err(Refusal::OutOfRange)
}

// Makes a call until there is nothing to do.
fn until_nothing<M, F: Fn(&mut M, Step) -> Replied>(
    call: &F,
    me: &mut M,
    step: Step,
) -> Result<(), Refusal>
    requires { F.IsAlwaysCallable call.now }
{
    for _ in 0..STEPS {
        match call(me, step) {
            Ok(Reply::Nothing) => return Ok(()),
            Ok(_) => {}
            Err(refusal) => return Err(refusal),
        }
    }
    Err(Refusal::OutOfRange)
}

// Evicts all objects of each stripe, and builds all row groups that are pending there in the far store.
static SETTLING: [Step; 8] = [
    Step::Evacuate(0),
    Step::InPhases(Work::Build(0)),
    Step::Evacuate(1),
    Step::InPhases(Work::Build(1)),
    Step::Evacuate(2),
    Step::InPhases(Work::Build(2)),
    Step::Evacuate(3),
    Step::InPhases(Work::Build(3)),
];

// Makes each of these calls until there is nothing to do.
fn settle<M, F: Fn(&mut M, Step) -> Replied>(
    call: &F,
    me: &mut M,
    steps: &[Step],
) -> Result<(), Refusal>
    requires { F.IsAlwaysCallable call.now }
{
    for step in steps {
        if let Err(refusal) = until_nothing(call, me, *step) {
            return Err(refusal);
        }
    }
    Ok(())
}

// Returns the reply that is reported if two replies differ: the refusal of the first, or else the second.
fn differs(one: Replied, other: Replied) -> Result<bool, Refusal> {
    match (one, other) {
        (Err(refusal), _) => Err(refusal),
        (_, Err(refusal)) => Err(refusal),
        _ => Ok(false),
    }
}

// Returns whether all aggregates have the answer of the gauge.
fn are_alike<M, F: Fn(&mut M, Step) -> Replied>(call: &F, me: &mut M) -> Result<bool, Refusal>
    requires { F.IsAlwaysCallable call.now }
{
    let gauge = call(me, Step::Ask(0));
    for a in 0..AGGREGATES {
        let reply = call(me, Step::Ask(a.wrapping_add(1)));
        if reply != gauge {
            return differs(gauge, reply);
        }
    }
    Ok(gauge.is_ok())
}

// Registers this many totals.
fn register_all<M, F: Fn(&mut M, Step) -> Replied>(
    call: &F,
    me: &mut M,
    aggregates: u32,
) -> Result<(), Refusal>
    requires { F.IsAlwaysCallable call.now }
{
    for _ in 0..aggregates {
        if let Err(refusal) = call(me, Step::WatchTotals) {
            return Err(refusal);
        }
    }
    Ok(())
}

// Registers the remaining totals, evicts all objects, builds all pending row groups in the far store, and returns whether all totals are
// those of the gauge.
fn end_work<M, F: Fn(&mut M, Step) -> Replied>(
    call: &F,
    me: &mut M,
    registered: u32,
) -> Result<bool, Refusal>
    requires { F.IsAlwaysCallable call.now }
{
    let registered = register_all(call, me, AGGREGATES.saturating_sub(registered));
    match registered.and(settle(call, me, &SETTLING)) {
        Ok(()) => are_alike(call, me),
        Err(refusal) => Err(refusal),
    }
}

// Moves objects, registers totals and builds them until this many sessions have ended. Then evicts all objects, builds all pending row
// groups in the far store, and returns whether all totals are those of the gauge.
pub fn work_beside<M, F: Fn(&mut M, Step) -> Replied>(
    call: &F,
    me: &mut M,
    signals: &Signals,
    until: u64,
) -> Result<bool, Refusal>
    requires { F.IsAlwaysCallable call.now }
{
    match work_until(call, me, signals, until) {
        Ok(registered) => end_work(call, me, registered),
        Err(refusal) => Err(refusal),
    }
}

// Returns whether a reading of a stripe is later than another, or the same.
fn is_later(reading: Replied, before: Replied) -> bool {
    edits_in(reading) > edits_in(before) || reading == before
}

// Reads the gauges, one after another, until this many sessions have ended. Returns whether no reading went back.
pub fn read_beside<M, F: Fn(&mut M, Step) -> Replied>(
    call: &F,
    me: &mut M,
    signals: &Signals,
    until: u64,
) -> Result<bool, Refusal>
    requires { F.IsAlwaysCallable call.now }
{
    let mut before: [Replied; 4] = [Ok(Reply::Reading(0, 0, 0)); 4];
    for turn in 0..TURNS {
        let stripe = turn % 4;
        let reading = call(me, Step::Gauge(stripe));
        if !is_later(reading, before[stripe as usize]) {
            return differs(reading, before[stripe as usize]);
        }
        before[stripe as usize] = reading;
        if signals.was_sent(until) {
            return Ok(true);
        }
    }
    Ok(false)
}

// Registers this many totals, and then sends a signal. Returns whether each was registered.
pub fn register_beside<M, F: Fn(&mut M, Step) -> Replied>(
    call: &F,
    me: &mut M,
    signals: &Signals,
    aggregates: u32,
) -> Result<bool, Refusal>
    requires { F.IsAlwaysCallable call.now }
{
    let registered = register_all(call, me, aggregates);
    signals.send();
    match registered {
        Ok(()) => Ok(true),
        Err(refusal) => Err(refusal),
    }
}

// Asks the gauge over all stripes, which have no row, until this many sessions have ended. Returns whether each answer was right.
pub fn ask_beside<M, F: Fn(&mut M, Step) -> Replied>(
    call: &F,
    me: &mut M,
    signals: &Signals,
    until: u64,
) -> Result<bool, Refusal>
    requires { F.IsAlwaysCallable call.now }
{
    for _ in 0..TURNS {
        match call(me, Step::Ask(0)) {
            Ok(Reply::Totals(0, 0)) => {}
            Ok(_) => return Ok(false),
            Err(refusal) => return Err(refusal),
        }
        if signals.was_sent(until) {
            return Ok(true);
        }
    }
    Ok(false)
}
