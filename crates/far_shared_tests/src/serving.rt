// The calls of a session.
ghost use Rattle.std.specs.Prelude.{◌≡◌};

use crate::gates::{Gated, awaits_held};
use crate::looking::look;
use crate::phases::complete_work;
use crate::plans::{all_numbers, keyed_row, row_of};
use crate::replies::{
    answered, answered_by_key, applied, built, done, moved, numbered, read, waited,
};
use crate::scenes::{Replied, Reply, Step};
use crate::signals::Signals;
use crate::workers::run;
use far_sessions::{PlanTag, Session};
use far_shared::{Shared, TableTag};
use far_store::{FarStore, FarTickets, Meter};
use far_types::{Cell, Edit, Fold, Refusal, Spec};
use std::alloc::Global;
use std::sync::Wait;
use std::thread::Threads;

// Returns the edit that sets the number of a place.
fn setting(place: u32, number: i64) -> Edit {
    Edit::Set {
        place,
        column: 0,
        cell: Cell::Int(number),
    }
}

// Returns the stripe and the edit of a call that makes one.
fn edit_of(alloc: Global, step: Step) -> Result<(u32, Edit), Refusal> {
    match step {
        Step::Insert(stripe, number) => Ok((stripe, Edit::Insert(row_of(alloc, number)?))),
        Step::InsertKeyed(stripe, key) => Ok((stripe, Edit::Insert(keyed_row(alloc, key)?))),
        Step::Set(stripe, place, number) => Ok((stripe, setting(place, number))),
        Step::Remove(stripe, place) => Ok((stripe, Edit::Remove(place))),
        _ => Err(Refusal::OutOfRange),
    }
}

// Makes the edit of a call.
fn edit<N: PlanTag, B: TableTag, S: FarTickets, R: Wait>(
    rt: &R,
    alloc: Global,
    shared: &Shared<N, B, S>,
    me: &mut Session<B>,
    step: Step,
) -> Replied {
    match edit_of(alloc, step) {
        Ok((stripe, edit)) => applied(shared.apply(rt, me, stripe, edit)),
        Err(refusal) => Err(refusal),
    }
}

// Returns the aggregate that a call registers.
fn spec_of(alloc: Global, step: Step) -> Spec {
    match step {
        Step::WatchTotals => all_numbers(alloc, Fold::Totals, None),
        Step::WatchByKey => all_numbers(alloc, Fold::Totals, Some(1)),
        _ => all_numbers(alloc, Fold::Extrema, None),
    }
}

// Makes a call that needs no store, and returns its reply. Calls that are not named make an edit.
fn serve_here<N: PlanTag, B: TableTag, S: FarTickets, R: Wait>(
    rt: &R,
    alloc: Global,
    shared: &Shared<N, B, S>,
    signals: &Signals,
    me: &mut Session<B>,
    step: Step,
) -> Replied {
    match step {
        Step::Gauge(stripe) => read(shared.cells().gauge(rt, me, stripe)),
        Step::Lend(stripe) => look(rt, shared, signals, stripe, None),
        Step::Hold(stripe, times) => look(rt, shared, signals, stripe, Some(times)),
        Step::Ask(a) => answered(shared.ask_all(rt, a)),
        Step::AskByKey(a) => answered_by_key(shared.ask_all(rt, a)),
        Step::Watch | Step::WatchTotals | Step::WatchByKey => numbered(shared.watch_all(
            rt,
            spec_of(alloc, step),
        )),
        _ => edit(rt, alloc, shared, me, step),
    }
}

// Makes a call that moves an object or builds a row group, and returns its reply.
fn move_or_build<N: PlanTag, B: TableTag, S: FarStore, R: Wait>(
    rt: &R,
    alloc: Global,
    shared: &Shared<N, B, S>,
    store: &S,
    step: Step,
) -> Replied
    requires store { S.store_id store.now ≡ B.store }
{
    let mut meter = Meter::new();
    match step {
        Step::Evacuate(stripe) | Step::EvacuateHeld(stripe) => moved(shared.evacuate_once(
            rt, stripe, store, &mut meter,
        )),
        Step::Fetch(stripe, group) => done(shared.fetch(rt, stripe, 0, group, store, &mut meter)),
        Step::Build(stripe) => built(shared.build_once(rt, stripe, store, &mut meter)),
        Step::InPhases(work) => complete_work(rt, alloc, shared, store, work),
        _ => Ok(Reply::Nothing),
    }
}

// Waits for signals, or for a put or a get, or sends a signal.
fn wait_or_signal<S: Gated>(store: &S, signals: &Signals, step: Step) -> Replied {
    match step {
        Step::AwaitHeld => waited(awaits_held(store)),
        Step::Await(times) => waited(signals.awaits(times)),
        Step::OpenGate => {
            store.open();
            Ok(Reply::Done)
        }
        _ => {
            signals.send();
            Ok(Reply::Done)
        }
    }
}

// Makes a call and returns its reply.
pub fn serve<
    N: PlanTag + Send + Sync,
    B: TableTag + Send + Sync,
    S: FarStore + Gated,
    R: Threads + Wait + Sync,
>(
    rt: &R,
    alloc: Global,
    shared: &Shared<N, B, S>,
    store: &S,
    signals: &Signals,
    me: &mut Session<B>,
    step: Step,
) -> Replied
    requires store { S.store_id store.now ≡ B.store }
{
    match step {
        Step::AwaitHeld | Step::OpenGate | Step::Signal | Step::Await(_) => wait_or_signal(
            store, signals, step,
        ),
        Step::Evacuate(_)
        | Step::EvacuateHeld(_)
        | Step::Fetch(_, _)
        | Step::Build(_)
        | Step::InPhases(_) => move_or_build(rt, alloc, shared, store, step),
        Step::Run(workers, works) => run(rt, alloc, shared, store, workers, works),
        _ => serve_here(rt, alloc, shared, signals, me, step),
    }
}
