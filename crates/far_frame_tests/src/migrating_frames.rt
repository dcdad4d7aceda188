//! Tables that move to another store by a call on the table itself, or are returned because that store is full: rows and
//! answers do not change.
ghost use Rattle.std.specs.Prelude.{ℕ, List};
ghost use Rattle.far_rows.specs.Jobs.{AreAt};

use crate::answers::Due;
use crate::call::Value::Missing;
use crate::opening::{FOUR_SEGMENTS, Plan, SOUND, frame, stores};
use crate::script::{is_due, recounted, replied};
use crate::two_tables::{Checked, End, both, carried, insert, watch_totals};
use far_frame::{Frame, migrate};
use far_store::{FarStore, FarTickets, Meter};
use far_types::{Kind, Refusal};
use std::alloc::Global;
use std::sync::Wait;
use std::thread::Threads;

/// A store without space.
const FULL: Plan = Plan {
    capacity: 0,
    ..SOUND
};

/// The aggregate's answer, and the result of a recount, which reads the row group that is away.
const TOTAL: Due<'static> = Due::Lines(&[(Missing, 3, 18)]);

/// Evicts the object of the first row group.
fn send_away<S: FarStore>(alloc: Global, frame: &mut Frame<S>, store: &S) -> Result<(), Refusal>
    requires here { AreAt S.is_of (S.store_id store.now) frame.old.rows }
    ensures { AreAt S.is_of (S.store_id store.now) frame.new.rows }
{
    match carried(alloc, frame, store, End::Commit) {
        Ok(job) => {
            let sent = frame.commit(store, &job);
            drop(job);
            sent
        }
        Err(refusal) => Err(refusal),
    }
}

// Inserts three rows.
fn insert_rows<S: FarTickets>(alloc: Global, frame: &mut Frame<S>) -> Result<(), Refusal>
    ensures { (id : List ℕ) → AreAt S.is_of id frame.old.rows → AreAt S.is_of id frame.new.rows }
{
    let first = insert(alloc, frame, 5);
    let second = insert(alloc, frame, 6);
    first.and(second).and(insert(alloc, frame, 7))
}

/// Inserts three rows, registers an aggregate, and evicts the first row group. The second has no copy in the store.
fn fill<S: FarStore>(alloc: Global, frame: &mut Frame<S>, store: &S) -> Result<(), Refusal>
    requires here { AreAt S.is_of (S.store_id store.now) frame.old.rows }
    ensures { AreAt S.is_of (S.store_id store.now) frame.new.rows }
{
    let watched = watch_totals(alloc, frame);
    let inserted = insert_rows(alloc, frame);
    watched.and(inserted).and(send_away(alloc, frame, store))
}

/// Returns whether a table has its rows and answers, and one of its row groups is away. Its move must have been refused for
/// the expected reason, or not at all.
fn is_same<S: FarStore, R: Threads + Sync>(
    rt: &R,
    frame: &Frame<S>,
    store: &S,
    refused: Option<Refusal>,
    due: Option<Refusal>,
) -> Checked
    requires here { AreAt S.is_of (S.store_id store.now) frame.now.rows }
{
    let is_away = frame.may_evac(0, 0).is_err() && frame.may_evac(0, 1).is_ok();
    let asked = is_due(replied(frame.ask(0)), TOTAL, 1);
    let recounted = is_due(recounted(rt, frame, store, 0, 1), TOTAL, 1);
    match refused {
        Some(Refusal::NoMemory) => Err(Refusal::NoMemory),
        refused => both(Ok(is_away && refused == due), both(asked, recounted)),
    }
}

/// Moves a table to another store, and returns the same for the result.
fn is_same_then<S: FarStore, R: Threads + Sync>(
    rt: &R,
    frame: Frame<S>,
    from: &S,
    to: &S,
    due: Option<Refusal>,
) -> Checked
    requires here { AreAt S.is_of (S.store_id from.now) frame.rows }
{
    match migrate(frame, from, to, &mut Meter::new()) {
        Ok(frame) => {
            let checked = is_same(rt, &frame, to, None, due);
            drop(frame);
            checked
        }
        Err((refusal, frame)) => {
            let checked = is_same(rt, &frame, from, Some(refusal), due);
            drop(frame);
            checked
        }
    }
}

/// Returns the same for a new table.
fn play_over<S: FarStore, R: Threads + Sync>(
    rt: &R,
    alloc: Global,
    from: &S,
    to: &S,
    due: Option<Refusal>,
) -> Checked {
    match frame(alloc, &[Kind::Int], FOUR_SEGMENTS, 0) {
        Ok(mut frame) => {
            let filled = fill(alloc, &mut frame, from);
            filled.and(is_same_then(rt, frame, from, to, due))
        }
        Err(refusal) => Err(refusal),
    }
}

/// Returns the same for these stores, if they were made.
fn play_between<S: FarStore, R: Threads + Sync>(
    rt: &R,
    alloc: Global,
    stores: Result<Vec<S>, Refusal>,
    due: Option<Refusal>,
) -> Checked {
    match stores {
        Ok(stores) => {
            let checked = match stores.as_slice() {
                [from, to] => play_over(rt, alloc, from, to, due),
                _ => Ok(false),
            };
            drop(stores);
            checked
        }
        Err(refusal) => Err(refusal),
    }
}

/// Returns the same for new stores.
fn play_once<R: Threads + Wait + Sync>(
    rt: &R,
    alloc: Global,
    to: Plan,
    due: Option<Refusal>,
) -> Checked {
    play_between(rt, alloc, stores(rt, alloc, &[SOUND, to]), due)
}

/// Returns the same, with a second run if memory runs out.
fn play<R: Threads + Wait + Sync>(
    rt: &R,
    alloc: Global,
    to: Plan,
    due: Option<Refusal>,
) -> Checked {
    match play_once(rt, alloc, to, due) {
        Err(Refusal::NoMemory) => play_once(rt, alloc, to, due),
        checked => checked,
    }
}

/// Returns whether the move passes this check with a sound store and with a full one.
fn are_same<R: Threads + Wait + Sync>(rt: &R, alloc: Global) -> Checked {
    let sound = play(rt, alloc, SOUND, None);
    both(sound, play(rt, alloc, FULL, Some(Refusal::FarFull)))
}

#[test]
fn a_table_goes_on_with_another_store_or_is_handed_back(rt: HostRuntime) {
    assert!(rt; are_same(&rt, rt.alloc()) == Ok(true));
}
