//! The order in which a world that moves puts its contents into the new store: numbers before texts, each by ascending
//! object number, whichever was evicted first.
use crate::answers::Due;
use crate::call::Call;
use crate::call::Value::{Int, Missing, Text};
use crate::opening::{SMALL_GROUPS, SOUND, store, world};
use crate::script::{Calls, first_wrong};
use far_frame::World;
use far_store::{ByteLog, Engine, EngineStore, Failure, FarStore};
use far_types::{Kind, Refusal};
use std::alloc::Global;
use std::sync::Wait;
use std::sync::atomic::{AtomicU64, Ordering};
use std::thread::Threads;

/// An engine that wraps another one and notes the length of each write, in order: two decimal digits a write.
#[derive(Drop)]
struct Measured<'a, E> {
    engine: E,
    lengths: &'a AtomicU64,
}

impl<'a, E> Measured<'a, E> {
    // Only one thread writes, so no write comes between the load and the store.
    fn note(&self, length: usize) {
        let before = self.lengths.load(Ordering::SeqCst);
        let after = before.wrapping_mul(100).wrapping_add(length as u64);
        self.lengths.store(after, Ordering::SeqCst);
    }
}

impl<'a, E: Engine> Engine for Measured<'a, E> {
    type Key = E::Key;

    type Error = E::Error;

    ghost written = { E.written };

    ghost engine_id = { λ measured. E.engine_id measured.engine };

    ghost is_of = { E.is_of };

    fn write(&self, alloc: Global, bytes: &[u8]) -> Result<E::Key, Failure<E::Error>> {
        self.note(bytes.len());
        self.engine.write(alloc, bytes)
    }

    fn read(
        &self,
        alloc: Global,
        key: &E::Key,
        buffer: &mut Vec<u8>,
    ) -> Result<(), Failure<E::Error>> {
        self.engine.read(alloc, key, buffer)
    }
}

/// Two columns of texts and two of numbers, in two row groups. All objects are evicted, the last first, and texts before
/// numbers.
const ALL_AWAY: Calls = &[
    (
        Call::Insert(&[Text("a"), Int(1), Text("abcd"), Int(2)]),
        Due::Place(0),
    ),
    (
        Call::Insert(&[Text("bc"), Int(3), Text("ef"), Int(4)]),
        Due::Place(1),
    ),
    (
        Call::Insert(&[Text("defgh"), Missing, Text("ghijklmn"), Missing]),
        Due::Place(2),
    ),
    (Call::Evac(2, 1), Due::Job(0)),
    (Call::Carry(0), Due::Done),
    (Call::Commit(0), Due::Done),
    (Call::Evac(0, 1), Due::Job(1)),
    (Call::Carry(1), Due::Done),
    (Call::Commit(1), Due::Done),
    (Call::Evac(3, 1), Due::Job(2)),
    (Call::Carry(2), Due::Done),
    (Call::Commit(2), Due::Done),
    (Call::Evac(1, 1), Due::Job(3)),
    (Call::Carry(3), Due::Done),
    (Call::Commit(3), Due::Done),
    (Call::Evac(2, 0), Due::Job(4)),
    (Call::Carry(4), Due::Done),
    (Call::Commit(4), Due::Done),
    (Call::Evac(0, 0), Due::Job(5)),
    (Call::Carry(5), Due::Done),
    (Call::Commit(5), Due::Done),
    (Call::Evac(3, 0), Due::Job(6)),
    (Call::Carry(6), Due::Done),
    (Call::Commit(6), Due::Done),
    (Call::Evac(1, 0), Due::Job(7)),
    (Call::Carry(7), Due::Done),
    (Call::Commit(7), Due::Done),
];

/// The lengths of their far forms: the numbers of the first row group, and of the second, of which one in two is missing;
/// the texts of the first, with three and six bytes, and of the second, with five and eight. An object of numbers always
/// has the length of a full row group.
const IN_ORDER: u64 = 22_22_23_23_17_20_15_18;

/// Returns why something was refused. Generic, since the proof of a function that knows the type of a world goes through
/// each of its fields.
fn outcome<T: Drop, U: Drop>(moved: Result<T, (Refusal, U)>) -> Result<(), Refusal> {
    match moved {
        Ok(_) => Ok(()),
        Err((refusal, _)) => Err(refusal),
    }
}

/// Moves a world to another store, if it met no fault before.
fn moved<S: FarStore, N: FarStore>(world: World<S>, store: N) -> Result<(), Refusal> {
    if world.faults() > 0 {
        drop(world);
        return Err(Refusal::FarFault);
    }
    outcome(world.migrate(store))
}

/// Evicts all objects of a world, and then moves it to another store. Returns whether each call replies as expected.
fn are_moved<S: FarStore, N: FarStore, R: Threads + Sync>(
    rt: &R,
    alloc: Global,
    mut world: World<S>,
    store: N,
) -> Result<bool, Refusal> {
    match first_wrong(rt, alloc, &mut world, ALL_AWAY) {
        Ok(None) => moved(world, store).and(Ok(true)),
        Ok(Some(_)) => {
            drop(world);
            Ok(false)
        }
        Err(refusal) => {
            drop(world);
            Err(refusal)
        }
    }
}

/// Returns the same for a new world, if both stores were made.
fn are_moved_between<S: FarStore, N: FarStore, R: Threads + Sync>(
    rt: &R,
    alloc: Global,
    from: Result<S, Refusal>,
    to: Result<N, Refusal>,
) -> Result<bool, Refusal> {
    let kinds = [Kind::Text, Kind::Int, Kind::Text, Kind::Int];
    match to {
        Ok(to) => match world(alloc, &kinds, SMALL_GROUPS.limits, from) {
            Ok(world) => are_moved(rt, alloc, world, to),
            Err(refusal) => Err(refusal),
        },
        Err(refusal) => Err(refusal),
    }
}

/// Returns the same for a move into a log.
fn are_moved_into<R: Threads + Wait + Sync>(
    rt: &R,
    alloc: Global,
    log: ByteLog,
    lengths: &AtomicU64,
) -> Result<bool, Refusal> {
    let engine = Measured {
        engine: log,
        lengths,
    };
    let to = EngineStore::new(rt, alloc, engine, SOUND.capacity);
    are_moved_between(rt, alloc, store(rt, alloc, SOUND), to)
}

/// Returns the lengths of the contents that a world puts into a new log, in order; 0 if a call does not reply as expected.
fn lengths_once<R: Threads + Wait + Sync>(rt: &R, alloc: Global) -> Result<u64, Refusal> {
    let lengths = AtomicU64::new(0);
    let moved = match ByteLog::new(alloc, 200) {
        Ok(log) => are_moved_into(rt, alloc, log, &lengths),
        Err(_) => Err(Refusal::NoMemory),
    };
    match moved {
        Ok(true) => Ok(lengths.load(Ordering::SeqCst)),
        Ok(false) => Ok(0),
        Err(refusal) => Err(refusal),
    }
}

/// Returns the same, with a second run if memory runs out.
fn lengths<R: Threads + Wait + Sync>(rt: &R, alloc: Global) -> Result<u64, Refusal> {
    match lengths_once(rt, alloc) {
        Err(Refusal::NoMemory) => lengths_once(rt, alloc),
        lengths => lengths,
    }
}

#[test]
fn contents_go_into_another_store_by_object_number_and_numbers_before_texts(rt: HostRuntime) {
    assert!(rt; lengths(&rt, rt.alloc()) == Ok(IN_ORDER));
}
