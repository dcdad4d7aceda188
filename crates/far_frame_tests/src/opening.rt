//! The tables of scripts, and their stores.
ghost use Rattle.std.specs.Prelude.{ℕ, List, IfOk};
ghost use Rattle.far_rows.specs.Jobs.{AreAt};

use crate::answers::Due;
use crate::call::{Call, TOTALS, Value};
use far_frame::{Frame, World};
use far_store::{AgentStore, FarStore, FarTickets, FaultyStore};
use far_types::{Kind, Limits, Refusal, Schema};
use std::alloc::Global;
use std::sync::Wait;

/// A table: its columns, its limits, and the calls that insert its first rows.
#[derive(Clone, Copy)]
pub struct Opening {
    pub kinds: &'static [Kind],
    pub limits: Limits,
    pub rows: &'static [(Call, Due<'static>)],
}

/// Row groups of two, in four segments with space for two each.
pub const FOUR_SEGMENTS: Limits = Limits {
    group: 2,
    places: 100,
    edits: 100,
    int_segments: 4,
    int_size: 4,
    text_segments: 1,
    text_size: 64,
};

/// Row groups of four, each of which fills one of four segments.
pub const A_SEGMENT_EACH: Limits = Limits {
    group: 4,
    ..FOUR_SEGMENTS
};

/// A column of numbers in row groups of two, of which two are begun, with an aggregate of them.
pub const NUMBERS: Opening = Opening {
    kinds: &[Kind::Int],
    limits: FOUR_SEGMENTS,
    rows: &[
        (Call::Watch(TOTALS), Due::Aggregate(0)),
        (Call::Insert(&[Value::Int(5)]), Due::Place(0)),
        (Call::Insert(&[Value::Int(6)]), Due::Place(1)),
        (Call::Insert(&[Value::Int(7)]), Due::Place(2)),
    ],
};

/// A column of numbers and one of texts in row groups of three, with space for all objects.
pub const PAIRS: Opening = Opening {
    kinds: &[Kind::Int, Kind::Text],
    limits: Limits {
        group: 3,
        places: 20,
        edits: 1_000_000,
        int_segments: 1_024,
        int_size: 3,
        text_segments: 1_024,
        text_size: 256,
    },
    rows: &[],
};

/// The same columns in row groups of two, in few large segments.
pub const SMALL_GROUPS: Opening = Opening {
    kinds: &[Kind::Int, Kind::Text],
    limits: Limits {
        group: 2,
        places: 1_000,
        edits: 1_000,
        int_segments: 64,
        int_size: 4096,
        text_segments: 64,
        text_size: 65_536,
    },
    rows: &[],
};

/// A store: how many contents it can hold, and the number of the put and of the get that fail, counted from 1; 0 for none.
#[derive(Clone, Copy)]
pub struct Plan {
    pub capacity: u64,
    pub failing_put: u64,
    pub failing_get: u64,
}

/// A store for 16 contents that never fails.
pub const SOUND: Plan = Plan {
    capacity: 16,
    failing_put: 0,
    failing_get: 0,
};

// Returns a store that fails as a plan says, if it was made.
fn faulty<S: Drop>(made: Result<S, Refusal>, plan: Plan) -> Result<FaultyStore<S>, Refusal> {
    match made {
        Ok(store) => Ok(FaultyStore::new(store, plan.failing_put, plan.failing_get)),
        Err(refusal) => Err(refusal),
    }
}

/// Returns the store of a plan.
pub fn store<R: Wait + Sync + Drop + Copy>(
    rt: R,
    alloc: Global,
    plan: Plan,
) -> Result<FaultyStore<AgentStore<R>>, Refusal> {
    faulty(AgentStore::new(rt, alloc, plan.capacity), plan)
}

/// Returns the stores of plans.
pub fn stores<R: Wait + Sync + Drop + Copy>(
    rt: R,
    alloc: Global,
    plans: &[Plan],
) -> Result<Vec<FaultyStore<AgentStore<R>>>, Refusal> {
    let mut stores = Vec::new(alloc);
    let mut refusal = None;
    for plan in plans {
        refusal = refusal.or(push(&mut stores, store(rt, alloc, *plan)));
    }
    match refusal {
        None => Ok(stores),
        Some(refusal) => {
            drop(stores);
            Err(refusal)
        }
    }
}

/// Appends a store to a list, if all were made.
pub fn with_next<S: Drop>(
    stores: Result<Vec<S>, Refusal>,
    next: Result<S, Refusal>,
) -> Result<Vec<S>, Refusal> {
    match stores {
        Ok(mut stores) => match push(&mut stores, next) {
            None => Ok(stores),
            Some(refusal) => {
                drop(stores);
                Err(refusal)
            }
        },
        Err(refusal) => {
            drop(next);
            Err(refusal)
        }
    }
}

/// Appends a value if it was made, or returns why it was not.
pub fn push<T: Drop>(items: &mut Vec<T>, made: Result<T, Refusal>) -> Option<Refusal> {
    match made {
        Ok(item) => match items.push(item) {
            Ok(()) => None,
            Err(_) => Some(Refusal::NoMemory),
        },
        Err(refusal) => Some(refusal),
    }
}

fn schema(alloc: Global, kinds: &[Kind]) -> Result<Schema, Refusal> {
    match Vec::from_slice(alloc, kinds) {
        Ok(kinds) => Schema::new(kinds),
        Err(_) => Err(Refusal::NoMemory),
    }
}

/// Returns a table without rows.
pub fn frame<S: FarTickets>(
    alloc: Global,
    kinds: &[Kind],
    limits: Limits,
    number: u32,
) -> Result<Frame<S>, Refusal>
    ensures { IfOk result (λ frame. (id : List ℕ) → AreAt S.is_of id frame.rows) }
{
    match schema(alloc, kinds) {
        Ok(schema) => Frame::open(alloc, schema, limits, number),
        Err(refusal) => Err(refusal),
    }
}

/// Returns a world with such a table, over a store if that was made.
pub fn world<S: FarStore>(
    alloc: Global,
    kinds: &[Kind],
    limits: Limits,
    store: Result<S, Refusal>,
) -> Result<World<S>, Refusal> {
    match store {
        Ok(store) => match frame(alloc, kinds, limits, 3) {
            Ok(frame) => Ok(World::new(alloc, frame, store).unwrap()),
            Err(refusal) => {
                drop(store);
                Err(refusal)
            }
        },
        Err(refusal) => Err(refusal),
    }
}

// Returns the world after a move, and why that was refused, if it was.
fn split<M>(moved: Result<M, (Refusal, M)>) -> (M, Option<Refusal>) {
    match moved {
        Ok(world) => (world, None),
        Err((refusal, world)) => (world, Some(refusal)),
    }
}

// Moves a world to another store, or returns it with the refusal. A world that has met more than a few faults is refused in
// a way that no script expects.
fn migrate_few<S: FarStore>(world: World<S>, store: S) -> Result<World<S>, (Refusal, World<S>)> {
    if world.faults() < 9 {
        world.migrate(store)
    } else {
        Err((Refusal::BadSchema, world))
    }
}

/// Moves a world to another store. If that is refused, returns the unchanged world and the refusal.
pub fn migrate<S: FarStore>(world: World<S>, store: S) -> (World<S>, Option<Refusal>) {
    split(migrate_few(world, store))
}
