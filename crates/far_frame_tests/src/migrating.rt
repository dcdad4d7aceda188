//! Worlds that move to another store: rows and answers do not change, and aggregates stay up to date. A refused move
//! changes nothing.
use crate::answers::Due;
use crate::call::Value::{Int, Missing, Text};
use crate::call::{Call, EXTREMA, TOTALS_BY_TEXT};
use crate::opening::{PAIRS, Plan, SOUND};
use crate::script::{Calls, Script, Turn, answered, play_all};
use far_types::Refusal;
use std::test::Fail;

const AWAY: Due<'static> = Due::Refused(Refusal::Absent {
    column: 0,
    group: 0,
});

const BY_TEXT: Due<'static> = Due::Lines(&[
    (Text("fig"), 1, 5),
    (Text("pear"), 2, 10),
    (Text("plum"), 1, 7),
]);

/// The first row group is away, and still pending in the second aggregate. A job is waiting.
const BEFORE: Calls = &[
    (Call::Watch(TOTALS_BY_TEXT), Due::Aggregate(0)),
    (Call::Insert(&[Int(4), Text("pear")]), Due::Place(0)),
    (Call::Insert(&[Int(5), Text("fig")]), Due::Place(1)),
    (Call::Insert(&[Int(6), Text("pear")]), Due::Place(2)),
    (Call::Insert(&[Int(7), Text("plum")]), Due::Place(3)),
    (Call::Watch(EXTREMA), Due::Aggregate(1)),
    (Call::Scan(1, 1), Due::Done),
    (Call::Pin(1, 1), Due::Done),
    (Call::Evac(0, 0), Due::Job(0)),
    (Call::Carry(0), Due::Done),
    (Call::Commit(0), Due::Done),
    (Call::Evac(1, 0), Due::Job(1)),
    (Call::Carry(1), Due::Done),
    (Call::Commit(1), Due::Done),
    (Call::Evac(0, 1), Due::Job(2)),
    (Call::Carry(2), Due::Done),
    (Call::Row(0), AWAY),
    (Call::Ask(0), BY_TEXT),
];

/// Objects stay where they were, with their pins, and are read from the new store. Old jobs are stale.
const MIGRATED: Calls = &[
    (Call::Faults(0), Due::Done),
    (Call::Row(0), AWAY),
    (Call::Row(3), Due::Row(&[Int(7), Text("plum")])),
    (Call::Ask(0), BY_TEXT),
    (Call::Ask(1), Due::Refused(Refusal::Building(1))),
    (Call::Carry(2), Due::Refused(Refusal::StaleJob)),
    (Call::Commit(2), Due::Refused(Refusal::StaleJob)),
    (Call::Recount(1, 2), Due::Lines(&[(Missing, 4, 7)])),
    (Call::Offload(1, 0), Due::Job(3)),
    (Call::Carry(3), Due::Done),
    (Call::Merge(3), Due::Done),
    (Call::Ask(1), Due::Lines(&[(Missing, 4, 7)])),
    (Call::Fetch(0, 0), Due::Job(4)),
    (Call::Carry(4), Due::Done),
    (Call::Install(4), Due::Done),
    (Call::Fetch(1, 0), Due::Job(5)),
    (Call::Carry(5), Due::Done),
    (Call::Install(5), Due::Done),
    (Call::Row(0), Due::Row(&[Int(4), Text("pear")])),
    (Call::Row(1), Due::Row(&[Int(5), Text("fig")])),
    (Call::Row(2), Due::Row(&[Int(6), Text("pear")])),
    (Call::Set(1, 0, Int(9)), Due::Done),
    (Call::Insert(&[Int(1), Text("plum")]), Due::Place(4)),
    (
        Call::Ask(0),
        Due::Lines(&[
            (Text("fig"), 1, 9),
            (Text("pear"), 2, 10),
            (Text("plum"), 2, 8),
        ]),
    ),
    (Call::Ask(1), Due::Lines(&[(Missing, 1, 9)])),
    (Call::Unpin(1, 1), Due::Done),
    (Call::Unpin(1, 1), Due::Refused(Refusal::NotPinned)),
];

/// Nothing changed: the waiting job ends, and objects are fetched from the old store.
const FAULTED: Calls = &[
    (Call::Faults(1), Due::Done),
    (Call::Row(0), AWAY),
    (Call::Row(3), Due::Row(&[Int(7), Text("plum")])),
    (Call::Ask(0), BY_TEXT),
    (Call::Ask(1), Due::Refused(Refusal::Building(1))),
    (Call::Commit(2), Due::Done),
    (Call::Fetch(0, 0), Due::Job(3)),
    (Call::Carry(3), Due::Done),
    (Call::Install(3), Due::Done),
    (Call::Fetch(1, 0), Due::Job(4)),
    (Call::Carry(4), Due::Done),
    (Call::Install(4), Due::Done),
    (Call::Row(0), Due::Row(&[Int(4), Text("pear")])),
    (Call::Set(1, 0, Int(9)), Due::Done),
    (Call::Unpin(1, 1), Due::Done),
    (Call::Unpin(1, 1), Due::Refused(Refusal::NotPinned)),
];

/// The same, without a fault of a store.
const FULL: Calls = &[
    (Call::Faults(0), Due::Done),
    (Call::Row(0), AWAY),
    (Call::Ask(0), BY_TEXT),
    (Call::Commit(2), Due::Done),
    (Call::Fetch(1, 0), Due::Job(3)),
    (Call::Carry(3), Due::Done),
    (Call::Install(3), Due::Done),
    (Call::Fetch(0, 0), Due::Job(4)),
    (Call::Carry(4), Due::Done),
    (Call::Install(4), Due::Done),
    (Call::Row(0), Due::Row(&[Int(4), Text("pear")])),
];

/// A pinned object cannot be evicted after the move, until it is unpinned.
const PINNED: Calls = &[
    (Call::Evac(1, 1), Due::Job(3)),
    (Call::Carry(3), Due::Done),
    (Call::Commit(3), Due::Refused(Refusal::Pinned)),
    (Call::Row(3), Due::Row(&[Int(7), Text("plum")])),
    (Call::Unpin(1, 1), Due::Done),
    (Call::Unpin(1, 1), Due::Refused(Refusal::NotPinned)),
    (Call::Commit(3), Due::Done),
    (
        Call::Row(3),
        Due::Refused(Refusal::Absent {
            column: 1,
            group: 1,
        }),
    ),
];

const SECOND_PUT_FAILS: Plan = Plan {
    failing_put: 2,
    ..SOUND
};

const FIRST_GET_FAILS: Plan = Plan {
    failing_get: 1,
    ..SOUND
};

/// A store with space for one content.
const SMALL: Plan = Plan {
    capacity: 1,
    ..SOUND
};

static SCRIPTS: [Script; 5] = [
    Script {
        name: "all is the same in another store",
        opening: PAIRS,
        plans: &[SOUND, SOUND],
        calls: BEFORE,
        then: &[Turn {
            refused: None,
            calls: MIGRATED,
        }],
    },
    Script {
        name: "the new store fails at the second object",
        opening: PAIRS,
        plans: &[SOUND, SECOND_PUT_FAILS],
        calls: BEFORE,
        then: &[Turn {
            refused: Some(Refusal::FarFault),
            calls: FAULTED,
        }],
    },
    Script {
        name: "the old store fails",
        opening: PAIRS,
        plans: &[FIRST_GET_FAILS, SOUND],
        calls: BEFORE,
        then: &[Turn {
            refused: Some(Refusal::FarFault),
            calls: FAULTED,
        }],
    },
    Script {
        name: "the new store is full at the second object",
        opening: PAIRS,
        plans: &[SOUND, SMALL],
        calls: BEFORE,
        then: &[Turn {
            refused: Some(Refusal::FarFull),
            calls: FULL,
        }],
    },
    Script {
        name: "an object is as pinned in another store",
        opening: PAIRS,
        plans: &[SOUND, SOUND],
        calls: BEFORE,
        then: &[Turn {
            refused: None,
            calls: PINNED,
        }],
    },
];

#[test]
fn a_world_goes_on_with_another_store_or_is_as_it_was(rt: HostRuntime) -> Result<(), Fail> {
    answered(play_all(&rt, rt.alloc(), &SCRIPTS))
}
