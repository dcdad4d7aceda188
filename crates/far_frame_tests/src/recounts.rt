//! Aggregates that several threads compute from scratch, while the store fails once.
use crate::answers::Due;
use crate::call::Value::{Int, Missing};
use crate::call::{Call, TOTALS};
use crate::opening::{A_SEGMENT_EACH, FOUR_SEGMENTS, Opening, Plan, SOUND};
use crate::script::{Calls, Script, answered, play_all};
use far_types::{Kind, Refusal};
use std::test::Fail;

/// Two row groups, both away, and pending in an aggregate.
const ALL_AWAY: Opening = Opening {
    kinds: &[Kind::Int],
    limits: A_SEGMENT_EACH,
    rows: &[
        (Call::Insert(&[Int(1)]), Due::Place(0)),
        (Call::Insert(&[Int(2)]), Due::Place(1)),
        (Call::Insert(&[Int(3)]), Due::Place(2)),
        (Call::Insert(&[Int(4)]), Due::Place(3)),
        (Call::Insert(&[Int(5)]), Due::Place(4)),
        (Call::Insert(&[Int(6)]), Due::Place(5)),
        (Call::Insert(&[Int(7)]), Due::Place(6)),
        (Call::Insert(&[Int(8)]), Due::Place(7)),
        (Call::Evac(0, 0), Due::Job(0)),
        (Call::Carry(0), Due::Done),
        (Call::Commit(0), Due::Done),
        (Call::Evac(0, 1), Due::Job(1)),
        (Call::Carry(1), Due::Done),
        (Call::Commit(1), Due::Done),
        (Call::Watch(TOTALS), Due::Aggregate(0)),
        (Call::Ask(0), Due::Refused(Refusal::Building(2))),
    ],
};

/// Four row groups: one is local, the others are away.
const MOSTLY_AWAY: Opening = Opening {
    kinds: &[Kind::Int],
    limits: FOUR_SEGMENTS,
    rows: &[
        (Call::Watch(TOTALS), Due::Aggregate(0)),
        (Call::Insert(&[Int(5)]), Due::Place(0)),
        (Call::Insert(&[Int(6)]), Due::Place(1)),
        (Call::Insert(&[Int(7)]), Due::Place(2)),
        (Call::Insert(&[Int(8)]), Due::Place(3)),
        (Call::Insert(&[Int(9)]), Due::Place(4)),
        (Call::Insert(&[Int(10)]), Due::Place(5)),
        (Call::Insert(&[Int(11)]), Due::Place(6)),
        (Call::Evac(0, 0), Due::Job(0)),
        (Call::Carry(0), Due::Done),
        (Call::Commit(0), Due::Done),
        (Call::Evac(0, 1), Due::Job(1)),
        (Call::Carry(1), Due::Done),
        (Call::Commit(1), Due::Done),
        (Call::Evac(0, 3), Due::Job(2)),
        (Call::Carry(2), Due::Done),
        (Call::Commit(2), Due::Done),
    ],
};

const FIRST_GET_FAILS: Plan = Plan {
    capacity: 16,
    failing_put: 0,
    failing_get: 1,
};

/// The count and the sum of the rows, which are all away.
const TOTAL: Due<'static> = Due::Lines(&[(Missing, 8, 36)]);

const FAULT: Due<'static> = Due::Refused(Refusal::FarFault);

const BY_ONE: Calls = &[(Call::Recount(0, 1), FAULT), (Call::Recount(0, 1), TOTAL)];

const BY_THREE: Calls = &[(Call::Recount(0, 3), FAULT), (Call::Recount(0, 3), TOTAL)];

const BY_64: Calls = &[(Call::Recount(0, 64), FAULT), (Call::Recount(0, 64), TOTAL)];

const WORKERS: Calls = &[
    (Call::Recount(0, 0), Due::Refused(Refusal::OutOfRange)),
    (Call::Recount(0, 1), TOTAL),
    (Call::Recount(0, 3), TOTAL),
    (Call::Recount(0, 64), TOTAL),
    (Call::Recount(0, 65), Due::Refused(Refusal::OutOfRange)),
    (Call::Ask(0), Due::Refused(Refusal::Building(2))),
];

/// More row groups than workers, some local and some away.
const UNEVEN: Calls = &[
    (Call::Recount(0, 2), Due::Lines(&[(Missing, 7, 56)])),
    (Call::Recount(0, 3), Due::Lines(&[(Missing, 7, 56)])),
];

/// A recount of no aggregate is refused for that, even with a wrong number of workers.
const UNKNOWN: Calls = &[
    (Call::Recount(1, 3), Due::Refused(Refusal::NoAggregate)),
    (Call::Recount(1, 0), Due::Refused(Refusal::NoAggregate)),
    (Call::Recount(32, 1), Due::Refused(Refusal::NoAggregate)),
];

static SCRIPTS: [Script; 6] = [
    Script {
        name: "a recount by one that met a fault is repeated",
        opening: ALL_AWAY,
        plans: &[FIRST_GET_FAILS],
        calls: BY_ONE,
        then: &[],
    },
    Script {
        name: "a recount by three that met a fault is repeated",
        opening: ALL_AWAY,
        plans: &[FIRST_GET_FAILS],
        calls: BY_THREE,
        then: &[],
    },
    Script {
        name: "a recount by 64 that met a fault is repeated",
        opening: ALL_AWAY,
        plans: &[FIRST_GET_FAILS],
        calls: BY_64,
        then: &[],
    },
    Script {
        name: "a recount has from 1 to 64 workers",
        opening: ALL_AWAY,
        plans: &[SOUND],
        calls: WORKERS,
        then: &[],
    },
    Script {
        name: "a recount reads rows that are local and rows that are away",
        opening: MOSTLY_AWAY,
        plans: &[SOUND],
        calls: UNEVEN,
        then: &[],
    },
    Script {
        name: "a recount of an aggregate that is not there is refused",
        opening: ALL_AWAY,
        plans: &[SOUND],
        calls: UNKNOWN,
        then: &[],
    },
];

#[test]
fn an_aggregate_is_computed_from_scratch_by_several_workers(rt: HostRuntime) -> Result<(), Fail> {
    answered(play_all(&rt, rt.alloc(), &SCRIPTS))
}
