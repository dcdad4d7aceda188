//! Lendings, jobs and offloaded builds as steps of a world, over stores that fail or are full. Scripts of the shell show
//! how a world moves to another store.
use crate::answers::Due;
use crate::call::Value::{Int, Missing, Text};
use crate::call::{Call, TOTALS};
use crate::opening::{A_SEGMENT_EACH, NUMBERS, Opening, Plan, SOUND};
use crate::script::{Calls, Script, answered, play_all};
use far_types::{Kind, Limits, Refusal};
use std::test::Fail;

/// Two full row groups of four numbers, with an aggregate of them.
const EIGHT: Opening = Opening {
    kinds: &[Kind::Int],
    limits: A_SEGMENT_EACH,
    rows: &[
        (Call::Watch(TOTALS), Due::Aggregate(0)),
        (Call::Insert(&[Int(1)]), Due::Place(0)),
        (Call::Insert(&[Int(2)]), Due::Place(1)),
        (Call::Insert(&[Int(3)]), Due::Place(2)),
        (Call::Insert(&[Int(4)]), Due::Place(3)),
        (Call::Insert(&[Int(5)]), Due::Place(4)),
        (Call::Insert(&[Int(6)]), Due::Place(5)),
        (Call::Insert(&[Int(7)]), Due::Place(6)),
        (Call::Insert(&[Int(8)]), Due::Place(7)),
    ],
};

/// Three full row groups, with an aggregate of them.
const TWELVE: Opening = Opening {
    kinds: &[Kind::Int],
    limits: A_SEGMENT_EACH,
    rows: &[
        (Call::Watch(TOTALS), Due::Aggregate(0)),
        (Call::Insert(&[Int(1)]), Due::Place(0)),
        (Call::Insert(&[Int(2)]), Due::Place(1)),
        (Call::Insert(&[Int(3)]), Due::Place(2)),
        (Call::Insert(&[Int(4)]), Due::Place(3)),
        (Call::Insert(&[Int(5)]), Due::Place(4)),
        (Call::Insert(&[Int(6)]), Due::Place(5)),
        (Call::Insert(&[Int(7)]), Due::Place(6)),
        (Call::Insert(&[Int(8)]), Due::Place(7)),
        (Call::Insert(&[Int(9)]), Due::Place(8)),
        (Call::Insert(&[Int(10)]), Due::Place(9)),
        (Call::Insert(&[Int(11)]), Due::Place(10)),
        (Call::Insert(&[Int(12)]), Due::Place(11)),
    ],
};

/// Two row groups of texts, of which the second has one.
const TEXTS: Opening = Opening {
    kinds: &[Kind::Text],
    limits: Limits {
        text_segments: 2,
        ..A_SEGMENT_EACH
    },
    rows: &[
        (Call::Insert(&[Text("bread")]), Due::Place(0)),
        (Call::Insert(&[Missing]), Due::Place(1)),
        (Call::Insert(&[Text("")]), Due::Place(2)),
        (Call::Insert(&[Text("bread")]), Due::Place(3)),
        (Call::Insert(&[Text("rye")]), Due::Place(4)),
    ],
};

const FAULT: Due<'static> = Due::Refused(Refusal::FarFault);

/// The second carry of an eviction meets a fault; its job stays.
const SECOND_PUT: Calls = &[
    (Call::Evac(0, 0), Due::Job(0)),
    (Call::Carry(0), Due::Done),
    (Call::Commit(0), Due::Done),
    (Call::Evac(0, 1), Due::Job(1)),
    (Call::Carry(1), FAULT),
    (Call::Faults(1), Due::Done),
    (Call::Ask(0), Due::Lines(&[(Missing, 8, 36)])),
    (Call::Carry(1), Due::Done),
    (Call::Commit(1), Due::Done),
    (Call::Ask(0), Due::Lines(&[(Missing, 8, 36)])),
];

/// The aggregate over the twelve rows has this answer at any time.
const ASK: (Call, Due<'static>) = (Call::Ask(0), Due::Lines(&[(Missing, 12, 78)]));

/// All twelve rows, which are local.
const LEND: (Call, Due<'static>) = (
    Call::Lend(0, 0, 12),
    Due::Lent(
        0,
        &[
            (Int(1), true),
            (Int(2), true),
            (Int(3), true),
            (Int(4), true),
            (Int(5), true),
            (Int(6), true),
            (Int(7), true),
            (Int(8), true),
            (Int(9), true),
            (Int(10), true),
            (Int(11), true),
            (Int(12), true),
        ],
    ),
);

/// Each of three row groups is evicted and fetched. The first put and the first get fail, and the carry is repeated.
const FIRST_OF_EACH: Calls = &[
    (Call::Evac(0, 0), Due::Job(0)),
    (Call::Carry(0), FAULT),
    ASK,
    (Call::Carry(0), Due::Done),
    (Call::Commit(0), Due::Done),
    ASK,
    (Call::Evac(0, 1), Due::Job(1)),
    (Call::Carry(1), Due::Done),
    (Call::Commit(1), Due::Done),
    ASK,
    (Call::Evac(0, 2), Due::Job(2)),
    (Call::Carry(2), Due::Done),
    (Call::Commit(2), Due::Done),
    ASK,
    (Call::Fetch(0, 0), Due::Job(3)),
    (Call::Carry(3), FAULT),
    ASK,
    (Call::Carry(3), Due::Done),
    (Call::Install(3), Due::Done),
    ASK,
    (Call::Fetch(0, 1), Due::Job(4)),
    (Call::Carry(4), Due::Done),
    (Call::Install(4), Due::Done),
    ASK,
    (Call::Fetch(0, 2), Due::Job(5)),
    (Call::Carry(5), Due::Done),
    (Call::Install(5), Due::Done),
    ASK,
    LEND,
    (Call::Faults(2), Due::Done),
];

/// Each of three row groups is evicted and fetched. The second put and the second get fail, and the carry is repeated.
const SECOND_OF_EACH: Calls = &[
    (Call::Evac(0, 0), Due::Job(0)),
    (Call::Carry(0), Due::Done),
    (Call::Commit(0), Due::Done),
    ASK,
    (Call::Evac(0, 1), Due::Job(1)),
    (Call::Carry(1), FAULT),
    ASK,
    (Call::Carry(1), Due::Done),
    (Call::Commit(1), Due::Done),
    ASK,
    (Call::Evac(0, 2), Due::Job(2)),
    (Call::Carry(2), Due::Done),
    (Call::Commit(2), Due::Done),
    ASK,
    (Call::Fetch(0, 0), Due::Job(3)),
    (Call::Carry(3), Due::Done),
    (Call::Install(3), Due::Done),
    ASK,
    (Call::Fetch(0, 1), Due::Job(4)),
    (Call::Carry(4), FAULT),
    ASK,
    (Call::Carry(4), Due::Done),
    (Call::Install(4), Due::Done),
    ASK,
    (Call::Fetch(0, 2), Due::Job(5)),
    (Call::Carry(5), Due::Done),
    (Call::Install(5), Due::Done),
    ASK,
    LEND,
    (Call::Faults(2), Due::Done),
];

/// Each of three row groups is evicted and fetched. The third put and the third get fail, and the carry is repeated.
const THIRD_OF_EACH: Calls = &[
    (Call::Evac(0, 0), Due::Job(0)),
    (Call::Carry(0), Due::Done),
    (Call::Commit(0), Due::Done),
    ASK,
    (Call::Evac(0, 1), Due::Job(1)),
    (Call::Carry(1), Due::Done),
    (Call::Commit(1), Due::Done),
    ASK,
    (Call::Evac(0, 2), Due::Job(2)),
    (Call::Carry(2), FAULT),
    ASK,
    (Call::Carry(2), Due::Done),
    (Call::Commit(2), Due::Done),
    ASK,
    (Call::Fetch(0, 0), Due::Job(3)),
    (Call::Carry(3), Due::Done),
    (Call::Install(3), Due::Done),
    ASK,
    (Call::Fetch(0, 1), Due::Job(4)),
    (Call::Carry(4), Due::Done),
    (Call::Install(4), Due::Done),
    ASK,
    (Call::Fetch(0, 2), Due::Job(5)),
    (Call::Carry(5), FAULT),
    ASK,
    (Call::Carry(5), Due::Done),
    (Call::Install(5), Due::Done),
    ASK,
    LEND,
    (Call::Faults(2), Due::Done),
];

/// The row groups are away and none is scanned. The first read of a build from the store fails.
const FIRST_OFFLOAD: Calls = &[
    (Call::Evac(0, 0), Due::Job(0)),
    (Call::Carry(0), Due::Done),
    (Call::Commit(0), Due::Done),
    (Call::Evac(0, 1), Due::Job(1)),
    (Call::Carry(1), Due::Done),
    (Call::Commit(1), Due::Done),
    (Call::Evac(0, 2), Due::Job(2)),
    (Call::Carry(2), Due::Done),
    (Call::Commit(2), Due::Done),
    (Call::Watch(TOTALS), Due::Aggregate(1)),
    (Call::Ask(1), Due::Refused(Refusal::Building(3))),
    (Call::Offload(1, 0), Due::Job(3)),
    (Call::Carry(3), FAULT),
    (Call::Carry(3), Due::Done),
    (Call::Merge(3), Due::Done),
    (Call::Ask(1), Due::Refused(Refusal::Building(2))),
    (Call::Faults(1), Due::Done),
];

/// A store for one content: the second eviction is refused, and its object stays.
const FULL: Calls = &[
    (Call::Evac(0, 0), Due::Job(0)),
    (Call::Carry(0), Due::Done),
    (Call::Evac(0, 1), Due::Job(1)),
    (Call::Carry(1), Due::Refused(Refusal::FarFull)),
    (Call::Commit(1), Due::Refused(Refusal::StaleJob)),
    (Call::Carry(1), Due::Refused(Refusal::StaleJob)),
    (Call::Insert(&[Int(8)]), Due::Place(3)),
];

/// A store for one content, which holds a text: the second eviction of a text is refused, and its object stays.
const FULL_OF_TEXTS: Calls = &[
    (Call::Evac(0, 0), Due::Job(0)),
    (Call::Carry(0), Due::Done),
    (Call::Commit(0), Due::Done),
    (Call::Evac(0, 1), Due::Job(1)),
    (Call::Carry(1), Due::Refused(Refusal::FarFull)),
    (Call::Commit(1), Due::Refused(Refusal::StaleJob)),
    (Call::Lend(0, 4, 5), Due::Lent(4, &[(Text("rye"), true)])),
];

/// The row groups are lent in order, so the next one is proposed once it exists. Of the next two, only one exists.
const STRIDE: Calls = &[
    (Call::Insert(&[Int(8)]), Due::Place(3)),
    (Call::Insert(&[Int(9)]), Due::Place(4)),
    (Call::Insert(&[Int(10)]), Due::Place(5)),
    (Call::Insert(&[Int(11)]), Due::Place(6)),
    (
        Call::Lend(0, 1, 4),
        Due::Lent(1, &[(Int(6), true), (Int(7), true), (Int(8), true)]),
    ),
    (
        Call::Lend(0, 4, 6),
        Due::Lent(4, &[(Int(9), true), (Int(10), true)]),
    ),
    (Call::Prefetch(0), Due::Next(&[])),
    (Call::Lend(0, 6, 7), Due::Lent(6, &[(Int(11), true)])),
    (Call::Lend(0, 7, 7), Due::Lent(7, &[])),
    (Call::Insert(&[Int(12)]), Due::Place(7)),
    (Call::Insert(&[Int(13)]), Due::Place(8)),
    (Call::Prefetch(0), Due::Next(&[4])),
    (Call::Lend(0, 8, 10), Due::Refused(Refusal::OutOfRange)),
];

/// A row group that is away is scanned in the store, and the other one in place.
const BUILT: Calls = &[
    (Call::Watch(TOTALS), Due::Aggregate(1)),
    (Call::Offload(1, 0), Due::Refused(Refusal::StaleJob)),
    (Call::Evac(0, 0), Due::Job(0)),
    (Call::Carry(0), Due::Done),
    (Call::Commit(0), Due::Done),
    (Call::Scan(1, 0), Due::Refused(ABSENT)),
    (Call::Offload(1, 0), Due::Job(1)),
    (Call::Carry(1), Due::Done),
    (Call::Merge(1), Due::Done),
    (Call::Merge(1), Due::Refused(Refusal::StaleJob)),
    (Call::Offload(1, 0), Due::Refused(Refusal::StaleJob)),
    (Call::Ask(1), Due::Refused(Refusal::Building(1))),
    (Call::Scan(1, 1), Due::Done),
    (Call::Ask(1), Due::Lines(&[(Missing, 3, 18)])),
];

/// The object is local again and clean when the build begins. A row is inserted before it ends.
const OUTDATED: Calls = &[
    (Call::Watch(TOTALS), Due::Aggregate(1)),
    (Call::Evac(0, 1), Due::Job(0)),
    (Call::Carry(0), Due::Done),
    (Call::Commit(0), Due::Done),
    (Call::Fetch(0, 1), Due::Job(1)),
    (Call::Carry(1), Due::Done),
    (Call::Install(1), Due::Done),
    (Call::Offload(1, 1), Due::Job(2)),
    (Call::Carry(2), Due::Done),
    (Call::Insert(&[Int(8)]), Due::Place(3)),
    (Call::Merge(2), Due::Refused(Refusal::StaleJob)),
    (Call::Carry(2), Due::Refused(Refusal::StaleJob)),
    (Call::Scan(1, 1), Due::Done),
    (Call::Scan(1, 0), Due::Done),
    (Call::Ask(1), Due::Lines(&[(Missing, 4, 26)])),
];

/// A build keeps its number while its aggregate is forgotten, carried or not, and does not merge into a new aggregate.
const FORGOTTEN: Calls = &[
    (Call::Watch(TOTALS), Due::Aggregate(1)),
    (Call::Evac(0, 0), Due::Job(0)),
    (Call::Carry(0), Due::Done),
    (Call::Commit(0), Due::Done),
    (Call::Offload(1, 0), Due::Job(1)),
    (Call::Carry(1), Due::Done),
    (Call::Unwatch(1), Due::Done),
    (Call::Merge(1), Due::Refused(Refusal::NoAggregate)),
    (Call::Watch(TOTALS), Due::Aggregate(1)),
    (Call::Merge(1), Due::Refused(Refusal::StaleJob)),
    (Call::Unwatch(1), Due::Done),
    (Call::Merge(1), Due::Refused(Refusal::StaleJob)),
    (Call::Watch(TOTALS), Due::Aggregate(1)),
    (Call::Offload(1, 0), Due::Job(2)),
    (Call::Unwatch(1), Due::Done),
    (Call::Merge(2), Due::Refused(Refusal::NoAggregate)),
    (Call::Carry(2), Due::Done),
    (Call::Merge(2), Due::Refused(Refusal::NoAggregate)),
    (Call::Watch(TOTALS), Due::Aggregate(1)),
    (Call::Merge(2), Due::Refused(Refusal::StaleJob)),
];

/// A build that was not carried is stale at its end, and so is one at the end of another kind of job.
const UNCARRIED: Calls = &[
    (Call::Watch(TOTALS), Due::Aggregate(1)),
    (Call::Evac(0, 0), Due::Job(0)),
    (Call::Carry(0), Due::Done),
    (Call::Commit(0), Due::Done),
    (Call::Offload(1, 0), Due::Job(1)),
    (Call::Merge(1), Due::Refused(Refusal::StaleJob)),
    (Call::Carry(1), Due::Refused(Refusal::StaleJob)),
    (Call::Offload(1, 0), Due::Job(2)),
    (Call::Install(2), Due::Refused(Refusal::StaleJob)),
    (Call::Offload(1, 2), Due::Refused(Refusal::OutOfRange)),
];

const ABSENT: Refusal = Refusal::Absent {
    column: 0,
    group: 0,
};

const PUT_2: Plan = Plan {
    failing_put: 2,
    ..SOUND
};

const GET_1: Plan = Plan {
    failing_get: 1,
    ..SOUND
};

const FIRST: Plan = Plan {
    failing_put: 1,
    failing_get: 1,
    ..SOUND
};

const SECOND: Plan = Plan {
    failing_put: 2,
    failing_get: 2,
    ..SOUND
};

const THIRD: Plan = Plan {
    failing_put: 3,
    failing_get: 3,
    ..SOUND
};

const SMALL: Plan = Plan {
    capacity: 1,
    ..SOUND
};

// Two lists of scripts, since the proof of a test goes through the data of its list.
static FAULTY: [Script; 5] = [
    Script {
        name: "all moved while the first put and the first get fail",
        opening: TWELVE,
        plans: &[FIRST],
        calls: FIRST_OF_EACH,
        then: &[],
    },
    Script {
        name: "all moved while the second put and the second get fail",
        opening: TWELVE,
        plans: &[SECOND],
        calls: SECOND_OF_EACH,
        then: &[],
    },
    Script {
        name: "all moved while the third put and the third get fail",
        opening: TWELVE,
        plans: &[THIRD],
        calls: THIRD_OF_EACH,
        then: &[],
    },
    Script {
        name: "a carry that met a fault is repeated",
        opening: EIGHT,
        plans: &[PUT_2],
        calls: SECOND_PUT,
        then: &[],
    },
    Script {
        name: "a build that met a fault is repeated",
        opening: TWELVE,
        plans: &[GET_1],
        calls: FIRST_OFFLOAD,
        then: &[],
    },
];

static FAULTLESS: [Script; 7] = [
    Script {
        name: "a row group that is away is scanned",
        opening: NUMBERS,
        plans: &[SOUND],
        calls: BUILT,
        then: &[],
    },
    Script {
        name: "a build is stale once a row was inserted",
        opening: NUMBERS,
        plans: &[SOUND],
        calls: OUTDATED,
        then: &[],
    },
    Script {
        name: "a build waits while its aggregate is forgotten",
        opening: NUMBERS,
        plans: &[SOUND],
        calls: FORGOTTEN,
        then: &[],
    },
    Script {
        name: "a build that was not carried is stale",
        opening: NUMBERS,
        plans: &[SOUND],
        calls: UNCARRIED,
        then: &[],
    },
    Script {
        name: "an object stays where the store is full",
        opening: NUMBERS,
        plans: &[SMALL],
        calls: FULL,
        then: &[],
    },
    Script {
        name: "a text stays where the store is full",
        opening: TEXTS,
        plans: &[SMALL],
        calls: FULL_OF_TEXTS,
        then: &[],
    },
    Script {
        name: "parts are lent in turn and the next is proposed",
        opening: NUMBERS,
        plans: &[SOUND],
        calls: STRIDE,
        then: &[],
    },
];

#[test]
fn a_world_serves_steps_while_its_store_fails(rt: HostRuntime) -> Result<(), Fail> {
    answered(play_all(&rt, rt.alloc(), &FAULTY))
}

#[test]
fn a_world_serves_steps_over_a_store_that_never_fails_or_is_full(
    rt: HostRuntime,
) -> Result<(), Fail> {
    answered(play_all(&rt, rt.alloc(), &FAULTLESS))
}
