//! Objects of a table that are evicted and fetched: worked examples.
use crate::answers::Due;
use crate::call::Value::{Int, Missing, Text};
use crate::call::{Call, EXTREMA, TOTALS, TOTALS_BY_TEXT};
use crate::opening::{FOUR_SEGMENTS, Opening, PAIRS, SOUND};
use crate::script::{Calls, Script, answered, play_all};
use far_types::{Kind, Limits, Name, Refusal};
use std::test::Fail;

/// The first row, of which each column is one object.
const FIRST: (Call, Due<'static>) = (Call::Insert(&[Int(4), Text("pear")]), Due::Place(0));

const NO_NUMBERS: Due<'static> = Due::Refused(Refusal::Absent {
    column: 0,
    group: 0,
});

const NO_TEXTS: Due<'static> = Due::Refused(Refusal::Absent {
    column: 1,
    group: 0,
});

/// A row group was scanned already, or its columns are not where a scan needs them.
const NOT_NOW: Due<'static> = Due::Refused(Refusal::StaleJob);

/// An edit names the lowest column that is away, whichever column it edits.
const REFUSED: Calls = &[
    FIRST,
    (Call::Evac(1, 0), Due::Job(0)),
    (Call::Carry(0), Due::Done),
    (Call::Commit(0), Due::Done),
    (Call::Set(0, 0, Int(5)), NO_TEXTS),
    (Call::Set(0, 1, Text("plum")), NO_TEXTS),
    (Call::Remove(0), NO_TEXTS),
    (Call::Row(0), NO_TEXTS),
    (Call::Evac(0, 0), Due::Job(1)),
    (Call::Carry(1), Due::Done),
    (Call::Commit(1), Due::Done),
    (Call::Set(0, 0, Int(5)), NO_NUMBERS),
    (Call::Set(0, 1, Text("plum")), NO_NUMBERS),
    (Call::Insert(&[Int(1), Missing]), NO_NUMBERS),
    (Call::Evac(0, 0), NO_NUMBERS),
    (Call::Row(0), NO_NUMBERS),
];

/// A new row group has its own objects.
const NEXT_GROUP: Calls = &[
    FIRST,
    (Call::Insert(&[Missing, Missing]), Due::Place(1)),
    (Call::Insert(&[Missing, Missing]), Due::Place(2)),
    (Call::Evac(0, 0), Due::Job(0)),
    (Call::Carry(0), Due::Done),
    (Call::Commit(0), Due::Done),
    (Call::Insert(&[Int(1), Missing]), Due::Place(3)),
    (Call::Row(3), Due::Row(&[Int(1), Missing])),
];

const ANSWERED: Calls = &[
    (Call::Watch(TOTALS_BY_TEXT), Due::Aggregate(0)),
    (Call::Watch(EXTREMA), Due::Aggregate(1)),
    FIRST,
    (Call::Evac(0, 0), Due::Job(0)),
    (Call::Carry(0), Due::Done),
    (Call::Commit(0), Due::Done),
    (Call::Evac(1, 0), Due::Job(1)),
    (Call::Carry(1), Due::Done),
    (Call::Commit(1), Due::Done),
    (Call::Ask(0), Due::Lines(&[(Text("pear"), 1, 4)])),
    (Call::Ask(1), Due::Lines(&[(Missing, 4, 4)])),
];

const SCANNED: Calls = &[
    FIRST,
    (Call::Watch(TOTALS_BY_TEXT), Due::Aggregate(0)),
    (Call::Watch(TOTALS), Due::Aggregate(1)),
    (Call::Evac(1, 0), Due::Job(0)),
    (Call::Carry(0), Due::Done),
    (Call::Commit(0), Due::Done),
    (Call::MayScan(0, 0), NOT_NOW),
    (Call::Scan(0, 0), NO_TEXTS),
    (Call::MayScan(1, 0), Due::Done),
    (Call::Scan(1, 0), Due::Done),
    (Call::MayScan(1, 0), NOT_NOW),
    (Call::Ask(1), Due::Lines(&[(Missing, 1, 4)])),
    (Call::MayOffload(0, 0), NOT_NOW),
    (Call::Evac(0, 0), Due::Job(1)),
    (Call::Carry(1), Due::Done),
    (Call::Commit(1), Due::Done),
    (Call::Scan(0, 0), NO_NUMBERS),
    (Call::MayOffload(0, 0), Due::Done),
    (Call::MayOffload(1, 0), NOT_NOW),
];

const BACK: Calls = &[
    (Call::Watch(TOTALS), Due::Aggregate(0)),
    FIRST,
    (Call::Evac(0, 0), Due::Job(0)),
    (Call::Carry(0), Due::Done),
    (Call::Commit(0), Due::Done),
    (Call::Fetch(0, 0), Due::Job(1)),
    (Call::Carry(1), Due::Done),
    (Call::Install(1), Due::Done),
    (Call::Row(0), Due::Row(&[Int(4), Text("pear")])),
    (Call::Set(0, 0, Int(9)), Due::Done),
    (Call::Row(0), Due::Row(&[Int(9), Text("pear")])),
    (Call::Ask(0), Due::Lines(&[(Missing, 1, 9)])),
    (Call::IsAlive(0), Due::Done),
    (Call::Remove(0), Due::Done),
    (Call::IsAlive(0), Due::Refused(Refusal::RemovedRow)),
    (Call::IsAlive(1), Due::Refused(Refusal::NoRow)),
];

const PINNED: Calls = &[
    FIRST,
    (Call::Pin(0, 0), Due::Done),
    (Call::Evac(0, 0), Due::Job(0)),
    (Call::Carry(0), Due::Done),
    (Call::Commit(0), Due::Refused(Refusal::Pinned)),
    (Call::Unpin(0, 0), Due::Done),
    (Call::Unpin(0, 0), Due::Refused(Refusal::NotPinned)),
    (Call::Evac(0, 0), Due::Job(1)),
    (Call::Carry(1), Due::Done),
    (Call::Commit(1), Due::Done),
    (Call::MayEvac(0, 0), NO_NUMBERS),
];

const WRITTEN: Calls = &[
    FIRST,
    (Call::Evac(0, 0), Due::Job(0)),
    (Call::Carry(0), Due::Done),
    (Call::Set(0, 0, Int(5)), Due::Done),
    (Call::Commit(0), Due::Refused(Refusal::StaleJob)),
    (Call::Row(0), Due::Row(&[Int(5), Text("pear")])),
    (Call::Fetch(0, 0), Due::Refused(Refusal::StaleJob)),
    (Call::Evac(0, 0), Due::Job(1)),
    (Call::Carry(1), Due::Done),
    (Call::Commit(1), Due::Done),
    (Call::MayEvac(0, 0), NO_NUMBERS),
];

/// Each kind has one object. If one is pinned, the other is the victim, and if both are, there is none.
const COLDEST: Calls = &[
    (Call::Coldest, Due::Coldest(None)),
    FIRST,
    (Call::Pin(1, 0), Due::Done),
    (
        Call::Coldest,
        Due::Coldest(Some(Name {
            column: 0,
            group: 0,
        })),
    ),
    (Call::Pin(0, 0), Due::Done),
    (Call::Coldest, Due::Coldest(None)),
];

/// Numbers in row groups of two, with space for two row groups in each of three segments.
const THREE_SEGMENTS: Opening = Opening {
    kinds: &[Kind::Int],
    limits: Limits {
        int_segments: 3,
        ..FOUR_SEGMENTS
    },
    rows: &[
        (Call::Insert(&[Int(1)]), Due::Place(0)),
        (Call::Insert(&[Int(2)]), Due::Place(1)),
        (Call::Insert(&[Int(3)]), Due::Place(2)),
        (Call::Insert(&[Int(4)]), Due::Place(3)),
    ],
};

/// Only the second row group remains in the first segment. Compacting moves it to the beginning of the second segment and
/// empties the first, which leaves space for five more row groups. Before the last of these each segment has a row group,
/// so none can be compacted.
const COMPACTED: Calls = &[
    (Call::Evac(0, 0), Due::Job(0)),
    (Call::Carry(0), Due::Done),
    (Call::Commit(0), Due::Done),
    (Call::Compact(Kind::Int, 0), Due::Done),
    (
        Call::Lend(0, 2, 4),
        Due::Lent(2, &[(Int(3), true), (Int(4), true)]),
    ),
    (Call::Insert(&[Int(5)]), Due::Place(4)),
    (Call::Insert(&[Int(6)]), Due::Place(5)),
    (Call::Insert(&[Int(7)]), Due::Place(6)),
    (Call::Insert(&[Int(8)]), Due::Place(7)),
    (Call::Insert(&[Int(9)]), Due::Place(8)),
    (Call::Insert(&[Int(10)]), Due::Place(9)),
    (Call::Insert(&[Int(11)]), Due::Place(10)),
    (
        Call::Compact(Kind::Int, 0),
        Due::Refused(Refusal::RegionFull),
    ),
    (
        Call::Compact(Kind::Int, 3),
        Due::Refused(Refusal::OutOfRange),
    ),
    (Call::Insert(&[Int(12)]), Due::Place(11)),
    (Call::Insert(&[Int(13)]), Due::Place(12)),
    (Call::Insert(&[Int(14)]), Due::Place(13)),
    (Call::Insert(&[Int(15)]), Due::Refused(Refusal::RegionFull)),
    (
        Call::Lend(0, 2, 7),
        Due::Lent(
            2,
            &[
                (Int(3), true),
                (Int(4), true),
                (Int(5), true),
                (Int(6), true),
                (Int(7), true),
            ],
        ),
    ),
];

// Three lists of scripts, since the proof of a test goes through the data of its list.
static ROWS_AWAY: [Script; 4] = [
    Script {
        name: "a row that is away refuses edits of every column",
        opening: PAIRS,
        plans: &[SOUND],
        calls: REFUSED,
        then: &[],
    },
    Script {
        name: "a new row group is begun while the last is away",
        opening: PAIRS,
        plans: &[SOUND],
        calls: NEXT_GROUP,
        then: &[],
    },
    Script {
        name: "an aggregate answers while all its rows are away",
        opening: PAIRS,
        plans: &[SOUND],
        calls: ANSWERED,
        then: &[],
    },
    Script {
        name: "a scan wants only the columns that it needs",
        opening: PAIRS,
        plans: &[SOUND],
        calls: SCANNED,
        then: &[],
    },
];

static OBJECTS: [Script; 3] = [
    Script {
        name: "an object that came back is set again",
        opening: PAIRS,
        plans: &[SOUND],
        calls: BACK,
        then: &[],
    },
    Script {
        name: "a pinned object does not go away",
        opening: PAIRS,
        plans: &[SOUND],
        calls: PINNED,
        then: &[],
    },
    Script {
        name: "the coldest object has no pin",
        opening: PAIRS,
        plans: &[SOUND],
        calls: COLDEST,
        then: &[],
    },
];

static JOBS: [Script; 2] = [
    Script {
        name: "a job is stale once its object was written",
        opening: PAIRS,
        plans: &[SOUND],
        calls: WRITTEN,
        then: &[],
    },
    Script {
        name: "a compaction empties a segment",
        opening: THREE_SEGMENTS,
        plans: &[SOUND],
        calls: COMPACTED,
        then: &[],
    },
];

#[test]
fn rows_may_be_away(rt: HostRuntime) -> Result<(), Fail> {
    answered(play_all(&rt, rt.alloc(), &ROWS_AWAY))
}

#[test]
fn objects_go_away_and_come_back(rt: HostRuntime) -> Result<(), Fail> {
    answered(play_all(&rt, rt.alloc(), &OBJECTS))
}

#[test]
fn objects_move_between_segments_and_jobs_go_stale(rt: HostRuntime) -> Result<(), Fail> {
    answered(play_all(&rt, rt.alloc(), &JOBS))
}
