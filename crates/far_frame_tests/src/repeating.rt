//! Every step of the table, in each way in which it allocates. A step that runs out of memory changes nothing, and is made
//! again: so the replies are the same, whichever allocation fails.
use crate::answers::Due;
use crate::call::Value::{Int, Missing, Text};
use crate::call::{Call, EXTREMA, EXTREMA_BY_TEXT, TOTALS, TOTALS_BY_TEXT};
use crate::opening::{SMALL_GROUPS, SOUND};
use crate::script::{Calls, Script, answered, play_all};
use far_types::{Kind, Refusal};
use std::test::Fail;

/// New keys, new row groups, texts, answers and scanned row groups; parts that are lent; objects that are evicted, read in
/// the store and fetched; a recount, compactions and a proposal.
const EVERY_STEP: Calls = &[
    (Call::Insert(&[Int(4), Text("b")]), Due::Place(0)),
    (Call::Watch(TOTALS_BY_TEXT), Due::Aggregate(0)),
    (Call::Watch(EXTREMA_BY_TEXT), Due::Aggregate(1)),
    (Call::Watch(EXTREMA), Due::Aggregate(2)),
    (Call::Scan(0, 0), Due::Done),
    (Call::Scan(1, 0), Due::Done),
    (Call::Scan(2, 0), Due::Done),
    (Call::Insert(&[Int(1), Text("a")]), Due::Place(1)),
    (Call::Insert(&[Int(9), Text("b")]), Due::Place(2)),
    (Call::Insert(&[Int(7), Text("a")]), Due::Place(3)),
    (Call::Insert(&[Int(7), Text("c")]), Due::Place(4)),
    (
        Call::Ask(0),
        Due::Lines(&[(Text("a"), 2, 8), (Text("b"), 2, 13), (Text("c"), 1, 7)]),
    ),
    (
        Call::Ask(1),
        Due::Lines(&[(Text("a"), 1, 7), (Text("b"), 4, 9), (Text("c"), 7, 7)]),
    ),
    (Call::Set(2, 0, Int(2)), Due::Done),
    (Call::Set(1, 1, Text("d")), Due::Done),
    (Call::Remove(4), Due::Done),
    (
        Call::Ask(0),
        Due::Lines(&[(Text("a"), 1, 7), (Text("b"), 2, 6), (Text("d"), 1, 1)]),
    ),
    (
        Call::Ask(1),
        Due::Lines(&[(Text("a"), 7, 7), (Text("b"), 2, 4), (Text("d"), 1, 1)]),
    ),
    (Call::Ask(2), Due::Lines(&[(Missing, 1, 7)])),
    (Call::Remove(1), Due::Done),
    (Call::Ask(2), Due::Lines(&[(Missing, 2, 7)])),
    (Call::Unwatch(2), Due::Done),
    (Call::Watch(TOTALS), Due::Aggregate(2)),
    (Call::Scan(2, 0), Due::Done),
    (Call::Scan(2, 1), Due::Done),
    (Call::Unwatch(0), Due::Done),
    (
        Call::Lend(0, 1, 5),
        Due::Lent(
            1,
            &[
                (Int(1), false),
                (Int(2), true),
                (Int(7), true),
                (Int(7), false),
            ],
        ),
    ),
    (
        Call::Lend(1, 0, 3),
        Due::Lent(
            0,
            &[(Text("b"), true), (Text("d"), false), (Text("b"), true)],
        ),
    ),
    (Call::Row(3), Due::Row(&[Int(7), Text("a")])),
    (Call::Pin(0, 0), Due::Done),
    (Call::Unpin(0, 0), Due::Done),
    (Call::Evac(0, 2), Due::Job(0)),
    (Call::Evac(1, 0), Due::Job(1)),
    (Call::Carry(0), Due::Done),
    (Call::Carry(1), Due::Done),
    (Call::Commit(0), Due::Done),
    (Call::Commit(1), Due::Done),
    (
        Call::Row(0),
        Due::Refused(Refusal::Absent {
            column: 1,
            group: 0,
        }),
    ),
    (
        Call::Scan(2, 2),
        Due::Refused(Refusal::Absent {
            column: 0,
            group: 2,
        }),
    ),
    (Call::Offload(2, 2), Due::Job(2)),
    (Call::Carry(2), Due::Done),
    (Call::Merge(2), Due::Done),
    (Call::Ask(2), Due::Lines(&[(Missing, 3, 13)])),
    (
        Call::Recount(1, 2),
        Due::Lines(&[(Text("a"), 7, 7), (Text("b"), 2, 4)]),
    ),
    (Call::Fetch(1, 0), Due::Job(3)),
    (Call::Carry(3), Due::Done),
    (Call::Install(3), Due::Done),
    (Call::Row(0), Due::Row(&[Int(4), Text("b")])),
    (Call::Fetch(0, 2), Due::Job(4)),
    (Call::Carry(4), Due::Done),
    (Call::Install(4), Due::Done),
    (Call::Insert(&[Int(3), Text("e")]), Due::Place(5)),
    (Call::Compact(Kind::Int, 0), Due::Done),
    (Call::Compact(Kind::Text, 0), Due::Done),
    (Call::Insert(&[Missing, Missing]), Due::Place(6)),
    (Call::Insert(&[Missing, Missing]), Due::Place(7)),
    (Call::Insert(&[Missing, Missing]), Due::Place(8)),
    (Call::Insert(&[Missing, Missing]), Due::Place(9)),
    (Call::Insert(&[Missing, Missing]), Due::Place(10)),
    (
        Call::Lend(0, 0, 8),
        Due::Lent(
            0,
            &[
                (Int(4), true),
                (Int(1), false),
                (Int(2), true),
                (Int(7), true),
                (Int(7), false),
                (Int(3), true),
                (Missing, true),
                (Missing, true),
            ],
        ),
    ),
    (Call::Prefetch(0), Due::Next(&[4, 5])),
    (Call::Unwatch(1), Due::Done),
];

static SCRIPTS: [Script; 1] = [Script {
    name: "every step",
    opening: SMALL_GROUPS,
    plans: &[SOUND],
    calls: EVERY_STEP,
    then: &[],
}];

#[test]
fn a_step_that_found_no_memory_is_served_when_it_is_repeated(rt: HostRuntime) -> Result<(), Fail> {
    answered(play_all(&rt, rt.alloc(), &SCRIPTS))
}
