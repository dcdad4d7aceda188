// Worked examples of a shared table, as scenes.
use crate::opening::first_wrong;
use crate::scenes::{
    AWAY, End, FIRST, Gate, Left, NO_ROW, ROW_OF_5, ROW_OF_6, ROW_OF_7, Reply, Role, Scene, Step,
    Table,
};
use far_shared::Work;
use far_types::Refusal;

static EXAMPLES: &[Scene] = &[
    Scene {
        name: "a_gauge_reads_what_its_session_did",
        table: Table::Numbers,
        gate: Gate::Open,
        roles: &[Role::Plays(&[
            (Step::Gauge(0), Ok(Reply::Reading(0, 0, 0))),
            (Step::Insert(0, 5), Ok(Reply::Applied(1, 0))),
            (Step::Gauge(0), Ok(Reply::Reading(1, 1, 5))),
            (Step::Lend(0), Ok(Reply::Lent(5))),
            (Step::Lend(4), Err(Refusal::OutOfRange)),
            (Step::Evacuate(0), Ok(Reply::Object(FIRST))),
            (Step::Set(0, 0, 6), Err(AWAY)),
            (Step::Fetch(0, 0), Ok(Reply::Done)),
            (Step::Set(0, 0, 6), Ok(Reply::Applied(2, 0))),
            (Step::Gauge(0), Ok(Reply::Reading(2, 1, 6))),
        ])],
        end: End::Leaves(&[ROW_OF_6, NO_ROW, NO_ROW, NO_ROW]),
    },
    // The calls that name a stripe, here a fifth one, which does not exist.
    Scene {
        name: "there_is_no_fifth_stripe",
        table: Table::Numbers,
        gate: Gate::Open,
        roles: &[Role::Plays(&[
            (Step::Gauge(4), Err(Refusal::OutOfRange)),
            (Step::Insert(4, 5), Err(Refusal::OutOfRange)),
            (Step::Set(4, 0, 5), Err(Refusal::OutOfRange)),
            (Step::Remove(4, 0), Err(Refusal::OutOfRange)),
            (Step::Lend(4), Err(Refusal::OutOfRange)),
            (Step::Evacuate(4), Err(Refusal::OutOfRange)),
            (Step::Fetch(4, 0), Err(Refusal::OutOfRange)),
            (Step::Build(4), Err(Refusal::OutOfRange)),
            (Step::InPhases(Work::Evacuate(4)), Err(Refusal::OutOfRange)),
        ])],
        end: End::Leaves(&[NO_ROW; 4]),
    },
    Scene {
        name: "a_gauge_folds_the_rows_that_its_filter_keeps",
        table: Table::NumbersAboveZero,
        gate: Gate::Open,
        roles: &[Role::Plays(&[
            (Step::Gauge(2), Ok(Reply::Reading(0, 0, 0))),
            (Step::Insert(2, -5), Ok(Reply::Applied(1, 0))),
            (Step::Gauge(2), Ok(Reply::Reading(1, 0, 0))),
            (Step::Insert(2, 7), Ok(Reply::Applied(2, 1))),
            (Step::Gauge(2), Ok(Reply::Reading(2, 1, 7))),
            (Step::Set(2, 0, 3), Ok(Reply::Applied(3, 0))),
            (Step::Gauge(2), Ok(Reply::Reading(3, 2, 10))),
            (Step::Set(2, 9, 1), Err(Refusal::NoRow)),
            (Step::Gauge(2), Ok(Reply::Reading(3, 2, 10))),
            (Step::Remove(2, 1), Ok(Reply::Applied(4, 1))),
            (Step::Gauge(2), Ok(Reply::Reading(4, 1, 3))),
        ])],
        end: End::Leaves(&[
            NO_ROW,
            NO_ROW,
            Left {
                places: 2,
                count: 1,
                sum: 3,
            },
            NO_ROW,
        ]),
    },
    Scene {
        name: "an_aggregate_answers_once_its_row_groups_are_built",
        table: Table::Numbers,
        gate: Gate::Open,
        roles: &[Role::Plays(&[
            (Step::Insert(0, 5), Ok(Reply::Applied(1, 0))),
            (Step::Watch, Ok(Reply::Number(1))),
            (Step::Ask(1), Err(Refusal::Building(1))),
            (Step::Build(0), Ok(Reply::Done)),
            (Step::Build(0), Ok(Reply::Nothing)),
            (Step::Ask(1), Ok(Reply::Extrema(5, 5))),
            (Step::InPhases(Work::Evacuate(0)), Ok(Reply::Done)),
            (Step::Ask(0), Ok(Reply::Totals(1, 5))),
            (Step::Ask(2), Err(Refusal::NoAggregate)),
        ])],
        end: End::Leaves(&[ROW_OF_5, NO_ROW, NO_ROW, NO_ROW]),
    },
    Scene {
        name: "a_row_group_that_is_away_is_built_from_the_far_store",
        table: Table::Numbers,
        gate: Gate::Open,
        roles: &[Role::Plays(&[
            (Step::Insert(1, 5), Ok(Reply::Applied(1, 0))),
            (Step::Evacuate(1), Ok(Reply::Object(FIRST))),
            (Step::Watch, Ok(Reply::Number(1))),
            (Step::Ask(1), Err(Refusal::Building(1))),
            (Step::Build(1), Ok(Reply::Done)),
            (Step::Build(1), Ok(Reply::Nothing)),
            (Step::Ask(1), Ok(Reply::Extrema(5, 5))),
            (Step::Lend(1), Err(AWAY)),
        ])],
        end: End::Leaves(&[NO_ROW, ROW_OF_5, NO_ROW, NO_ROW]),
    },
    // Each session inserts rows on stripes of its own choice.
    Scene {
        name: "a_missing_session_hands_all_back",
        table: Table::Numbers,
        gate: Gate::Open,
        roles: &[
            Role::Plays(&[
                (Step::Insert(0, 5), Ok(Reply::Applied(1, 0))),
                (Step::Insert(2, 6), Ok(Reply::Applied(1, 0))),
            ]),
            Role::Plays(&[
                (Step::Insert(1, 7), Ok(Reply::Applied(1, 0))),
                (Step::Insert(3, 5), Ok(Reply::Applied(1, 0))),
            ]),
        ],
        end: End::Leaves(&[ROW_OF_5, ROW_OF_7, ROW_OF_6, ROW_OF_5]),
    },
    // One session evicts an object, and its put is held until the other session has set its row.
    Scene {
        name: "an_edit_that_overtakes_an_evacuation_makes_it_stale",
        table: Table::Numbers,
        gate: Gate::Released,
        roles: &[
            Role::Plays(&[
                (Step::Insert(0, 5), Ok(Reply::Applied(1, 0))),
                (Step::Watch, Ok(Reply::Number(1))),
                (Step::Signal, Ok(Reply::Done)),
                (Step::EvacuateHeld(0), Err(Refusal::StaleJob)),
                (Step::Lend(0), Ok(Reply::Lent(6))),
            ]),
            Role::Plays(&[
                (Step::Await(1), Ok(Reply::Done)),
                (Step::AwaitHeld, Ok(Reply::Done)),
                (Step::Set(0, 0, 6), Ok(Reply::Applied(2, 0))),
                (Step::OpenGate, Ok(Reply::Done)),
            ]),
        ],
        end: End::LeavesWatched(&[ROW_OF_6, NO_ROW, NO_ROW, NO_ROW], 2),
    },
    // One session fetches an object, and its get is held until the other session has tried to set its row.
    Scene {
        name: "an_edit_does_not_wait_for_a_fetch",
        table: Table::Numbers,
        gate: Gate::OfGets,
        roles: &[
            Role::Plays(&[
                (Step::Insert(0, 5), Ok(Reply::Applied(1, 0))),
                (Step::Evacuate(0), Ok(Reply::Object(FIRST))),
                (Step::Signal, Ok(Reply::Done)),
                (Step::Fetch(0, 0), Ok(Reply::Done)),
                (Step::Set(0, 0, 6), Ok(Reply::Applied(2, 0))),
            ]),
            Role::Plays(&[
                (Step::Await(1), Ok(Reply::Done)),
                (Step::AwaitHeld, Ok(Reply::Done)),
                (Step::Set(0, 0, 7), Err(AWAY)),
                (Step::OpenGate, Ok(Reply::Done)),
            ]),
        ],
        end: End::Leaves(&[ROW_OF_6, NO_ROW, NO_ROW, NO_ROW]),
    },
    // The same for the get of a row group that is built.
    Scene {
        name: "an_edit_does_not_wait_for_a_build_from_the_far_store",
        table: Table::Numbers,
        gate: Gate::OfGets,
        roles: &[
            Role::Plays(&[
                (Step::Insert(1, 5), Ok(Reply::Applied(1, 0))),
                (Step::Evacuate(1), Ok(Reply::Object(FIRST))),
                (Step::Watch, Ok(Reply::Number(1))),
                (Step::Signal, Ok(Reply::Done)),
                (Step::Build(1), Ok(Reply::Done)),
                (Step::Ask(1), Ok(Reply::Extrema(5, 5))),
            ]),
            Role::Plays(&[
                (Step::Await(1), Ok(Reply::Done)),
                (Step::AwaitHeld, Ok(Reply::Done)),
                (Step::Set(1, 0, 7), Err(AWAY)),
                (Step::OpenGate, Ok(Reply::Done)),
            ]),
        ],
        end: End::Leaves(&[NO_ROW, ROW_OF_5, NO_ROW, NO_ROW]),
    },
    // The put of one session is held until the put of the other begins.
    Scene {
        name: "two_sessions_put_at_once",
        table: Table::Numbers,
        gate: Gate::Paired,
        roles: &[
            Role::Plays(&[
                (Step::Insert(0, 5), Ok(Reply::Applied(1, 0))),
                (Step::Evacuate(0), Ok(Reply::Object(FIRST))),
                (Step::Set(0, 0, 1), Err(AWAY)),
            ]),
            Role::Plays(&[
                (Step::Insert(1, 7), Ok(Reply::Applied(1, 0))),
                (Step::Evacuate(1), Ok(Reply::Object(FIRST))),
                (Step::Set(1, 0, 1), Err(AWAY)),
            ]),
        ],
        end: End::Leaves(&[ROW_OF_5, ROW_OF_7, NO_ROW, NO_ROW]),
    },
    // The put is held until it becomes a fault.
    Scene {
        name: "a_fault_of_the_store_leaves_the_object_where_it_is",
        table: Table::Numbers,
        gate: Gate::Paired,
        roles: &[Role::Plays(&[
            (Step::Insert(0, 5), Ok(Reply::Applied(1, 0))),
            (Step::Evacuate(0), Err(Refusal::FarFault)),
            (Step::Lend(0), Ok(Reply::Lent(5))),
            (Step::Evacuate(0), Ok(Reply::Object(FIRST))),
        ])],
        end: End::Leaves(&[ROW_OF_5, NO_ROW, NO_ROW, NO_ROW]),
    },
    // One session reads a stripe, and keeps the lock until the other has edited another stripe and read the gauge of this one.
    Scene {
        name: "a_gauge_waits_for_no_lock",
        table: Table::Numbers,
        gate: Gate::Open,
        roles: &[
            Role::Plays(&[
                (Step::Insert(0, 5), Ok(Reply::Applied(1, 0))),
                (Step::Hold(0, 2), Ok(Reply::Done)),
            ]),
            Role::Plays(&[
                (Step::Await(1), Ok(Reply::Done)),
                (Step::Insert(1, 7), Ok(Reply::Applied(1, 0))),
                (Step::Gauge(0), Ok(Reply::Reading(1, 1, 5))),
                (Step::Signal, Ok(Reply::Done)),
            ]),
        ],
        end: End::Leaves(&[ROW_OF_5, ROW_OF_7, NO_ROW, NO_ROW]),
    },
    // One session reads a stripe, and keeps the lock until the other has read it too.
    Scene {
        name: "readers_of_a_stripe_do_not_wait_for_each_other",
        table: Table::Numbers,
        gate: Gate::Open,
        roles: &[
            Role::Plays(&[
                (Step::Insert(0, 5), Ok(Reply::Applied(1, 0))),
                (Step::Hold(0, 2), Ok(Reply::Done)),
            ]),
            Role::Plays(&[
                (Step::Await(1), Ok(Reply::Done)),
                (Step::Ask(0), Ok(Reply::Totals(1, 5))),
                (Step::Lend(0), Ok(Reply::Lent(5))),
                (Step::InPhases(Work::Build(0)), Ok(Reply::Nothing)),
                (Step::Build(0), Ok(Reply::Nothing)),
                (Step::Signal, Ok(Reply::Done)),
            ]),
        ],
        end: End::Leaves(&[ROW_OF_5, NO_ROW, NO_ROW, NO_ROW]),
    },
    // One session reads a stripe, and keeps the lock until the other has moved and built the objects of another stripe.
    Scene {
        name: "work_on_a_stripe_waits_for_no_other_stripe",
        table: Table::Numbers,
        gate: Gate::Open,
        roles: &[
            Role::Plays(&[
                (Step::Insert(0, 5), Ok(Reply::Applied(1, 0))),
                (Step::Insert(1, 7), Ok(Reply::Applied(1, 0))),
                (Step::Watch, Ok(Reply::Number(1))),
                (Step::Hold(0, 2), Ok(Reply::Done)),
            ]),
            Role::Plays(&[
                (Step::Await(1), Ok(Reply::Done)),
                (Step::Build(1), Ok(Reply::Done)),
                (Step::Evacuate(1), Ok(Reply::Object(FIRST))),
                (Step::InPhases(Work::Fetch(1, FIRST)), Ok(Reply::Done)),
                (Step::Signal, Ok(Reply::Done)),
            ]),
        ],
        end: End::Leaves(&[ROW_OF_5, ROW_OF_7, NO_ROW, NO_ROW]),
    },
    // One session reads a gauge before and after each edit of the other.
    Scene {
        name: "a_gauge_is_looked_at_each_time",
        table: Table::Numbers,
        gate: Gate::Open,
        roles: &[
            Role::Plays(&[
                (Step::Gauge(1), Ok(Reply::Reading(0, 0, 0))),
                (Step::Signal, Ok(Reply::Done)),
                (Step::Await(2), Ok(Reply::Done)),
                (Step::Gauge(1), Ok(Reply::Reading(1, 1, 5))),
                (Step::Signal, Ok(Reply::Done)),
                (Step::Await(4), Ok(Reply::Done)),
                (Step::Gauge(1), Ok(Reply::Reading(2, 1, 7))),
            ]),
            Role::Plays(&[
                (Step::Await(1), Ok(Reply::Done)),
                (Step::Insert(1, 5), Ok(Reply::Applied(1, 0))),
                (Step::Signal, Ok(Reply::Done)),
                (Step::Await(3), Ok(Reply::Done)),
                (Step::Set(1, 0, 7), Ok(Reply::Applied(2, 0))),
                (Step::Signal, Ok(Reply::Done)),
            ]),
        ],
        end: End::Leaves(&[NO_ROW, ROW_OF_7, NO_ROW, NO_ROW]),
    },
];

#[test]
fn worked_examples_come_out(rt: HostRuntime) {
    assert_eq!(rt; first_wrong(&rt, rt.alloc(), EXAMPLES), "");
}
