// Scenes of many objects in little space: a call finds the object that it names, and says so if there is no space or nothing to do.
use crate::opening::first_wrong;
use crate::scenes::{
    AWAY, End, FIRST, Gate, Left, Letter, NO_ROW, Reply, Role, SECOND, Scene, Step, TEXTS, Table,
    Works,
};
use far_shared::Work;
use far_types::Refusal;

// The numbers of the second row group are away.
const SECOND_AWAY: Refusal = Refusal::Absent {
    column: 0,
    group: 1,
};

// The texts are away.
const TEXTS_AWAY: Refusal = Refusal::Absent {
    column: 1,
    group: 0,
};

static OBJECTS: &[Scene] = &[
    // A local object is not fetched.
    Scene {
        name: "an_object_goes_and_comes_by_its_name",
        table: Table::Narrow,
        gate: Gate::Open,
        roles: &[Role::Plays(&[
            (Step::Insert(0, 5), Ok(Reply::Applied(1, 0))),
            (Step::Insert(0, 6), Ok(Reply::Applied(2, 1))),
            (Step::Evacuate(0), Ok(Reply::Object(FIRST))),
            (Step::Evacuate(0), Ok(Reply::Object(SECOND))),
            (Step::Evacuate(0), Ok(Reply::Nothing)),
            (Step::Fetch(0, 2), Err(Refusal::OutOfRange)),
            (Step::Fetch(0, 1), Ok(Reply::Done)),
            (Step::Fetch(0, 1), Err(Refusal::StaleJob)),
            (Step::Set(0, 0, 9), Err(AWAY)),
            (Step::Set(0, 1, 9), Ok(Reply::Applied(3, 1))),
        ])],
        end: End::Leaves(&[
            Left {
                places: 2,
                count: 2,
                sum: 14,
            },
            NO_ROW,
            NO_ROW,
            NO_ROW,
        ]),
    },
    // A stripe has space for two objects.
    Scene {
        name: "an_object_that_does_not_fit_stays_away",
        table: Table::Narrow,
        gate: Gate::Open,
        roles: &[Role::Plays(&[
            (Step::Insert(0, 5), Ok(Reply::Applied(1, 0))),
            (Step::Insert(0, 6), Ok(Reply::Applied(2, 1))),
            (Step::Insert(0, 7), Err(Refusal::RegionFull)),
            (Step::Evacuate(0), Ok(Reply::Object(FIRST))),
            (Step::Insert(0, 7), Ok(Reply::Applied(3, 2))),
            (Step::Fetch(0, 0), Err(Refusal::RegionFull)),
            (Step::Set(0, 0, 9), Err(AWAY)),
        ])],
        end: End::Leaves(&[
            Left {
                places: 3,
                count: 3,
                sum: 18,
            },
            NO_ROW,
            NO_ROW,
            NO_ROW,
        ]),
    },
    // The store has space for four contents.
    Scene {
        name: "an_object_that_the_store_does_not_take_stays",
        table: Table::Narrow,
        gate: Gate::Open,
        roles: &[Role::Plays(&[
            (Step::Insert(0, 5), Ok(Reply::Applied(1, 0))),
            (Step::Insert(0, 6), Ok(Reply::Applied(2, 1))),
            (Step::Evacuate(0), Ok(Reply::Object(FIRST))),
            (Step::Evacuate(0), Ok(Reply::Object(SECOND))),
            (Step::Insert(1, 5), Ok(Reply::Applied(1, 0))),
            (Step::Insert(1, 6), Ok(Reply::Applied(2, 1))),
            (Step::Evacuate(1), Ok(Reply::Object(FIRST))),
            (Step::Evacuate(1), Ok(Reply::Object(SECOND))),
            (Step::Insert(0, 7), Ok(Reply::Applied(3, 2))),
            (Step::Evacuate(0), Err(Refusal::FarFull)),
            (Step::Set(0, 2, 8), Ok(Reply::Applied(4, 2))),
        ])],
        end: End::Leaves(&[
            Left {
                places: 3,
                count: 3,
                sum: 19,
            },
            Left {
                places: 2,
                count: 2,
                sum: 11,
            },
            NO_ROW,
            NO_ROW,
        ]),
    },
    // Each work is done on its own stripe and row group.
    Scene {
        name: "works_name_a_stripe_and_a_row_group",
        table: Table::Narrow,
        gate: Gate::Open,
        roles: &[Role::Plays(&[
            (Step::Insert(2, 5), Ok(Reply::Applied(1, 0))),
            (Step::Insert(2, 6), Ok(Reply::Applied(2, 1))),
            (Step::Insert(3, 7), Ok(Reply::Applied(1, 0))),
            (Step::Insert(3, 8), Ok(Reply::Applied(2, 1))),
            (Step::Run(1, Works::Last), Ok(Reply::Worked(4, 0))),
            (Step::Lend(2), Err(AWAY)),
            (Step::Lend(3), Err(AWAY)),
            (Step::Run(1, Works::FetchSecond), Ok(Reply::Worked(1, 0))),
            (Step::Lend(3), Err(AWAY)),
            (Step::Set(2, 1, 9), Err(SECOND_AWAY)),
            (Step::Set(3, 1, 9), Ok(Reply::Applied(3, 1))),
            (Step::Watch, Ok(Reply::Number(1))),
            (Step::Ask(1), Err(Refusal::Building(4))),
            (Step::Run(1, Works::BuildLast), Ok(Reply::Worked(2, 0))),
            (Step::Ask(1), Err(Refusal::Building(2))),
            (Step::Build(2), Ok(Reply::Done)),
            (Step::Build(2), Ok(Reply::Nothing)),
            (Step::Build(3), Ok(Reply::Done)),
            (Step::Build(3), Ok(Reply::Nothing)),
            (Step::Ask(1), Ok(Reply::Extrema(5, 9))),
        ])],
        end: End::LeavesWatched(
            &[
                NO_ROW,
                NO_ROW,
                Left {
                    places: 2,
                    count: 2,
                    sum: 11,
                },
                Left {
                    places: 2,
                    count: 2,
                    sum: 16,
                },
            ],
            2,
        ),
    },
    // One work is done on the first stripe, and it is done once.
    Scene {
        name: "a_work_evicts_one_object",
        table: Table::Narrow,
        gate: Gate::Open,
        roles: &[Role::Plays(&[
            (Step::Insert(0, 5), Ok(Reply::Applied(1, 0))),
            (Step::Insert(0, 6), Ok(Reply::Applied(2, 1))),
            (Step::Run(1, Works::Two), Ok(Reply::Worked(2, 0))),
            (Step::Set(0, 0, 9), Err(AWAY)),
            (Step::Set(0, 1, 9), Ok(Reply::Applied(3, 1))),
        ])],
        end: End::Leaves(&[
            Left {
                places: 2,
                count: 2,
                sum: 14,
            },
            NO_ROW,
            NO_ROW,
            NO_ROW,
        ]),
    },
    // A removal needs both columns.
    Scene {
        name: "a_refusal_names_the_lowest_column_that_is_away",
        table: Table::NumbersWithTexts,
        gate: Gate::Open,
        roles: &[Role::Plays(&[
            (Step::InsertKeyed(0, Letter::P), Ok(Reply::Applied(1, 0))),
            (Step::Evacuate(0), Ok(Reply::Object(FIRST))),
            (Step::Remove(0, 0), Err(AWAY)),
            (Step::Evacuate(0), Ok(Reply::Object(TEXTS))),
            (Step::Evacuate(0), Ok(Reply::Nothing)),
            (Step::Remove(0, 0), Err(AWAY)),
            (Step::Fetch(0, 0), Ok(Reply::Done)),
            (Step::Remove(0, 0), Err(TEXTS_AWAY)),
            (Step::Run(1, Works::FetchTexts), Ok(Reply::Worked(1, 0))),
            (
                Step::InPhases(Work::Fetch(0, TEXTS)),
                Err(Refusal::StaleJob),
            ),
            (Step::Remove(0, 0), Ok(Reply::Applied(2, 0))),
        ])],
        end: End::Leaves(&[
            Left {
                places: 1,
                count: 0,
                sum: 0,
            },
            NO_ROW,
            NO_ROW,
            NO_ROW,
        ]),
    },
];

#[test]
fn objects_go_and_come_by_their_names(rt: HostRuntime) {
    assert_eq!(rt; first_wrong(&rt, rt.alloc(), OBJECTS), "");
}
