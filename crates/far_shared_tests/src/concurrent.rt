// Sessions that edit at once, beside work in the background and readers.
use crate::opening::comes_out;
use crate::scenes::{Duty, End, Gate, Left, NO_ROW, Role, Scene, Table};

// Four sessions edit, one works beside them, and two read the gauges.
static EDITED: Scene = Scene {
    name: "the_totals_are_those_of_the_accepted_edits_whatever_moves_meanwhile",
    table: Table::Numbers,
    gate: Gate::Open,
    roles: &[
        Role::Does(Duty::Edits(10_000)),
        Role::Does(Duty::Edits(10_000)),
        Role::Does(Duty::Edits(10_000)),
        Role::Does(Duty::Edits(10_000)),
        Role::Does(Duty::Works(4)),
        Role::Does(Duty::Reads(4)),
        Role::Does(Duty::Reads(4)),
    ],
    end: End::LeavesReported,
};

// The number of times that the scene is played. The calls come in another order each time.
const RUNS: u32 = 20;

#[test]
fn the_totals_are_those_of_the_accepted_edits_whatever_moves_meanwhile(rt: HostRuntime) {
    for _ in 0..RUNS {
        assert!(rt; comes_out(&rt, rt.alloc(), &EDITED));
    }
}

// One session inserts pairs of rows, and another asks.
static PAIRS: Scene = Scene {
    name: "an_answer_over_all_stripes_never_shows_a_later_row_without_the_earlier",
    table: Table::NumbersWithTexts,
    gate: Gate::Open,
    roles: &[
        Role::Does(Duty::InsertsPairs(100)),
        Role::Does(Duty::AsksPairs(100)),
    ],
    end: End::Leaves(&[HUNDRED, HUNDRED, NO_ROW, NO_ROW]),
};

// A hundred rows of the number 1.
const HUNDRED: Left = Left {
    places: 100,
    count: 100,
    sum: 100,
};

#[test]
fn an_answer_over_all_stripes_never_shows_a_later_row_without_the_earlier(rt: HostRuntime) {
    assert!(rt; comes_out(&rt, rt.alloc(), &PAIRS));
}

// Two sessions register aggregates at once, while two ask the gauge. Each call takes all four locks.
static REGISTERED: Scene = Scene {
    name: "registrations_and_answers_over_all_stripes_do_not_mix",
    table: Table::Numbers,
    gate: Gate::Open,
    roles: &[
        Role::Does(Duty::Registers(15)),
        Role::Does(Duty::Registers(15)),
        Role::Does(Duty::Asks(2)),
        Role::Does(Duty::Asks(2)),
    ],
    end: End::LeavesWatched(&[NO_ROW; 4], 31),
};

#[test]
fn registrations_and_answers_over_all_stripes_do_not_mix(rt: HostRuntime) {
    for _ in 0..RUNS {
        assert!(rt; comes_out(&rt, rt.alloc(), &REGISTERED));
    }
}
