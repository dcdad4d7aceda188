// Works that several threads do.
ghost use Rattle.std.specs.Prelude.{◌≡◌};

use crate::opening::first_wrong;
use crate::replies::worked;
use crate::scenes::{
    AWAY, End, FIRST, Gate, NO_ROW, ROW_OF_5, Replied, Reply, Role, SECOND, Scene, Step, TEXTS,
    Table, Works,
};
use far_sessions::PlanTag;
use far_shared::{Background, Shared, TableTag, Work};
use far_store::FarStore;
use far_types::Refusal;
use std::alloc::{AllocError, Global};
use std::sync::Wait;
use std::thread::Threads;

// Returns the works of a list.
fn works_in(list: Works) -> &'static [Work] {
    match list {
        Works::Eight => &[
            Work::Evacuate(0),
            Work::Evacuate(0),
            Work::Evacuate(0),
            Work::Evacuate(0),
            Work::Evacuate(1),
            Work::Evacuate(1),
            Work::Evacuate(1),
            Work::Evacuate(1),
        ],
        Works::Two => &[Work::Evacuate(0), Work::Evacuate(1)],
        Works::Fetch => &[Work::Fetch(1, FIRST)],
        Works::Build => &[Work::Build(1)],
        Works::Refused => &[Work::Evacuate(4), Work::Fetch(0, TEXTS), Work::Build(3)],
        Works::Last => &[
            Work::Evacuate(2),
            Work::Evacuate(3),
            Work::Evacuate(2),
            Work::Evacuate(3),
        ],
        Works::FetchSecond => &[Work::Fetch(3, SECOND)],
        Works::BuildLast => &[Work::Build(2), Work::Build(3)],
        Works::FetchTexts => &[Work::Fetch(0, TEXTS)],
        Works::ThereAndBack => &[Work::Evacuate(1), Work::Fetch(1, FIRST)],
    }
}

// Returns a list of these works.
fn list_of(alloc: Global, works: &[Work]) -> Result<Vec<Work>, AllocError> {
    let mut list = Vec::with_capacity(alloc, works.len())?;
    for work in works {
        list.push(*work)?;
    }
    Ok(list)
}

// Lets this many threads do these works.
pub fn run<
    N: PlanTag + Send + Sync,
    B: TableTag + Send + Sync,
    S: FarStore,
    R: Threads + Wait + Sync,
>(rt: &R, alloc: Global, shared: &Shared<N, B, S>, store: &S, workers: u32, works: Works) -> Replied
    requires store { S.store_id store.now ≡ B.store }
{
    match list_of(alloc, works_in(works)) {
        Ok(list) => worked(Background::run(rt, shared, store, workers, list)),
        Err(_) => Err(Refusal::NoMemory),
    }
}

static WORKS: &[Scene] = &[
    Scene {
        name: "workers_send_objects_away_and_no_row_changes",
        table: Table::Numbers,
        gate: Gate::Open,
        roles: &[Role::Plays(&[
            (Step::Insert(0, 5), Ok(Reply::Applied(1, 0))),
            (Step::Insert(1, 5), Ok(Reply::Applied(1, 0))),
            (Step::Ask(0), Ok(Reply::Totals(2, 10))),
            (Step::Run(0, Works::Eight), Err(Refusal::OutOfRange)),
            (Step::Run(9, Works::Eight), Err(Refusal::OutOfRange)),
            (Step::Lend(0), Ok(Reply::Lent(5))),
            (Step::Run(2, Works::Eight), Ok(Reply::Worked(8, 0))),
            (Step::Lend(0), Err(AWAY)),
            (Step::Lend(1), Err(AWAY)),
            (Step::Ask(0), Ok(Reply::Totals(2, 10))),
            (Step::Run(1, Works::Fetch), Ok(Reply::Worked(1, 0))),
            (Step::Lend(1), Ok(Reply::Lent(5))),
            (Step::Lend(0), Err(AWAY)),
            (Step::Watch, Ok(Reply::Number(1))),
            (Step::Run(1, Works::Build), Ok(Reply::Worked(1, 0))),
            (Step::Build(1), Ok(Reply::Nothing)),
            (Step::Ask(1), Err(Refusal::Building(1))),
        ])],
        end: End::Leaves(&[ROW_OF_5, ROW_OF_5, NO_ROW, NO_ROW]),
    },
    // The put of one worker is held until the put of the other begins.
    Scene {
        name: "two_workers_put_at_once",
        table: Table::Numbers,
        gate: Gate::Paired,
        roles: &[Role::Plays(&[
            (Step::Insert(0, 5), Ok(Reply::Applied(1, 0))),
            (Step::Insert(1, 5), Ok(Reply::Applied(1, 0))),
            (Step::Run(2, Works::Two), Ok(Reply::Worked(2, 0))),
            (Step::Set(0, 0, 1), Err(AWAY)),
            (Step::Set(1, 0, 1), Err(AWAY)),
        ])],
        end: End::Leaves(&[ROW_OF_5, ROW_OF_5, NO_ROW, NO_ROW]),
    },
    // The works of one thread are done in order.
    Scene {
        name: "a_work_follows_the_one_before_it",
        table: Table::Numbers,
        gate: Gate::Open,
        roles: &[Role::Plays(&[
            (Step::Insert(1, 5), Ok(Reply::Applied(1, 0))),
            (Step::Run(1, Works::ThereAndBack), Ok(Reply::Worked(2, 0))),
            (Step::Lend(1), Ok(Reply::Lent(5))),
            (Step::Evacuate(1), Ok(Reply::Object(FIRST))),
        ])],
        end: End::Leaves(&[NO_ROW, ROW_OF_5, NO_ROW, NO_ROW]),
    },
    // A fifth stripe, a column that does not exist, and nothing to build.
    Scene {
        name: "a_report_counts_what_was_refused",
        table: Table::Numbers,
        gate: Gate::Open,
        roles: &[Role::Plays(&[(Step::Run(8, Works::Refused), Ok(Reply::Worked(1, 2)))])],
        end: End::Leaves(&[NO_ROW; 4]),
    },
];

#[test]
fn works_of_several_threads_are_done(rt: HostRuntime) {
    assert_eq!(rt; first_wrong(&rt, rt.alloc(), WORKS), "");
}
