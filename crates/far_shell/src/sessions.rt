// Starts a run. Each of these functions picks one type parameter: the plan's, the store's or the cells'.
ghost use Rattle.std.specs.Prelude.{◌≡◌, ◌≤◌, IfOk};
ghost use Rattle.far_shared.specs.Opening.{HaveNames};
ghost use Rattle.far_shell.specs.Runs.{IsOutcome, IsRun, store_capacity};
ghost use Rattle.far_shell.specs.Working.{HasHomes};

mod ending;
mod evacuating;
mod inserting;
mod outcome;
mod planning;
mod reading;
mod running;
mod tries;
mod worked;

pub use ending::Differing;
pub use evacuating::Evictions;
use far_sessions::PlanTag;
use far_shared::{Made, Plan, TableTag};
use far_store::{AgentStore, FarStore};
pub use outcome::{Outcome, Stop};
use planning::plan_for;
use running::run_shared;
use std::alloc::Global;
use std::marker::Brand;
use std::sync::Wait;
use std::thread::Threads;
pub use tries::GaveUp;

/// How many contents the store of a run can hold.
const STORE_CAPACITY: u64 = 1_048_576;

/// Opens a table, and runs its sessions.
fn opened<
    N: PlanTag + Send + Sync,
    B: TableTag + Send + Sync,
    S: FarStore,
    R: Threads + Wait + Sync,
>(rt: &R, alloc: Global, made: Made<N, S>, store: &S, edits: u32) -> Result<Outcome, Stop>
    requires names { HaveNames made B.cells }
    requires store { S.store_id store.now ≡ B.store }
    requires homes { HasHomes N.plan }
    ensures { IfOk result (IsRun N.plan edits) }
{
    let Ok((shared, sessions)) = made.open::<B>(alloc) else {
        return Err(Stop::Memory);
    };
    run_shared(rt, alloc, shared, store, sessions, edits)
}

/// Makes the cells and the store's brand, and runs the sessions.
fn named<N: PlanTag + Send + Sync, S: FarStore, R: Threads + Wait + Sync>(
    rt: &R,
    alloc: Global,
    made: Made<N, S>,
    store: &S,
    edits: u32,
) -> Result<Outcome, Stop>
    requires homes { HasHomes N.plan }
    ensures { IfOk result (IsRun N.plan edits) }
{
    opened::<N, Brand, S, R>(rt, alloc, made, store, edits)
}

/// Makes the shared plan, and runs its sessions over a store.
fn made_over<N: PlanTag + Send + Sync, S: FarStore, R: Threads + Wait + Sync>(
    rt: &R,
    alloc: Global,
    plan: Plan,
    store: &S,
    edits: u32,
) -> Result<Outcome, Stop>
    requires name { plan ≡ N.plan }
    requires homes { HasHomes N.plan }
    requires capacity { S.capacity_of store.now ≡ store_capacity }
    ensures { IfOk result (IsRun N.plan edits) }
{
    let Ok(made) = plan.make::<N, S>(alloc) else {
        return Err(Stop::Memory);
    };
    named(rt, alloc, made, store, edits)
}

/// Makes a store in this process, and runs the sessions of a plan.
fn planned<N: PlanTag + Send + Sync, R: Threads + Wait + Sync>(
    rt: &R,
    alloc: Global,
    plan: Plan,
    edits: u32,
) -> Result<Outcome, Stop>
    requires name { plan ≡ N.plan }
    requires homes { HasHomes plan }
    ensures { IfOk result (IsRun plan edits) }
{
    let Ok(store) = AgentStore::new(rt, alloc, STORE_CAPACITY) else {
        return Err(Stop::Memory);
    };
    made_over::<N, AgentStore<&R>, R>(rt, alloc, plan, &store, edits)
}

/// Runs sessions on threads over one shared table:
///
/// 1. Each session inserts `edits` rows of the number 1 on its home stripe. A background worker tries to evict as many
///    objects, from each stripe in turn.
/// 2. When all have ended, the gauge of each session's home stripe is read, and the gauge is asked over all stripes.
/// 3. The table is closed.
///
/// Each gauge shows just the rows that its session inserted, and the answer counts the rows of all sessions. The outcome
/// also counts what the worker tried and evicted.
///
/// A session whose edit is refused since an object is away fetches that object and tries again. If space is short, it
/// evicts an object and tries again. Ends with:
///
/// - `Memory`, if a call runs out of memory;
/// - `Turns`, if an edit was tried 10,000 times or is refused for another reason;
/// - `Answers`, if the closed stripes have another answer than before.
pub fn run_sessions<R: Threads + Wait + Sync>(
    rt: &R,
    alloc: Global,
    sessions: u32,
    edits: u32,
) -> Result<Outcome, Stop>
    requires some { 1 ≤ sessions }
    requires few { sessions ≤ 4 }
    ensures ok { IfOk result (IsOutcome sessions edits) }
{
    let plan = plan_for(alloc, sessions)?;
    planned::<Brand, R>(rt, alloc, plan, edits)
}
