// Runs sessions on threads beside a background worker.
ghost use Rattle.std.specs.Prelude.{◌≡◌, ◌⊎◌, IfErr, IfOk, IsErrOf, IsOk, IsOkAnd};
ghost use Rattle.far_sessions.specs.Known.{newcomers};
ghost use Rattle.far_shell.specs.Runs.{IsRun};
ghost use Rattle.far_shell.specs.Working.{AreLeft, AreWorked, HasHomes, IsWorked};

use super::ending::end;
use super::evacuating::{Evictions, evacuate_all};
use super::inserting::insert_all;
use super::outcome::{Outcome, Stop};
use super::reading::read_all;
use super::worked::{Worked, home_of};
use far_sessions::{PlanTag, Session};
use far_shared::{Shared, TableTag};
use far_store::FarStore;
use std::alloc::Global;
use std::sync::Wait;
use std::thread::{self, Threads};

/// Makes the edits of one session on its home stripe.
fn work<N: PlanTag, B: TableTag, S: FarStore, R: Wait>(
    rt: &R,
    alloc: Global,
    shared: &Shared<N, B, S>,
    store: &S,
    mut me: Session<B>,
    edits: u32,
) -> Worked<B>
    requires store { S.store_id store.now ≡ B.store }
    ensures { IsWorked edits me result }
{
    let home = home_of(&me);
    let outcome = insert_all(rt, alloc, shared, store, &mut me, home, edits);
    Worked {
        session: me,
        outcome,
    }
}

/// Makes the edits of all sessions, each on a thread of its own if one can be made.
fn work_all<
    N: PlanTag + Send + Sync,
    B: TableTag + Send + Sync,
    S: FarStore,
    R: Threads + Wait + Sync,
>(
    rt: &R,
    alloc: Global,
    shared: &Shared<N, B, S>,
    store: &S,
    sessions: Vec<Session<B>>,
    edits: u32,
) -> Result<Vec<Worked<B>>, Stop>
    requires store { S.store_id store.now ≡ B.store }
    ensures worked { IfOk result (λ worked. AreWorked edits sessions.items worked.items) }
{
    let work_one = |me: Session<B>| -> Worked<B>
        requires { S.store_id store.now ≡ B.store }
        ensures { IsWorked edits me result }
    { work(rt, alloc, shared, store, me, edits) };
    let worked = thread::map_vec(rt, sessions, &work_one)?;
    Ok(worked)
}

/// Returns both values, or the first error.
fn both_or_stop<A: Drop, T: Drop>(
    first: Result<A, Stop>,
    second: Result<T, Stop>,
) -> Result<(A, T), Stop>
    ensures first { IfOk result (λ both. IsOkAnd first (λ x. x ≡ both.0)) }
    ensures second { IfOk result (λ both. IsOkAnd second (λ x. x ≡ both.1)) }
    ensures stopped { IfErr result
        (λ stop. IsErrOf first stop ⊎ (IsOk first × IsErrOf second stop)) }
{
    let one = first?;
    let other = second?;
    Ok((one, other))
}

/// Makes the edits of all sessions while a background worker tries to evict `edits` objects.
fn work_beside<
    N: PlanTag + Send + Sync,
    B: TableTag + Send + Sync,
    S: FarStore,
    R: Threads + Wait + Sync,
>(
    rt: &R,
    alloc: Global,
    shared: &Shared<N, B, S>,
    store: &S,
    sessions: Vec<Session<B>>,
    edits: u32,
) -> Result<(Evictions, Vec<Worked<B>>), Stop>
    requires store { S.store_id store.now ≡ B.store }
    ensures worked { IfOk result (λ both. AreWorked edits sessions.items both.1.items) }
    ensures tried { IfOk result (λ both. both.0.tries ≡ edits) }
{
    // Only the first closure goes to another thread, and it holds only references.
    let (evictions, worked) = thread::join(
        rt,
        || -> Result<Evictions, Stop>
            requires { S.store_id store.now ≡ B.store }
            ensures { IfOk result (λ evictions. evictions.tries ≡ edits) }
        { evacuate_all(rt, shared, store, edits) },
        || -> Result<Vec<Worked<B>>, Stop>
            requires { S.store_id store.now ≡ B.store }
            ensures { IfOk result (λ worked. AreWorked edits sessions.items worked.items) }
        { work_all(rt, alloc, shared, store, sessions, edits) },
    );
    both_or_stop(evictions, worked)
}

/// Makes the edits of all sessions while a background worker evicts objects, and then reads the gauges and the answer.
/// Returns the sessions and their outcome.
fn leave<
    N: PlanTag + Send + Sync,
    B: TableTag + Send + Sync,
    S: FarStore,
    R: Threads + Wait + Sync,
>(
    rt: &R,
    alloc: Global,
    shared: &Shared<N, B, S>,
    store: &S,
    sessions: Vec<Session<B>>,
    edits: u32,
) -> Result<(Vec<Session<B>>, Outcome), Stop>
    requires store { S.store_id store.now ≡ B.store }
    requires sessions { sessions.items ≡ newcomers N.plan.sessions }
    ensures { IfOk result (λ left. AreLeft N.plan edits left.0.items left.1) }
{
    let (evictions, worked) = work_beside(rt, alloc, shared, store, sessions, edits)?;
    read_all(rt, alloc, shared, evictions, worked, edits)
}

/// Runs sessions on a table, reads the outcome, and closes the table.
pub(crate) fn run_shared<
    N: PlanTag + Send + Sync,
    B: TableTag + Send + Sync,
    S: FarStore,
    R: Threads + Wait + Sync,
>(
    rt: &R,
    alloc: Global,
    shared: Shared<N, B, S>,
    store: &S,
    sessions: Vec<Session<B>>,
    edits: u32,
) -> Result<Outcome, Stop>
    requires store { S.store_id store.now ≡ B.store }
    requires homes { HasHomes N.plan }
    requires sessions { sessions.items ≡ newcomers N.plan.sessions }
    ensures { IfOk result (IsRun N.plan edits) }
{
    let left = leave(rt, alloc, &shared, store, sessions, edits);
    end(rt, alloc, shared, left, edits)
}
