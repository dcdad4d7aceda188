// Begins a scene: picks the type names of its plan, of its cells and of its store, each by a call.
ghost use Rattle.std.specs.Prelude.{◌≡◌};
ghost use Rattle.far_shared.specs.Opening.{HaveNames};

use crate::ending::ends;
use crate::gates::{Gated, with_gate};
use crate::plans::{capacity_of, plan_of};
use crate::playing::play_to_end;
use crate::scenes::Scene;
use far_sessions::PlanTag;
use far_shared::{Made, Plan, TableTag};
use far_store::{AgentStore, FarStore};
use far_types::Refusal;
use std::alloc::Global;
use std::marker::Brand;
use std::sync::Wait;
use std::thread::Threads;

// Returns whether a scene passes on a table whose cells and store have these names.
fn opened<
    N: PlanTag + Send + Sync,
    B: TableTag + Send + Sync,
    S: FarStore + Gated,
    R: Threads + Wait + Sync,
>(rt: &R, alloc: Global, made: Made<N, S>, store: &S, scene: &Scene) -> Result<bool, Refusal>
    requires names { HaveNames made B.cells }
    requires store { S.store_id store.now ≡ B.store }
{
    let Ok((shared, sessions)) = made.open::<B>(alloc) else {
        return Err(Refusal::NoMemory);
    };
    let finale = play_to_end(rt, alloc, &shared, store, sessions, scene);
    ends(rt, shared, finale)
}

// Names the cells of a table and its store.
fn named<N: PlanTag + Send + Sync, S: FarStore + Gated, R: Threads + Wait + Sync>(
    rt: &R,
    alloc: Global,
    made: Made<N, S>,
    store: &S,
    scene: &Scene,
) -> Result<bool, Refusal> {
    opened::<N, Brand, S, R>(rt, alloc, made, store, scene)
}

// Does the same on a table of a plan with this name.
fn planned<N: PlanTag + Send + Sync, S: FarStore + Gated, R: Threads + Wait + Sync>(
    rt: &R,
    alloc: Global,
    plan: Plan,
    store: &S,
    scene: &Scene,
) -> Result<bool, Refusal>
    requires { plan ≡ N.plan }
{
    let made = plan.make::<N, S>(alloc);
    made.and_then(|made: Made<N, S>| -> Result<bool, Refusal> {
        named(rt, alloc, made, store, scene)
    })
}

// Does the same over a borrowed store.
fn staged<S: FarStore + Gated, R: Threads + Wait + Sync>(
    rt: &R,
    alloc: Global,
    store: &S,
    scene: &Scene,
) -> Result<bool, Refusal> {
    match plan_of(alloc, scene.table, scene.roles.len() as u64) {
        Ok(plan) => planned::<Brand, S, R>(rt, alloc, plan, store, scene),
        Err(refusal) => Err(refusal),
    }
}

// Does the same over a store of its own.
fn on_agent<R: Threads + Wait + Sync>(
    rt: &R,
    alloc: Global,
    scene: &Scene,
) -> Result<bool, Refusal> {
    match AgentStore::new(rt, alloc, capacity_of(scene.table)) {
        Ok(store) => {
            let store = with_gate(store, scene.gate);
            let answer = staged(rt, alloc, &store, scene);
            drop(store);
            answer
        }
        Err(refusal) => Err(refusal),
    }
}

// Returns whether a scene passes. If its first run was out of memory, it is played a second time.
pub fn comes_out<R: Threads + Wait + Sync>(rt: &R, alloc: Global, scene: &Scene) -> bool {
    let answer = match on_agent(rt, alloc, scene) {
        Err(Refusal::NoMemory) => on_agent(rt, alloc, scene),
        answer => answer,
    };
    answer == Ok(true)
}

// Returns the name of the first of these scenes that does not pass, or `None`.
pub fn first_wrong<R: Threads + Wait + Sync>(
    rt: &R,
    alloc: Global,
    scenes: &[Scene],
) -> &'static str {
    for scene in scenes {
        if !comes_out(rt, alloc, scene) {
            return scene.name;
        }
    }
    ""
}
