// Plays a scene, with each session in a thread of its own.
ghost use Rattle.std.specs.Prelude.{◌≡◌};

use crate::ending::{Finale, finale_of};
use crate::gates::Gated;
use crate::lines::play_lines;
use crate::roles::{do_duty, left_if};
use crate::scenes::{End, Left, Replied, Role, Scene, Step};
use crate::serving::serve;
use crate::signals::Signals;
use far_sessions::{PlanTag, Session};
use far_shared::{Shared, TableTag};
use far_store::FarStore;
use far_types::Refusal;
use std::alloc::{AllocError, Global};
use std::sync::Wait;
use std::thread::{self, Threads};

// A session that has played its role, and the rows that it reports for its home stripe. Refused if something was not as
// expected.
#[derive(Drop)]
pub struct Played<P> {
    pub session: P,
    pub left: Result<Left, Refusal>,
}

// The values that all sessions of a scene share besides the table and its store.
#[derive(Drop)]
struct Stage {
    alloc: Global,
    signals: Signals,
    scene: Scene,
}

// Returns the role of a session.
fn role_of(scene: &Scene, number: u64) -> Role {
    match scene.roles.get(number as usize) {
        Some(role) => *role,
        None => Role::Plays(&[]),
    }
}

// Plays the role of a session, which its player knows only by the replies to its calls. A player gets no scene: the borrow checker does
// not cover a closure beside values that live for ever.
fn play_as<
    N: PlanTag + Send + Sync,
    B: TableTag + Send + Sync,
    S: FarStore + Gated,
    R: Threads + Wait + Sync,
>(
    rt: &R,
    shared: &Shared<N, B, S>,
    store: &S,
    stage: &Stage,
    me: &mut Session<B>,
    number: u64,
) -> Result<Left, Refusal>
    requires store { S.store_id store.now ≡ B.store }
{
    let alloc = stage.alloc;
    let signals = &stage.signals;
    let call = |me: &mut Session<B>, step: Step| -> Replied
        requires { S.store_id store.now ≡ B.store }
    { serve(rt, alloc, shared, store, signals, me, step) };
    match role_of(&stage.scene, number) {
        Role::Plays(lines) => left_if(play_lines(&call, me, lines)),
        Role::Does(duty) => do_duty(alloc, &call, me, signals, number, duty),
    }
}

// Does the same for a session that is passed on, once all sessions are there, so that none waits for one that never comes.
fn play<
    N: PlanTag + Send + Sync,
    B: TableTag + Send + Sync,
    S: FarStore + Gated,
    R: Threads + Wait + Sync,
>(
    rt: &R,
    shared: &Shared<N, B, S>,
    store: &S,
    stage: &Stage,
    mut me: Session<B>,
) -> Played<Session<B>>
    requires store { S.store_id store.now ≡ B.store }
{
    let number = me.number();
    let left = if stage.signals.gathers(stage.scene.roles.len() as u64) {
        play_as(rt, shared, store, stage, &mut me, number)
    } else {
        Err(Refusal::NoMemory)
    };
    Played { session: me, left }
}

// Plays the roles of all sessions, each in a thread of its own.
fn play_all<
    N: PlanTag + Send + Sync,
    B: TableTag + Send + Sync,
    S: FarStore + Gated,
    R: Threads + Wait + Sync,
>(
    rt: &R,
    shared: &Shared<N, B, S>,
    store: &S,
    stage: &Stage,
    sessions: Vec<Session<B>>,
) -> Result<Vec<Played<Session<B>>>, AllocError>
    requires store { S.store_id store.now ≡ B.store }
{
    let play_one = |me: Session<B>| -> Played<Session<B>>
        requires { S.store_id store.now ≡ B.store }
    { play(rt, shared, store, stage, me) };
    thread::map_vec(rt, sessions, &play_one)
}

// Returns the parts that the end of a scene needs, if there was memory for its threads.
fn ended<P: Drop>(
    alloc: Global,
    played: Result<Vec<Played<P>>, AllocError>,
    end: End,
) -> Result<Finale<P>, Refusal> {
    match played {
        Ok(played) => finale_of(alloc, played, end),
        Err(_) => Err(Refusal::NoMemory),
    }
}

// Plays the roles of all sessions.
pub fn play_to_end<
    N: PlanTag + Send + Sync,
    B: TableTag + Send + Sync,
    S: FarStore + Gated,
    R: Threads + Wait + Sync,
>(
    rt: &R,
    alloc: Global,
    shared: &Shared<N, B, S>,
    store: &S,
    sessions: Vec<Session<B>>,
    scene: &Scene,
) -> Result<Finale<Session<B>>, Refusal>
    requires store { S.store_id store.now ≡ B.store }
{
    let stage = Stage {
        alloc,
        signals: Signals::new(),
        scene: *scene,
    };
    let played = play_all(rt, shared, store, &stage, sessions);
    ended(alloc, played, scene.end)
}
