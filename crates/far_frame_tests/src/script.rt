//! Plays scripts: calls on a world with their replies. If memory runs out, a call is made again, or its script is played
//! again.
ghost use Rattle.far_rows.specs.Jobs.{AreAt};

use crate::answers::{Due, is_reply, is_row};
use crate::call::{Call, step};
use crate::opening::{Opening, Plan, migrate, stores, world};
use far_frame::{Frame, Job, Reply, Step, World};
use far_store::{FarStore, FarTickets, Meter};
use far_types::{Answer, LentRow, Name, Refusal};
use std::alloc::Global;
use std::sync::Wait;
use std::test::Fail;
use std::thread::Threads;
use std::vec::IntoIter;

/// Calls, each with its expected reply.
pub type Calls = &'static [(Call, Due<'static>)];

/// A move of the table to its next store, with the refusal if one is expected, and the calls after it.
pub struct Turn {
    pub refused: Option<Refusal>,
    pub calls: Calls,
}

/// Calls on a new table over the first of its stores, and then over each of the others.
pub struct Script {
    pub name: &'static str,
    pub opening: Opening,
    pub plans: &'static [Plan],
    pub calls: Calls,
    pub then: &'static [Turn],
}

/// A script, and the index of its first call that did not reply as expected.
pub type Wrong = (&'static str, usize);

/// Fails if a call of a script did not reply as expected, and names both.
pub fn answered(first_wrong: Result<Option<Wrong>, Refusal>) -> Result<(), Fail> {
    match first_wrong? {
        Some((name, at)) => Err(Fail::new(format_args!("{name}: call {at}"))),
        None => Ok(()),
    }
}

/// Plays scripts, up to the first with an unexpected reply.
pub fn play_all<R: Threads + Wait + Sync>(
    rt: &R,
    alloc: Global,
    scripts: &[Script],
) -> Result<Option<Wrong>, Refusal> {
    for script in scripts {
        match play(rt, alloc, script) {
            Ok(None) => {}
            Ok(Some(at)) => return Ok(Some((script.name, at))),
            Err(refusal) => return Err(refusal),
        }
    }
    Ok(None)
}

// Plays a script, a second time if memory ran out for its table or its store.
fn play<R: Threads + Wait + Sync>(
    rt: &R,
    alloc: Global,
    script: &Script,
) -> Result<Option<usize>, Refusal> {
    match play_once(rt, alloc, script) {
        Err(Refusal::NoMemory) => play_once(rt, alloc, script),
        played => played,
    }
}

fn play_once<R: Threads + Wait + Sync>(
    rt: &R,
    alloc: Global,
    script: &Script,
) -> Result<Option<usize>, Refusal> {
    play_over(rt, alloc, stores(rt, alloc, script.plans), script)
}

/// Returns the index of the first call of a script that does not reply as expected, over these stores if they were made.
pub fn play_over<S: FarStore, R: Threads + Sync>(
    rt: &R,
    alloc: Global,
    stores: Result<Vec<S>, Refusal>,
    script: &Script,
) -> Result<Option<usize>, Refusal> {
    match stores {
        Ok(stores) => play_in_turn(rt, alloc, stores, script),
        Err(refusal) => Err(refusal),
    }
}

// Returns the same for one store after another.
fn play_in_turn<S: FarStore, R: Threads + Sync>(
    rt: &R,
    alloc: Global,
    stores: Vec<S>,
    script: &Script,
) -> Result<Option<usize>, Refusal> {
    let mut others = stores.into_iter();
    let first = others.next().ok_or(Refusal::FarFull);
    match world(alloc, script.opening.kinds, script.opening.limits, first) {
        Ok(world) => play_on(rt, alloc, world, others, script),
        Err(refusal) => Err(refusal),
    }
}

// Returns the same for a new world, which then moves to the other stores.
fn play_on<S: FarStore, R: Threads + Sync>(
    rt: &R,
    alloc: Global,
    mut world: World<S>,
    others: IntoIter<S, Global>,
    script: &Script,
) -> Result<Option<usize>, Refusal> {
    let mut wrong = play_first(rt, alloc, &mut world, script);
    for (store, turn) in others.zip(script.then) {
        let (next, refused) = migrate(world, store);
        world = next;
        wrong = match so_far(wrong, refused, turn.refused, script.calls.len()) {
            Ok(None) => first_wrong(rt, alloc, &mut world, turn.calls),
            wrong => wrong,
        };
    }
    drop(world);
    wrong
}

// Returns the same for the first store.
fn play_first<S: FarStore, R: Threads + Sync>(
    rt: &R,
    alloc: Global,
    world: &mut World<S>,
    script: &Script,
) -> Result<Option<usize>, Refusal> {
    match first_wrong(rt, alloc, world, script.opening.rows) {
        Ok(None) => first_wrong(rt, alloc, world, script.calls),
        wrong => wrong,
    }
}

// Returns the first unexpected call so far, or `behind`, the number of calls, if a move did not end as expected.
fn so_far(
    wrong: Result<Option<usize>, Refusal>,
    refused: Option<Refusal>,
    due: Option<Refusal>,
    behind: usize,
) -> Result<Option<usize>, Refusal> {
    match wrong {
        Ok(None) if refused == Some(Refusal::NoMemory) => Err(Refusal::NoMemory),
        Ok(None) if refused != due => Ok(Some(behind)),
        wrong => wrong,
    }
}

/// Returns the index of the first call that does not reply as expected.
pub fn first_wrong<S: FarStore, R: Threads + Sync>(
    rt: &R,
    alloc: Global,
    world: &mut World<S>,
    calls: &[(Call, Due<'_>)],
) -> Result<Option<usize>, Refusal> {
    for (at, (call, due)) in calls.iter().enumerate() {
        match is_answered(rt, alloc, world, *call, *due) {
            Ok(true) => {}
            Ok(false) => return Ok(Some(at)),
            Err(refusal) => return Err(refusal),
        }
    }
    Ok(None)
}

// Returns whether a call replies as expected, made again if memory runs out. A recount is not made again: it would read its
// contents once more, so a planned fault would come at another call.
fn is_answered<S: FarStore, R: Threads + Sync>(
    rt: &R,
    alloc: Global,
    world: &mut World<S>,
    call: Call,
    due: Due<'_>,
) -> Result<bool, Refusal> {
    match is_answered_once(rt, alloc, world, call, due) {
        Err(Refusal::NoMemory) if !is_recount(call) => is_answered_once(
            rt, alloc, world, call, due,
        ),
        answered => answered,
    }
}

fn is_recount(call: Call) -> bool {
    matches!(call, Call::Recount(_, _))
}

// Returns whether a call replies as expected. Refused with `NoMemory` (1) if memory runs out.
fn is_answered_once<S: FarStore, R: Threads + Sync>(
    rt: &R,
    alloc: Global,
    world: &mut World<S>,
    call: Call,
    due: Due<'_>,
) -> Result<bool, Refusal> {
    match call {
        Call::Row(_) | Call::Coldest => is_shown(world, call, due),
        Call::Recount(a, workers) => {
            let reply = recounted(rt, world.frame(), world.store(), a, workers);
            is_due(reply, due, 1)
        }
        call => is_served(alloc, world, call, due),
    }
}

// Returns whether a row, or the coldest object, is as expected.
fn is_shown<S: FarStore>(world: &World<S>, call: Call, due: Due<'_>) -> Result<bool, Refusal> {
    match call {
        Call::Row(place) => Ok(is_row_due(world.frame().scope().row(place), due)),
        _ => is_job_due(world.frame().begin_coldest(world.store()), due),
    }
}

// Returns whether a step, or a check that owns no memory, replies as expected.
fn is_served<S: FarStore>(
    alloc: Global,
    world: &mut World<S>,
    call: Call,
    due: Due<'_>,
) -> Result<bool, Refusal> {
    let size = world.frame().limits().group;
    match call {
        Call::Faults(_)
        | Call::IsAlive(_)
        | Call::MayEvac(_, _)
        | Call::MayScan(_, _)
        | Call::MayOffload(_, _) => is_due(if_done(looked(world, call)), due, size),
        call => is_due(stepped(world, step(alloc, call)), due, size),
    }
}

/// Returns whether a reply is as expected. Refused with `NoMemory` (1) if the reply is.
pub fn is_due(reply: Reply, due: Due<'_>, size: u32) -> Result<bool, Refusal> {
    let found_none = is_reply(&reply, Due::Refused(Refusal::NoMemory), size);
    let is_right = is_reply(&reply, due, size);
    drop(reply);
    if found_none {
        Err(Refusal::NoMemory)
    } else {
        Ok(is_right)
    }
}

// Serves a step, if few faults were met before. Otherwise returns a refusal that no script expects.
fn served<S: FarStore>(world: &mut World<S>, step: Step) -> Reply {
    if world.faults() < 9 {
        world.serve(step)
    } else {
        drop(step);
        Reply::Refused(Refusal::BadSchema)
    }
}

// Serves a step, if it was made.
fn stepped<S: FarStore>(world: &mut World<S>, step: Result<Step, Refusal>) -> Reply {
    match step {
        Ok(step) => served(world, step),
        Err(refusal) => Reply::Refused(refusal),
    }
}

// Returns `Ok` if a check succeeds, and otherwise the refusal that says no.
fn looked<S: FarStore>(world: &World<S>, call: Call) -> Result<(), Refusal> {
    match call {
        Call::IsAlive(place) => alive(world.frame().scope().is_alive(place)),
        Call::MayEvac(column, group) => world.frame().may_evac(column, group),
        Call::MayOffload(a, group) => world.frame().may_offload(a, group),
        Call::MayScan(a, group) => if_found(world.frame().may_scan(a, group), Refusal::StaleJob),
        Call::Faults(count) => if_found(world.faults() == count, Refusal::FarFault),
        _ => Err(Refusal::StaleJob),
    }
}

fn if_done(found: Result<(), Refusal>) -> Reply {
    match found {
        Ok(()) => Reply::Done,
        Err(refusal) => Reply::Refused(refusal),
    }
}

fn if_found(found: bool, refusal: Refusal) -> Result<(), Refusal> {
    if found { Ok(()) } else { Err(refusal) }
}

fn alive(alive: Option<bool>) -> Result<(), Refusal> {
    match alive {
        None => Err(Refusal::NoRow),
        Some(false) => Err(Refusal::RemovedRow),
        Some(true) => Ok(()),
    }
}

fn is_row_due(row: Result<LentRow<'_>, Refusal>, due: Due<'_>) -> bool {
    match due {
        Due::Row(values) => match &row {
            Ok(row) => is_row(row, values),
            Err(_) => false,
        },
        Due::Refused(refusal) => match &row {
            Ok(_) => false,
            Err(given) => *given == refusal,
        },
        _ => false,
    }
}

// Returns the object of a job, if there is a job.
fn object_of<S: FarTickets>(
    job: &Result<Option<Job<S>>, Refusal>,
) -> Result<Option<Name>, Refusal> {
    match job {
        Ok(Some(job)) => Ok(job.object()),
        Ok(None) => Ok(None),
        Err(refusal) => Err(*refusal),
    }
}

// Returns whether the object of a job, if there is a job, is as expected.
fn is_job_due<S: FarTickets>(
    job: Result<Option<Job<S>>, Refusal>,
    due: Due<'_>,
) -> Result<bool, Refusal> {
    let object = object_of(&job);
    drop(job);
    is_object_due(object, due)
}

fn is_object_due(object: Result<Option<Name>, Refusal>, due: Due<'_>) -> Result<bool, Refusal> {
    match (object, due) {
        (Ok(given), Due::Coldest(name)) => Ok(given == name),
        (Err(refusal), _) => Err(refusal),
        _ => Ok(false),
    }
}

/// Returns the reply to a recount. If it is refused with `FarFault` and the meter did not rise by one, returns `Done`,
/// which no script expects.
pub fn recounted<S: FarStore, R: Threads + Sync>(
    rt: &R,
    frame: &Frame<S>,
    store: &S,
    a: u32,
    workers: u32,
) -> Reply
    requires here { AreAt S.is_of (S.store_id store.now) frame.now.rows }
{
    let mut meter = Meter::new();
    let reply = replied(frame.recount(rt, store, &mut meter, a, workers));
    let is_fault = is_reply(&reply, Due::Refused(Refusal::FarFault), 1);
    if is_fault && meter.faults() != 1 {
        drop(reply);
        Reply::Done
    } else {
        reply
    }
}

/// Returns an answer as a reply.
pub fn replied(found: Result<Answer, Refusal>) -> Reply {
    match found {
        Ok(answer) => Reply::Answer(answer),
        Err(refusal) => Reply::Refused(refusal),
    }
}
