// Cases of jobs that are accepted or found stale, each with its own objects.
mod cases;

use crate::evacuator::call::Call::{self, Create, Move};
use crate::evacuator::call::Phase::{self, Begin, BeginFetch, Carry, CarryFetch, Commit, Install};
use crate::evacuator::call::away;
use crate::evacuator::fixture::Fixture;
use crate::evacuator::stores::{Plan, sound};
use far_evacuator::Want;
use far_scopes::ObjectLimits;
use far_store::{FarStore, FaultyStore};
use far_types::Refusal;
use std::alloc::Global;
use std::sync::Wait;
use std::test::Fail;

/// A case: steps on an empty collection of objects.
struct Case {
    /// A sentence that says what the case shows.
    name: &'static str,
    store: Plan,
    limits: ObjectLimits,
    steps: &'static [Step],
}

/// A step, with its expected result.
enum Step {
    /// This call is accepted.
    Done(Call<&'static [i64]>),
    /// This call is refused, with this refusal.
    Refused(Call<&'static [i64]>, Refusal),
    /// Evicts the object.
    SentAway(u32),
    /// Fetches the object.
    BroughtBack(u32),
    /// The object is away: it can be neither read nor written.
    IsAway(u32),
    /// The object is local, with this list.
    Has(u32, &'static [i64]),
    /// Gives the frame this number, and replaces the objects by eight new ones.
    Frame(u32),
}

/// Returns the index of the first step of a case with another result.
fn play<R: Wait + Sync + Drop + Copy>(
    rt: R,
    alloc: Global,
    case: &Case,
) -> Result<Option<usize>, Refusal> {
    play_in(alloc, sound(rt, alloc, case.store), case)
}

// Returns the same for this store, if it was made. It fails as the case says. Generic over the store, so that taking it out
// of its result is cheap to prove.
fn play_in<S: FarStore>(
    alloc: Global,
    store: Result<S, Refusal>,
    case: &Case,
) -> Result<Option<usize>, Refusal> {
    let store = FaultyStore::new(store?, case.store.failing_put, case.store.failing_get);
    play_over(alloc, &store, case)
}

fn play_over<S: FarStore>(alloc: Global, store: &S, case: &Case) -> Result<Option<usize>, Refusal> {
    match Fixture::new(alloc, store, 0, case.limits) {
        Ok(mut fixture) => {
            let wrong = first_wrong(&mut fixture, alloc, case);
            drop(fixture);
            Ok(wrong)
        }
        Err(refusal) => Err(refusal),
    }
}

fn first_wrong<S: FarStore>(
    fixture: &mut Fixture<'_, i64, S>,
    alloc: Global,
    case: &Case,
) -> Option<usize> {
    for (index, step) in case.steps.iter().enumerate() {
        if !turns_out(fixture, alloc, case.limits, step) {
            return Some(index);
        }
    }
    None
}

fn turns_out<S: FarStore>(
    fixture: &mut Fixture<'_, i64, S>,
    alloc: Global,
    limits: ObjectLimits,
    step: &Step,
) -> bool {
    match step {
        Step::Done(call) => fixture.make(alloc, call).is_ok(),
        Step::Refused(call, refusal) => fixture.make(alloc, call) == Err(*refusal),
        Step::SentAway(o) => are_done(fixture, alloc, &[Begin(Want::Object(*o)), Carry, Commit]),
        Step::BroughtBack(o) => are_done(fixture, alloc, &[BeginFetch(*o), CarryFetch, Install]),
        Step::Frame(number) => begins_frame(fixture, alloc, limits, *number),
        Step::Has(o, list) => fixture.list(*o) == Ok(*list),
        Step::IsAway(o) => is_away(fixture, *o),
    }
}

// Returns whether these phases are accepted, one after another.
fn are_done<S: FarStore>(
    fixture: &mut Fixture<'_, i64, S>,
    alloc: Global,
    phases: &[Phase],
) -> bool {
    for phase in phases {
        if fixture.make(alloc, &Move(*phase)).is_err() {
            return false;
        }
    }
    true
}

// Returns whether an object can be neither read nor written because it is away.
fn is_away<S: FarStore>(fixture: &Fixture<'_, i64, S>, o: u32) -> bool {
    fixture.list(o) == Err(away(o)) && fixture.may_write(o) == Err(away(o))
}

fn begins_frame<S: FarStore>(
    fixture: &mut Fixture<'_, i64, S>,
    alloc: Global,
    limits: ObjectLimits,
    number: u32,
) -> bool {
    let mut begins = fixture.clear(alloc, number, limits).is_ok();
    for first in 0..8 {
        begins &= fixture.make(alloc, &Create([first, 5].as_slice())).is_ok();
    }
    begins
}

/// Returns whether a case passes over one log and uses this many bytes of it.
fn uses_log<R: Wait + Sync + Drop + Copy>(
    rt: R,
    alloc: Global,
    case: &Case,
    bytes: usize,
) -> Result<bool, Refusal> {
    match sound(rt, alloc, case.store) {
        Ok(store) => {
            let wrong = play_over(alloc, &store, case);
            let used = store.engine().used();
            drop(store);
            Ok(wrong? == None && used == bytes)
        }
        Err(refusal) => Err(refusal),
    }
}

// Plays cases, and fails at the first step with another result.
fn play_all<R: Wait + Sync + Drop + Copy>(
    rt: R,
    alloc: Global,
    cases: &[Case],
) -> Result<(), Fail> {
    for case in cases {
        // Plays once more if there was no memory for the store or the objects.
        let wrong = match play(rt, alloc, case) {
            Err(Refusal::NoMemory) => play(rt, alloc, case),
            reply => reply,
        };
        if let Some(step) = wrong? {
            return Err(Fail::new(format_args!("{}: step {step}", case.name)));
        }
    }
    Ok(())
}

#[test]
fn cases_turn_out(rt: HostRuntime) -> Result<(), Fail> {
    play_all(&rt, rt.alloc(), cases::CASES)
}

#[test]
fn objects_come_and_go_over_one_log(rt: HostRuntime) {
    // Three far forms of two numbers, of 22 bytes each. Only writing takes space in the log, and a clean object is not
    // written.
    assert!(rt; uses_log(&rt, rt.alloc(), &cases::COME_AND_GO, 66) == Ok(true));
}
