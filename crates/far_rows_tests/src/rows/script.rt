// Scripts: calls on a table, and facts that hold between them. They are data, since the proof of a test grows with its
// steps. One function plays all scripts, with stores and a table for each.
use crate::cell::Cell;
use crate::fixtures::agent;
use crate::rows::fixture::{Fixture, LIMITS, Values};
use crate::rows::look::{Look, is_so};
use far_store::FarStore;
use far_types::Refusal;
use std::alloc::Global;
use std::sync::Wait;
use std::test::Fail;

/// A call on a table.
#[derive(Drop)]
pub enum Call {
    Push(Values),
    /// Takes a column, a place and a value.
    Set(usize, usize, Cell),
    /// Takes a column and a row group.
    Evacuate(usize, u32),
    FetchBack(usize, u32),
    /// Takes a segment.
    CompactNumbers(u32),
    CompactTexts(u32),
}

/// A step of a script.
pub enum Step {
    /// This call is accepted.
    Does(Call),
    /// This fact holds.
    Is(Look),
}

/// A script for a table, which has no rows at first.
pub struct Case {
    pub name: &'static str,
    pub steps: &'static [Step],
    /// The steps after the table has moved to another store. It moves only if there are such steps.
    pub moved: &'static [Step],
}

/// Plays cases. Fails at the first step with another result, and names the case and the index of the step.
pub fn play<R: Wait + Sync + Drop + Copy>(
    rt: R,
    alloc: Global,
    cases: &[Case],
) -> Result<(), Fail> {
    for case in cases {
        if let Some(step) = first_wrong(rt, alloc, case)? {
            return Err(Fail::new(format_args!("{}: step {step}", case.name)));
        }
    }
    Ok(())
}

// Returns the index of the first step of a case with another result.
fn first_wrong<R: Wait + Sync + Drop + Copy>(
    rt: R,
    alloc: Global,
    case: &Case,
) -> Result<Option<usize>, Refusal> {
    let first = agent(rt, alloc, 16);
    first_wrong_over(alloc, first, agent(rt, alloc, 16), case)
}

// Returns the same for these two stores, if they were made. Generic over the stores, so that taking them out of their
// results is cheap to prove.
fn first_wrong_over<S: FarStore>(
    alloc: Global,
    first: Result<S, Refusal>,
    other: Result<S, Refusal>,
    case: &Case,
) -> Result<Option<usize>, Refusal> {
    first_wrong_between(alloc, &first?, &other?, case)
}

fn first_wrong_between<S: FarStore>(
    alloc: Global,
    store: &S,
    other: &S,
    case: &Case,
) -> Result<Option<usize>, Refusal> {
    match Fixture::new(alloc, store, other, &LIMITS) {
        Ok(fixture) => first_wrong_in(alloc, fixture, case),
        Err(refusal) => Err(refusal),
    }
}

fn first_wrong_in<S: FarStore>(
    alloc: Global,
    fixture: Fixture<'_, S>,
    case: &Case,
) -> Result<Option<usize>, Refusal> {
    let mut fixture = fixture;
    match first_wrong_step(alloc, &mut fixture, case.steps, 0) {
        None if !case.moved.is_empty() => {
            first_wrong_moved(alloc, fixture, case.moved, case.steps.len())
        }
        wrong => {
            drop(fixture);
            Ok(wrong)
        }
    }
}

// Returns the same for the steps after the table has moved to the other store. Their indices begin at `from`.
fn first_wrong_moved<S: FarStore>(
    alloc: Global,
    fixture: Fixture<'_, S>,
    steps: &[Step],
    from: usize,
) -> Result<Option<usize>, Refusal> {
    match fixture.moved(alloc) {
        Ok(mut fixture) => {
            let wrong = first_wrong_step(alloc, &mut fixture, steps, from);
            drop(fixture);
            Ok(wrong)
        }
        Err(refusal) => Err(refusal),
    }
}

fn first_wrong_step<S: FarStore>(
    alloc: Global,
    fixture: &mut Fixture<'_, S>,
    steps: &[Step],
    from: usize,
) -> Option<usize> {
    for (index, step) in steps.iter().enumerate() {
        if !comes_out(alloc, fixture, step) {
            return Some(from.saturating_add(index));
        }
    }
    None
}

// Returns whether a step has its expected result.
fn comes_out<S: FarStore>(alloc: Global, fixture: &mut Fixture<'_, S>, step: &Step) -> bool {
    match step {
        Step::Does(call) => fixture.answer(alloc, call) == Ok(()),
        Step::Is(look) => is_so(fixture.rows(), look),
    }
}
