// A job that meets a fault and is carried again.
ghost use Rattle.std.specs.Prelude.{All};

use crate::cases::must_be;
use crate::lines::{Lines, Name};
use crate::offload::folding::has_lines;
use crate::offload::rows::put_ints;
use far_offload::{OffloadJob, PartialDone};
use far_store::{AgentStore, FarStore, FaultyStore, Meter};
use far_types::{Refusal, Spec};
use std::alloc::Global;

static ALIVE: [bool; 4] = [true, false, true, true];

static LINES: Lines<'static> = Lines::Totals(&[(Name::Nobody, 3, 8)]);

/// Returns whether a job that is kept has the count and the sum of its rows, and all that it was made with.
fn is_kept<S: FarStore>(alloc: Global, store: &S, job: &OffloadJob<S>) -> Result<bool, Refusal>
    requires { All (λ ticket. S.is_of ticket.1 (S.store_id store.now)) job.now.tickets }
{
    let done = job.partial(alloc, store, &mut Meter::new());
    let folded = has_lines(alloc, LINES, done);
    let kept = job.tickets().len() == 1 && job.alive() == ALIVE.as_slice() && job.spec().value == 0;
    if kept { folded } else { Ok(false) }
}

/// Returns the result of a carry, or just its refusal.
fn without_job<D: Drop, J: Drop>(carried: Result<D, (Refusal, J)>) -> Result<D, Refusal> {
    match carried {
        Ok(done) => Ok(done),
        Err((refusal, _)) => Err(refusal),
    }
}

/// Carries a job again after a fault, and returns its partial aggregate. Refused with `StaleJob` if the first carry meets
/// no fault.
fn carry_again<S: FarStore>(
    alloc: Global,
    store: &S,
    job: OffloadJob<S>,
) -> Result<PartialDone, Refusal>
    requires { All (λ ticket. S.is_of ticket.1 (S.store_id store.now)) job.tickets }
{
    match job.carry(alloc, store, &mut Meter::new()) {
        Ok(done) => {
            drop(done);
            Err(Refusal::StaleJob)
        }
        Err((Refusal::FarFault, job)) => { without_job(job.carry(alloc, store, &mut Meter::new())) }
        Err((refusal, job)) => {
            drop(job);
            Err(refusal)
        }
    }
}

/// Returns whether a job is kept at a fault, and carried afterwards.
fn is_carried<S: FarStore>(alloc: Global, store: &S, job: OffloadJob<S>) -> Result<bool, Refusal>
    requires { All (λ ticket. S.is_of ticket.1 (S.store_id store.now)) job.tickets }
{
    match is_kept(alloc, store, &job) {
        Ok(true) => has_lines(alloc, LINES, carry_again(alloc, store, job)),
        reply => {
            drop(job);
            reply
        }
    }
}

/// Returns the same for a job over the numbers 1 to 4, of which the second has a dead place.
fn carries_a_job<S: FarStore>(alloc: Global, store: &S) -> Result<bool, Refusal> {
    let ints = put_ints(alloc, store, &[Some(1), Some(2), Some(3), Some(4)])?;
    let mut tickets = Vec::new(alloc);
    tickets.push((0, ints))?;
    let alive = Vec::from_array(alloc, ALIVE)?;
    let job = OffloadJob::new(Spec::totals(alloc, 0), tickets, alive);
    is_carried(alloc, store, job)
}

/// Returns the same over a store whose second get fails, the first of a carry, if that store was made.
fn carries_a_job_once_made<S: FarStore>(
    alloc: Global,
    store: Result<S, Refusal>,
) -> Result<bool, Refusal> {
    match store {
        Ok(store) => carries_a_job(alloc, &FaultyStore::new(store, 0, 2)),
        Err(refusal) => Err(refusal),
    }
}

#[test]
fn a_job_that_is_kept_and_met_a_fault_is_carried_again(rt: HostRuntime) {
    let store = AgentStore::new(&rt, rt.alloc(), 8);
    must_be(&rt, carries_a_job_once_made(rt.alloc(), store), Ok(true));
}
