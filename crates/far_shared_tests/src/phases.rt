// Works that a session does in phases: begins a job, carries it and ends it.
ghost use Rattle.std.specs.Prelude.{◌≡◌};
ghost use Rattle.far_frame.specs.Jobs.{IsJobAt};

use crate::replies::done;
use crate::scenes::{Replied, Reply};
use far_frame::Job;
use far_sessions::PlanTag;
use far_shared::{Shared, TableTag, Work};
use far_store::{FarStore, Meter};
use far_types::Refusal;
use std::alloc::Global;
use std::sync::Wait;

// Returns why a job was not carried.
fn why<J: Drop>(refused: (Refusal, J)) -> Refusal {
    refused.0
}

// Carries a job of a stripe and ends it.
fn complete<N: PlanTag, B: TableTag, S: FarStore, R: Wait>(
    rt: &R,
    alloc: Global,
    shared: &Shared<N, B, S>,
    store: &S,
    stripe: u32,
    job: Job<S>,
) -> Replied
    requires store { S.store_id store.now ≡ B.store }
    requires here { IsJobAt S.is_of B.store job }
{
    match job.carry(alloc, store, &mut Meter::new()).map_err(why) {
        Ok(carried) => {
            let ended = done(shared.finish(rt, stripe, store, &carried));
            drop(carried);
            ended
        }
        Err(refusal) => Err(refusal),
    }
}

// Begins a work, carries its job and ends it.
pub fn complete_work<N: PlanTag, B: TableTag, S: FarStore, R: Wait>(
    rt: &R,
    alloc: Global,
    shared: &Shared<N, B, S>,
    store: &S,
    work: Work,
) -> Replied
    requires store { S.store_id store.now ≡ B.store }
{
    match shared.begin(rt, store, &work) {
        Ok(Some(job)) => complete(rt, alloc, shared, store, work.stripe(), job),
        Ok(None) => Ok(Reply::Nothing),
        Err(refusal) => Err(refusal),
    }
}
