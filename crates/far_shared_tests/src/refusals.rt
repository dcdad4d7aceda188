// Plans that are refused.
use crate::plans::why_no_plan;
use far_types::{Fold, Refusal};
use std::alloc::Global;

// The fold and the key of a gauge, the number of sessions, and the reply to the plan.
type Case = (Fold, Option<u32>, u64, Result<(), Refusal>);

// A gauge has one count and one sum. A shared table has 1 to 64 sessions.
static PLANS: &[Case] = &[
    (Fold::Totals, None, 1, Ok(())),
    (Fold::Extrema, None, 1, Err(Refusal::BadSpec)),
    (Fold::Totals, Some(0), 1, Err(Refusal::BadSpec)),
    (Fold::Extrema, Some(0), 0, Err(Refusal::BadSpec)),
    (Fold::Totals, None, 0, Err(Refusal::OutOfRange)),
    (Fold::Totals, None, 64, Ok(())),
    (Fold::Totals, None, 65, Err(Refusal::OutOfRange)),
];

// Returns the reply to a plan, from a second call if the first runs out of memory.
fn plan_answer(alloc: Global, case: &Case) -> Result<(), Refusal> {
    match why_no_plan(alloc, case.0, case.1, case.2) {
        Err(Refusal::NoMemory) => why_no_plan(alloc, case.0, case.1, case.2),
        answer => answer,
    }
}

// Returns how many of these plans, from the first on, get their reply.
fn answered(alloc: Global, cases: &[Case]) -> usize {
    let mut right = 0usize;
    for case in cases {
        if plan_answer(alloc, case) != case.3 {
            return right;
        }
        right = right.wrapping_add(1);
    }
    right
}

#[test]
fn plans_are_refused_by_their_gauge_and_their_sessions(rt: HostRuntime) {
    assert_eq!(rt; answered(rt.alloc(), PLANS), PLANS.len());
}
