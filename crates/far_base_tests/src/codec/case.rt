// Cases that are tried twice.
use crate::cases::Case;
use far_types::Refusal;
use std::alloc::Global;
use std::process::Abort;

/// Returns whether a case passes, trying again if memory runs out: a run may make one allocation fail.
fn holds<C: Case>(alloc: Global, case: &C) -> bool {
    match case.is_right(alloc) {
        Err(Refusal::NoMemory) => case.is_right(alloc) == Ok(true),
        answer => answer == Ok(true),
    }
}

/// Ends the test at the first case that fails.
pub fn all_hold<R: Abort, C: Case>(rt: &R, alloc: Global, cases: &[C]) {
    for (i, case) in cases.iter().enumerate() {
        assert!(rt; holds(alloc, case), "case {i}");
    }
}
