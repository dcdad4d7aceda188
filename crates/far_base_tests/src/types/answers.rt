// Lines of answers.
use crate::cases::must_be;
use far_types::{Refusal, TotalLines};
use std::alloc::Global;

/// Returns whether totals of no row without key column are one line of zeros.
fn is_line_of_zeros(alloc: Global) -> Result<bool, Refusal> {
    let lines = TotalLines::new(Vec::new(alloc)).or_zero(None)?;
    Ok(lines.as_slice() == [(None, 0, 0)].as_slice())
}

#[test]
fn totals_have_a_line_of_zeros_without_key(rt: HostRuntime) {
    must_be(&rt, is_line_of_zeros(rt.alloc()), Ok(true));
}
