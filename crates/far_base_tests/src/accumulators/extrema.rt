// Extrema by key of one row group.
use crate::cases::must_be;
use crate::lines::{Lines, Name, Row, key_of};
use far_extrema::{GroupExtrema, MinMax};
use far_types::Refusal;
use std::alloc::Global;

/// Observes a row, again if the first call runs out of memory.
fn observe(alloc: Global, group: &mut GroupExtrema, name: Name, value: i64) -> Result<(), Refusal> {
    let key = key_of(alloc, name)?;
    if group.observe_under(&key, value).is_err() {
        group.observe_under(&key, value)?;
    }
    Ok(())
}

/// Observes these rows.
pub fn observe_all(alloc: Global, group: &mut GroupExtrema, rows: &[Row]) -> Result<(), Refusal> {
    for (name, value) in rows {
        observe(alloc, group, *name, *value)?;
    }
    Ok(())
}

static ROWS: [Row; 2] = [(Name::Word("a"), 3), (Name::Word("a"), -3)];

static LINES: Lines<'static> = Lines::Extrema(&[(Name::Nobody, -6, 5), (Name::Word("a"), -3, 3)]);

/// Returns whether three kinds of rows have the extrema of all: rows under a text, a row without key, and rows without key
/// that the caller folded.
fn observes_all(alloc: Global, group: &mut GroupExtrema) -> Result<bool, Refusal> {
    observe_all(alloc, group, &ROWS)?;
    group.see(None, 5)?;
    group.observe_rows(None, MinMax { min: -6, max: 3 })?;
    LINES.are_of(group.answer(alloc))
}

#[test]
fn rows_are_observed_one_by_one_or_folded(rt: HostRuntime) {
    let alloc = rt.alloc();
    let observed = observes_all(alloc, &mut GroupExtrema::new(alloc));
    must_be(&rt, observed, Ok(true));
}
