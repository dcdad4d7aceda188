// Totals by key.
ghost use Rattle.std.specs.Prelude.{◌≡◌, ◌≢◌, ◌<◌, ◌≤◌, ◌^◌, Option, OnOk};
ghost use Rattle.std.specs.FinMap as fin;
ghost use Rattle.far_types.specs.declared.key.Key.{Key};
ghost use Rattle.far_types.specs.Effects.{count_in};
ghost use Rattle.far_groups.specs.Live.{CanJoin};

use crate::cases::{Case, all_are_right, must_be};
use crate::lines::{Lines, Name, Row, key_of};
use far_groups::{CountSum, LiveTotals};
use far_types::{Answer, Key, Refusal};
use std::alloc::{AllocError, Global};

/// Adds these rows, at most 300.
fn add_all(alloc: Global, live: &mut LiveTotals, rows: &[Row]) -> Result<(), Refusal>
    requires { live.old.totals ≡ fin.empty }
    ensures left { live.new.left ≡ live.old.left }
    ensures few { OnOk result ((key : Option Key) → count_in (fin.get live.new.totals key) ≤ 300) }
{
    if rows.len() > 300 {
        return Err(Refusal::OutOfRange);
    }
    for (name, value) in rows {
        live.add(key_of(alloc, *name)?, *value)?;
    }
    Ok(())
}

/// Returns the answer, from a second call if the first runs out of memory.
fn answer(alloc: Global, live: &LiveTotals) -> Result<Answer, Refusal> {
    match live.answer(alloc) {
        Err(Refusal::NoMemory) => live.answer(alloc),
        reply => reply,
    }
}

/// Merges a partial aggregate, again if the first call runs out of memory.
fn merge(live: &mut LiveTotals, partial: &LiveTotals) -> Result<(), Refusal>
    requires left { live.old.left ≢ 0 }
    requires can_join { CanJoin live.old.totals partial.now.totals }
{
    match live.merge(partial) {
        Err(Refusal::NoMemory) => live.merge(partial),
        reply => reply,
    }
}

/// Adds rows to live totals and to partial ones, and merges the partial into the live ones.
fn merge_rows(
    alloc: Global,
    live: &mut LiveTotals,
    partial: &mut LiveTotals,
    here: &[Row],
    there: &[Row],
) -> Result<(), Refusal>
    requires left { live.old.left ≢ 0 }
    requires empty { live.old.totals ≡ fin.empty }
    requires empty_partial { partial.old.totals ≡ fin.empty }
{
    add_all(alloc, live, here)?;
    add_all(alloc, partial, there)?;
    merge(live, partial)
}

/// Asks while a row group is pending, which is refused with `Building`.
fn while_pending(alloc: Global) -> Result<bool, Refusal> {
    Lines::Totals(&[]).are_of(LiveTotals::new(alloc, 1).answer(alloc))
}

#[test]
fn totals_are_refused_while_a_row_group_is_pending(rt: HostRuntime) {
    must_be(&rt, while_pending(rt.alloc()), Err(Refusal::Building(1)));
}

/// A case: rows that are added while one row group is pending, the rows of that one, and the lines of the answer over all.
struct Merged {
    name: &'static str,
    here: &'static [Row],
    there: &'static [Row],
    lines: &'static [(Name, u64, i128)],
    /// The count and the sum without key.
    plain: (u64, i128),
}

impl Merged {
    /// Returns whether the answer has the lines after the row group is merged.
    fn is_answered_by(
        &self,
        alloc: Global,
        live: &mut LiveTotals,
        partial: &mut LiveTotals,
    ) -> Result<bool, Refusal>
        requires left { live.old.left ≢ 0 }
        requires empty { live.old.totals ≡ fin.empty }
        requires empty_partial { partial.old.totals ≡ fin.empty }
    {
        merge_rows(alloc, live, partial, self.here, self.there)?;
        if live.left() != 0 || live.plain() != self.plain {
            return Ok(false);
        }
        Lines::Totals(self.lines).are_of(answer(alloc, live))
    }
}

impl Case for Merged {
    fn name(&self) -> &'static str {
        self.name
    }

    fn is_right(&self, alloc: Global) -> Result<bool, Refusal> {
        let mut live = LiveTotals::new(alloc, 1);
        self.is_answered_by(alloc, &mut live, &mut LiveTotals::new(alloc, 0))
    }
}

static MERGES: [Merged; 2] = [
    Merged {
        name: "a partial is merged",
        here: &[],
        there: &[(Name::Nobody, 3), (Name::Nobody, 4)],
        lines: &[(Name::Nobody, 2, 7)],
        plain: (2, 7),
    },
    Merged {
        name: "keys of one and of both have all their rows",
        here: &[(Name::Nobody, 1), (Name::Word("b"), 2)],
        there: &[
            (Name::Nobody, 10),
            (Name::Word("a"), 20),
            (Name::Word("b"), 30),
            (Name::Word("c"), 40),
        ],
        lines: &[
            (Name::Nobody, 2, 11),
            (Name::Word("a"), 1, 20),
            (Name::Word("b"), 2, 32),
            (Name::Word("c"), 1, 40),
        ],
        plain: (2, 11),
    },
];

#[test]
fn merged_totals_have_the_lines_of_all_rows(rt: HostRuntime) {
    all_are_right(&rt, rt.alloc(), &MERGES);
}

static TWO_ROWS: [Row; 2] = [(Name::Nobody, 3), (Name::Nobody, 4)];

static ONE_LEFT: Lines<'static> = Lines::Totals(&[(Name::Nobody, 1, 4)]);

/// Returns whether the rows 3 and 4 without key become just 4 when 3 is retracted.
fn is_one_once_the_other_is_retracted(alloc: Global, live: &mut LiveTotals) -> Result<bool, Refusal>
    requires { live.old.totals ≡ fin.empty }
{
    add_all(alloc, live, &TWO_ROWS)?;
    if live.plain() != (2, 7) {
        return Ok(false);
    }
    live.take(&None, 3);
    if live.plain() != (1, 4) {
        return Ok(false);
    }
    ONE_LEFT.are_of(answer(alloc, live))
}

#[test]
fn a_row_is_retracted(rt: HostRuntime) {
    let alloc = rt.alloc();
    let is_one = is_one_once_the_other_is_retracted(alloc, &mut LiveTotals::new(alloc, 0));
    must_be(&rt, is_one, Ok(true));
}

static ONE_ROW: [Row; 1] = [(Name::Nobody, 5)];

static TWO_LINES: Lines<'static> = Lines::Totals(&[(Name::Nobody, 1, 5), (Name::Word("a"), 1, 3)]);

/// Adds a row, again if the first call runs out of memory.
fn add_again(live: &mut LiveTotals, key: &Option<Key>) -> Result<(), AllocError>
    requires { count_in (fin.get live.old.totals key.now) < 2 ^ 26 }
{
    match live.add_under(key, 3) {
        Err(AllocError) => live.add_under(key, 3),
        reply => reply,
    }
}

/// Returns whether a row under `a` gets its own line beside the first row's.
fn has_both_lines(alloc: Global, live: &mut LiveTotals, key: &Option<Key>) -> Result<bool, Refusal>
    requires { live.old.totals ≡ fin.empty }
{
    add_all(alloc, live, &ONE_ROW)?;
    add_again(live, key)?;
    TWO_LINES.are_of(answer(alloc, live))
}

fn has_both_lines_in_the_end(alloc: Global) -> Result<bool, Refusal> {
    let key = key_of(alloc, Name::Word("a"))?;
    has_both_lines(alloc, &mut LiveTotals::new(alloc, 0), &key)
}

#[test]
fn a_row_is_added_to_another(rt: HostRuntime) {
    must_be(&rt, has_both_lines_in_the_end(rt.alloc()), Ok(true));
}

/// Returns the count and the sum of one row and of three that the caller folded.
fn folded(alloc: Global, live: &mut LiveTotals) -> Result<(u64, i128), Refusal>
    requires { live.old.totals ≡ fin.empty }
{
    add_all(alloc, live, &ONE_ROW)?;
    live.add_rows(None, CountSum { count: 3, sum: -6 })?;
    Ok(live.plain())
}

#[test]
fn rows_that_the_caller_folded_are_added_at_once(rt: HostRuntime) {
    let alloc = rt.alloc();
    must_be(
        &rt,
        folded(alloc, &mut LiveTotals::new(alloc, 0)),
        Ok((4, -1)),
    );
}
