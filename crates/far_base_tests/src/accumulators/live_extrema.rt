// Extrema by key of several row groups.
ghost use Rattle.std.specs.Prelude.{◌≡◌, ◌≢◌, ◌-◌, [], OnOk};
ghost use Rattle.far_extrema.specs.Live.{after_reserve, IsReservedFor};

use crate::accumulators::extrema::observe_all;
use crate::cases::{Case, all_are_right, must_be};
use crate::lines::{Lines, Name, Row, key_of};
use far_extrema::{GroupExtrema, LiveExtrema, MinMax, RowsLeft};
use far_types::{Answer, Key, Refusal};
use std::alloc::{AllocError, Global};

/// Returns the answer, from a second call if the first runs out of memory.
fn answer(alloc: Global, live: &LiveExtrema) -> Result<Answer, Refusal> {
    match live.answer(alloc) {
        Err(Refusal::NoMemory) => live.answer(alloc),
        reply => reply,
    }
}

/// Asks while a row group is pending, which is refused with `Building`.
fn while_pending(alloc: Global) -> Result<bool, Refusal> {
    Lines::Extrema(&[]).are_of(LiveExtrema::new(alloc, 1).answer(alloc))
}

#[test]
fn extrema_are_refused_while_a_row_group_is_pending(rt: HostRuntime) {
    must_be(&rt, while_pending(rt.alloc()), Err(Refusal::Building(1)));
}

/// Reserves for a row group and its keys, again if the first call runs out of memory.
fn reserve_for(live: &mut LiveExtrema, group: u32, extrema: &GroupExtrema) -> Result<(), AllocError>
    ensures left { live.new.left ≡ live.old.left }
    ensures groups { OnOk result (live.new.groups ≡ after_reserve group live.old.groups) }
    ensures keys { OnOk result (IsReservedFor extrema.now live.new) }
{
    match live.reserve_for(group, extrema) {
        Err(AllocError) => live.reserve_for(group, extrema),
        reply => reply,
    }
}

/// Observes these rows, and reserves for them.
fn make_ready(
    alloc: Global,
    live: &mut LiveExtrema,
    number: u32,
    group: &mut GroupExtrema,
    rows: &[Row],
) -> Result<(), Refusal>
    ensures left { live.new.left ≡ live.old.left }
    ensures groups { OnOk result (live.new.groups ≡ after_reserve number live.old.groups) }
    ensures keys { OnOk result (IsReservedFor group.new live.new) }
{
    observe_all(alloc, group, rows)?;
    reserve_for(live, number, group)?;
    Ok(())
}

/// Merges these rows as the first row group.
fn merge_rows(alloc: Global, live: &mut LiveExtrema, rows: &[Row]) -> Result<(), Refusal>
    requires left { live.old.left ≢ 0 }
    requires empty { live.old.groups ≡ [] }
    ensures left { OnOk result (live.new.left ≡ live.old.left - 1) }
{
    let mut group = GroupExtrema::new(alloc);
    let ready = make_ready(alloc, live, 0, &mut group, rows);
    if ready.is_ok() {
        live.merge(0, group);
    }
    ready
}

/// Sets the extrema of a row group to the extrema of these rows.
fn set_rows(
    alloc: Global,
    live: &mut LiveExtrema,
    number: u32,
    rows: &[Row],
) -> Result<(), Refusal> {
    let mut group = GroupExtrema::new(alloc);
    let ready = make_ready(alloc, live, number, &mut group, rows);
    if ready.is_ok() {
        live.set_group(number, group);
    }
    ready
}

/// A case: the rows of two row groups, and the lines of the answer over both.
struct Groups {
    name: &'static str,
    /// The rows of row group 0, which are merged.
    merged: &'static [Row],
    /// The number and the rows of the row group that is set afterwards.
    set: (u32, &'static [Row]),
    lines: &'static [(Name, i64, i64)],
}

impl Groups {
    fn are_answered_by(&self, alloc: Global, live: &mut LiveExtrema) -> Result<bool, Refusal>
        requires left { live.old.left ≢ 0 }
        requires empty { live.old.groups ≡ [] }
    {
        merge_rows(alloc, live, self.merged)?;
        let (number, rows) = self.set;
        set_rows(alloc, live, number, rows)?;
        if live.left() != 0 {
            return Ok(false);
        }
        Lines::Extrema(self.lines).are_of(answer(alloc, live))
    }
}

impl Case for Groups {
    fn name(&self) -> &'static str {
        self.name
    }

    fn is_right(&self, alloc: Global) -> Result<bool, Refusal> {
        self.are_answered_by(alloc, &mut LiveExtrema::new(alloc, 1))
    }
}

static GROUPS: [Groups; 2] = [
    Groups {
        name: "a group is merged",
        merged: &[(Name::Nobody, 3), (Name::Nobody, 4)],
        set: (1, &[]),
        lines: &[(Name::Nobody, 3, 4)],
    },
    Groups {
        name: "a merged group is replaced",
        merged: &[(Name::Nobody, 3), (Name::Nobody, 4)],
        set: (0, &[(Name::Nobody, 4)]),
        lines: &[(Name::Nobody, 4, 4)],
    },
];

#[test]
fn row_groups_have_the_lines_of_all_their_rows(rt: HostRuntime) {
    all_are_right(&rt, rt.alloc(), &GROUPS);
}

/// The remaining rows, by their least and greatest value.
#[derive(Drop)]
struct Left(Option<MinMax>);

impl RowsLeft for Left {
    ghost at_hand = { λ left. Unit {0} };

    ghost extremes = { λ left. left.0 };

    fn min_max(&self) -> Option<MinMax> {
        self.0
    }
}

/// Returns whether the min-max follows two rows, of which the second is retracted.
fn follows_rows(live: &mut LiveExtrema, key: &Option<Key>) -> Result<bool, Refusal> {
    live.make_room(1);
    live.observe_under(1, key, 4)?;
    live.observe_under(1, key, 9)?;
    if live.min_max(1, key) != Some(MinMax { min: 4, max: 9 }) {
        return Ok(false);
    }
    let four = Some(MinMax::of(4));
    Ok(live.shrink(1, key, 9, &Left(four)) == four)
}

fn follows_rows_under_a_text(alloc: Global) -> Result<bool, Refusal> {
    let key = key_of(alloc, Name::Word("a"))?;
    follows_rows(&mut LiveExtrema::new(alloc, 0), &key)
}

#[test]
fn a_min_max_follows_rows(rt: HostRuntime) {
    must_be(&rt, follows_rows_under_a_text(rt.alloc()), Ok(true));
}

/// Returns whether a second row under the same key allocates nothing, and each call returns the min-max before it. Only the
/// first row may run out of memory.
fn knows_a_key(live: &mut LiveExtrema, key: &Option<Key>) -> Result<bool, Refusal> {
    live.make_room(1);
    let first = live.observe_under(1, key, 4)?;
    let beyond = live.observe_under(1, key, 9);
    let within = live.observe_under(1, key, 5);
    let four_to_nine = MinMax { min: 4, max: 9 };
    Ok(first.is_none() && beyond == Ok(Some(MinMax::of(4))) && within == Ok(Some(four_to_nine)))
}

fn knows_a_text(alloc: Global) -> Result<bool, Refusal> {
    let key = key_of(alloc, Name::Word("a"))?;
    knows_a_key(&mut LiveExtrema::new(alloc, 0), &key)
}

#[test]
fn a_row_under_a_known_key_allocates_nothing(rt: HostRuntime) {
    must_be(&rt, knows_a_text(rt.alloc()), Ok(true));
}
