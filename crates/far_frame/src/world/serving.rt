// Serves the steps that need only the table.
ghost use Rattle.std.specs.Prelude.{◌≡◌, ℕ, List};
ghost use Rattle.far_rows.specs.Jobs.{AreAt};
ghost use Rattle.far_frame.specs.Effects.{Changes};

use crate::frame::Frame;
use crate::step::{Reply, Step};
use far_store::FarTickets;
use far_types::{Edit, Kind, Spec};

/// Serves an edit.
#[inline(always)]
pub(super) fn edit<S: FarTickets>(frame: &mut Frame<S>, edit: Edit) -> Reply
    ensures changes { Changes S.content frame.old (Step.Edit edit) result frame.new }
    ensures here { (id : List ℕ) → AreAt S.is_of id frame.old.rows
        → AreAt S.is_of id frame.new.rows }
{
    match edit {
        Edit::Insert(row) => match frame.insert(row) {
            Ok(place) => Reply::Place(place),
            Err(refusal) => Reply::Refused(refusal),
        },
        Edit::Set {
            place,
            column,
            cell,
        } => Reply::done_or(frame.set(place, column, cell)),
        Edit::Remove(place) => Reply::done_or(frame.remove(place)),
    }
}

/// Serves the registration of an aggregate.
pub(super) fn watch<S: FarTickets>(frame: &mut Frame<S>, spec: Spec) -> Reply
    ensures changes { Changes S.content frame.old (Step.Watch spec) result frame.new }
    ensures rows { frame.new.rows ≡ frame.old.rows }
{
    match frame.watch(spec) {
        Ok(a) => Reply::Aggregate(a),
        Err(refusal) => Reply::Refused(refusal),
    }
}

/// Serves the step that forgets an aggregate.
pub(super) fn unwatch<S: FarTickets>(frame: &mut Frame<S>, a: u32) -> Reply
    ensures changes { Changes S.content frame.old (Step.Unwatch a) result frame.new }
    ensures rows { frame.new.rows ≡ frame.old.rows }
{
    Reply::done_or(frame.unwatch(a))
}

/// Serves the scan of a row group into an aggregate.
pub(super) fn scan_group<S: FarTickets>(frame: &mut Frame<S>, a: u32, group: u32) -> Reply
    ensures changes { Changes S.content frame.old (Step.ScanGroup a group) result frame.new }
    ensures rows { frame.new.rows ≡ frame.old.rows }
{
    Reply::done_or(frame.scan_group(a, group))
}

/// Serves the step that asks for an aggregate's answer.
pub(super) fn ask<S: FarTickets>(frame: &Frame<S>, a: u32) -> Reply
    ensures { Changes S.content frame.now (Step.Ask a) result frame.now }
{
    match frame.ask(a) {
        Ok(answer) => Reply::Answer(answer),
        Err(refusal) => Reply::Refused(refusal),
    }
}

/// Serves the step that adds a pin to an object.
pub(super) fn pin<S: FarTickets>(frame: &mut Frame<S>, column: u32, group: u32) -> Reply
    ensures changes { Changes S.content frame.old (Step.Pin column group) result frame.new }
    ensures here { (id : List ℕ) → AreAt S.is_of id frame.old.rows
        → AreAt S.is_of id frame.new.rows }
{
    Reply::done_or(frame.pin(column, group))
}

/// Serves the step that removes a pin from an object.
pub(super) fn unpin<S: FarTickets>(frame: &mut Frame<S>, column: u32, group: u32) -> Reply
    ensures changes { Changes S.content frame.old (Step.Unpin column group) result frame.new }
    ensures here { (id : List ℕ) → AreAt S.is_of id frame.old.rows
        → AreAt S.is_of id frame.new.rows }
{
    Reply::done_or(frame.unpin(column, group))
}

/// Serves the compaction of a segment.
pub(super) fn compact<S: FarTickets>(frame: &mut Frame<S>, kind: Kind, segment: u32) -> Reply
    ensures changes { Changes S.content frame.old (Step.Compact kind segment) result frame.new }
    ensures here { (id : List ℕ) → AreAt S.is_of id frame.old.rows
        → AreAt S.is_of id frame.new.rows }
{
    Reply::done_or(frame.compact(kind, segment))
}

/// Serves the step that asks which row groups of a column to fetch next.
pub(super) fn prefetch<S: FarTickets>(frame: &Frame<S>, column: u32) -> Reply
    ensures { Changes S.content frame.now (Step.Prefetch column) result frame.now }
{
    match frame.proposals(column) {
        Ok(groups) => Reply::Next(groups),
        Err(refusal) => Reply::Refused(refusal),
    }
}
