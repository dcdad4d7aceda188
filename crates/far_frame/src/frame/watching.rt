// The aggregates of a table.
ghost use Rattle.std.specs.Prelude.{◌≡◌, true, false, ℕ, option_map, IfOk, IfErr, IfSome, IfNone, OnOk};
ghost use Rattle.std.specs.Option.{option_copied};
ghost use Rattle.far_types.specs.MayRefuse.{MayRefuse};
ghost use Rattle.far_aggregates.specs.Aggregates.{ask_refusal, is_pending_in};
ghost use Rattle.far_aggregates.specs.Lines.{AnswersKey};
ghost use Rattle.far_aggregates.specs.PendingCounts.{pending_of};
ghost use Rattle.far_aggregates.specs.Readings.{plain_in};
ghost use Rattle.far_table.specs.Watching.{aggregate_at};
ghost use Rattle.far_frame.specs.Effects.{Accepts, Refuses};
ghost use Rattle.far_frame.specs.declared.step.Step.TheVariants as step;
ghost use Rattle.far_frame.specs.declared.step.Reply.TheVariants as reply;

use super::Frame;
use far_aggregates::Line;
use far_aggregates::laws::an_aggregate_is_served_by_the_columns_of_its_schema;
use far_store::FarTickets;
use far_types::{Answer, Key, Refusal, Spec};

impl<S: FarTickets> Frame<S> {
    /// Registers an aggregate and returns its number, the lowest free one of 0 to 31. Every row group that has a place is
    /// pending in it.
    ///
    /// Refused with the first of these that applies:
    ///
    /// - `BadSpec` (3), `NoColumn` (4) or `WrongKind` (5): the aggregate does not fit the schema.
    /// - `TooManyAggregates` (13): 32 are registered now, or 2^32 were registered in all.
    /// - `NoMemory` (1): an allocation fails.
    pub fn watch(&mut self, spec: Spec) -> Result<u32, Refusal>
        ensures ok { IfOk result
            (λ a. Accepts S.content self.old (step.Watch spec) (reply.Aggregate a) self.new) }
        ensures err { IfErr result (λ e. Refuses self.old (step.Watch spec) e self.new) }
    {
        spec.check(self.rows.schema())?;
        let Some(a) = self.aggregates.free_number() else {
            return Err(Refusal::TooManyAggregates);
        };
        if self.registrations == 4_294_967_296 {
            return Err(Refusal::TooManyAggregates);
        }
        let size = self.rows.limits().group;
        let places = self.rows.len();
        self.aggregates
            .register(self.alloc, a, spec, self.registrations, size, places)?;
        self.registrations += 1;
        Ok(a)
    }

    /// Forgets an aggregate. Refused with `NoAggregate` (12) exactly if there is none of this number. Allocates nothing.
    pub fn unwatch(&mut self, a: u32) -> Result<(), Refusal>
        ensures ok { OnOk result (Accepts S.content self.old (step.Unwatch a) reply.Done self.new) }
        ensures err { IfErr result (λ e. Refuses self.old (step.Unwatch a) e self.new) }
    {
        if self.aggregates.spec(a).is_none() {
            return Err(Refusal::NoAggregate);
        }
        self.aggregates.forget(a);
        Ok(())
    }

    /// Scans the rows of a row group into an aggregate.
    ///
    /// Refused with the first of these that applies:
    ///
    /// - `NoAggregate` (12): there is no such aggregate.
    /// - `OutOfRange` (14): the row group has no place.
    /// - `StaleJob` (20): the row group was scanned already.
    /// - `Absent` (16): the object of a column that the aggregate needs is away. The refusal names the lowest such column.
    /// - `NoMemory` (1): an allocation fails.
    pub fn scan_group(&mut self, a: u32, group: u32) -> Result<(), Refusal>
        ensures ok { OnOk result
            (Accepts S.content self.old (step.ScanGroup a group) reply.Done self.new) }
        ensures err { IfErr result (λ e. Refuses self.old (step.ScanGroup a group) e self.new) }
    {
        // For the proof: show `AreRows`, and the bound of the number of places.
        let _held = self.rows.held();
        let _len = self.rows.len();
        let Some(spec) = self.aggregates.spec(a) else {
            return Err(Refusal::NoAggregate);
        };
        if group as usize >= self.rows.groups() {
            return Err(Refusal::OutOfRange);
        }
        if !self.aggregates.is_pending_in(a, group) {
            return Err(Refusal::StaleJob);
        }
        self.rows.may_scan(spec, group)?;
        let size = self.rows.limits().group;
        an_aggregate_is_served_by_the_columns_of_its_schema();
        self.aggregates
            .scan_at(self.alloc, a, &self.rows.group(group), size, group)
    }

    /// Returns the answer of an aggregate over the rows as they are, whichever objects are away.
    ///
    /// Refused with the first of these that applies:
    ///
    /// - `NoAggregate` (12): there is no such aggregate.
    /// - `Building` (15): row groups are pending. The refusal says how many.
    /// - `NoMemory` (1): an allocation fails.
    pub fn ask(&self, a: u32) -> Result<Answer, Refusal>
        ensures ok { IfOk result
            (λ answer. Accepts S.content self.now (step.Ask a) (reply.Answer answer) self.now) }
        ensures err { IfErr result (λ e. Refuses self.now (step.Ask a) e self.now) }
    {
        // For the proof: shows `AreLimits`.
        let _limits = self.rows.limits();
        self.aggregates.answer(self.alloc, a)
    }

    /// Returns the line of one key in the answer of an aggregate over the rows as they are, or `None` if the answer has no
    /// such line. Costs one look-up and makes no other line. Allocates nothing.
    ///
    /// Refused with the first of these that applies:
    ///
    /// - `NoAggregate` (12): there is no such aggregate.
    /// - `Building` (15): row groups are pending. The refusal says how many.
    pub fn line(&self, a: u32, key: &Option<Key>) -> Result<Option<Line>, Refusal>
        ensures ok { IfOk result
            (AnswersKey self.now.table.places (aggregate_at self.now.table a) key.now) }
        ensures err { IfErr result (MayRefuse (ask_refusal (aggregate_at self.now.table a)) false) }
    {
        // For the proof: shows `AreLimits`.
        let _limits = self.rows.limits();
        self.aggregates.line(a, key)
    }

    /// Returns the specification of an aggregate, or `None` if there is none of this number. Allocates nothing.
    pub fn spec(&self, a: u32) -> Option<&Spec>
        ensures { option_copied result
            ≡ option_map (λ aggregate. aggregate.spec) (aggregate_at self.now.table a) }
    {
        self.aggregates.spec(a)
    }

    /// Returns an aggregate and a row group that is pending in it, or `None` if no row group is pending in any. Allocates
    /// nothing.
    pub fn unbuilt(&self) -> Option<(u32, u32)>
        ensures some { IfSome result
            (λ at. is_pending_in (aggregate_at self.now.table at.0) at.1 ≡ true) }
        ensures none { IfNone result
            ((a : ℕ) → (g : ℕ) → is_pending_in (aggregate_at self.now.table a) g ≡ false) }
    {
        self.aggregates.first_pending()
    }

    /// Returns how many row groups are pending in an aggregate, and the first of them. `None` if there is no such
    /// aggregate. Allocates nothing.
    pub fn pending(&self, a: u32) -> Option<(u32, Option<u32>)>
        ensures { result ≡ option_map pending_of (aggregate_at self.now.table a) }
    {
        self.aggregates.pending(a)
    }

    /// Returns the count and the sum of an aggregate of totals without key column. `None` if there is no such aggregate, or
    /// row groups are pending in it. Allocates nothing.
    pub fn plain(&self, a: u32) -> Option<(u64, i128)>
        ensures { result ≡ plain_in self.now.table.places (aggregate_at self.now.table a) }
    {
        self.aggregates.plain(a)
    }
}
