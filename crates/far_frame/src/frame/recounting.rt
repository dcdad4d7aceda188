// Computes aggregates from scratch.
ghost use Rattle.std.specs.Prelude.{◌≡◌, ◌+◌, ◌<◌, ◌≤◌, ◌^◌, None, IfOk, IfErr, OnOk};
ghost use Rattle.far_rows.specs.Jobs.{AreAt};
ghost use Rattle.far_table.specs.Recounting.{recount_refusal, IsAnswerNow, RecountRefusal};

use super::Frame;
use far_aggregates::laws::an_aggregate_is_served_by_the_columns_of_its_schema;
use far_store::{FarRead, Meter};
use far_table::{recount_alone, recount_rows};
use far_types::{Answer, Refusal};
use std::thread::Threads;

impl<S: FarRead> Frame<S> {
    /// Computes the answer of an aggregate from scratch, over the rows as they are, whichever row groups are pending and
    /// whichever objects are away. Changes nothing.
    ///
    /// At most `workers` threads fold the row groups, each a consecutive piece of the table. Local objects are read in
    /// place, others through their tickets.
    ///
    /// Refused with the first of these that applies:
    ///
    /// - `NoAggregate` (12): there is no such aggregate.
    /// - `OutOfRange` (14): the number of workers is not 1 to 64.
    /// - `FarFault` (21): the store failed. Only then the meter rises, by one for each piece in which it failed.
    /// - `NoMemory` (1): an allocation fails, and the store failed in no piece.
    pub fn recount<R: Threads + Sync>(
        &self,
        rt: &R,
        store: &S,
        meter: &mut Meter,
        a: u32,
        workers: u32,
    ) -> Result<Answer, Refusal>
        requires few { meter.old < 2 ^ 63 }
        requires here { AreAt S.is_of (S.store_id store.now) self.now.rows }
        ensures answer { IfOk result (IsAnswerNow self.now.table a) }
        ensures free { OnOk result (recount_refusal self.now.table a workers ≡ None) }
        ensures none { OnOk result (meter.new ≡ meter.old) }
        ensures refused { IfErr result
            (RecountRefusal (recount_refusal self.now.table a workers) meter.old meter.new) }
        ensures cause { meter.old < meter.new → S.may_fail }
        ensures most { meter.new ≤ meter.old + workers }
    {
        let Some(spec) = self.aggregates.spec(a) else {
            return Err(Refusal::NoAggregate);
        };
        if workers == 0 || workers > 64 {
            return Err(Refusal::OutOfRange);
        }
        an_aggregate_is_served_by_the_columns_of_its_schema();
        let held = self.rows.held();
        let size = self.rows.limits().group;
        recount_rows(rt, self.alloc, held, store, meter, spec, size, workers)
    }

    /// Does the same as `recount` with one worker, without threads or a runtime.
    ///
    /// Refused with the first of these that applies:
    ///
    /// - `NoAggregate` (12): there is no such aggregate.
    /// - `FarFault` (21): the store failed. Only then the meter rises, by one.
    /// - `NoMemory` (1): an allocation fails.
    pub fn recount_alone(&self, store: &S, meter: &mut Meter, a: u32) -> Result<Answer, Refusal>
        requires few { meter.old < 2 ^ 63 }
        requires here { AreAt S.is_of (S.store_id store.now) self.now.rows }
        ensures answer { IfOk result (IsAnswerNow self.now.table a) }
        ensures free { OnOk result (recount_refusal self.now.table a 1 ≡ None) }
        ensures none { OnOk result (meter.new ≡ meter.old) }
        ensures refused { IfErr result
            (RecountRefusal (recount_refusal self.now.table a 1) meter.old meter.new) }
        ensures cause { meter.old < meter.new → S.may_fail }
        ensures most { meter.new ≤ meter.old + 1 }
    {
        let Some(spec) = self.aggregates.spec(a) else {
            return Err(Refusal::NoAggregate);
        };
        an_aggregate_is_served_by_the_columns_of_its_schema();
        let held = self.rows.held();
        let size = self.rows.limits().group;
        recount_alone(self.alloc, held, store, meter, spec, size)
    }
}
