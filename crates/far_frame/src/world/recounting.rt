// Computes a world's aggregates from scratch.
ghost use Rattle.std.specs.Prelude.{◌≡◌, ◌+◌, ◌<◌, ◌≤◌, ◌^◌, None, IfErr, IfOk, OnOk};
ghost use Rattle.far_table.specs.Recounting.{IsAnswerNow, RecountRefusal, recount_refusal};

use super::World;
use far_store::FarStore;
use far_types::{Answer, Refusal};

impl<S: FarStore> World<S> {
    /// Computes the answer of an aggregate from scratch, over the rows as they are and without threads, as
    /// `Frame::recount_alone` does. Only the count of faults changes.
    ///
    /// Refused with the first of these that applies:
    ///
    /// - `NoAggregate` (12): there is no such aggregate.
    /// - `FarFault` (21): the store failed. The fault is counted.
    /// - `NoMemory` (1): an allocation fails.
    pub fn recount_alone(&mut self, a: u32) -> Result<Answer, Refusal>
        requires few { self.old.faults < 2 ^ 63 }
        ensures answer { IfOk result (IsAnswerNow self.old.state.table a) }
        ensures free { OnOk result (recount_refusal self.old.state.table a 1 ≡ None) }
        ensures none { OnOk result (self.new ≡ self.old) }
        ensures refused { IfErr result
            (RecountRefusal (recount_refusal self.old.state.table a 1) self.old.faults
            self.new.faults) }
        ensures world { self.new ≡ record self.old { faults = self.new.faults } }
        ensures cause { self.old.faults < self.new.faults → S.may_fail }
        ensures most { self.new.faults ≤ self.old.faults + 1 }
    {
        self.frame.recount_alone(&self.store, &mut self.meter, a)
    }
}
