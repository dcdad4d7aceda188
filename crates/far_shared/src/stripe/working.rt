// Work in the background, on the table under the lock of a stripe.
ghost use Rattle.std.specs.Prelude.{◌≡◌, ◌<◌, ◌≤◌, [], ◌∷◌, None, length, IfOk, IfErr, IfSome, IsErrOf, OnOk, OnErr};
ghost use Rattle.far_store.specs.Faults.{RefusedBy};
ghost use Rattle.far_frame.specs.Effects.{Accepts, Refuses};
ghost use Rattle.far_frame.specs.declared.step.Reply.TheVariants as reply;
ghost use Rattle.far_frame.specs.declared.step.Step.TheVariants as step;
ghost use Rattle.far_frame.specs.Jobs.{IsJobAt, job_kind};
ghost use Rattle.far_shared.specs.Works.{BeginsWork, BeginRefusal, BeginsBuild, BuildRefusal, EndsWork, EndRefusal, IsJobOf, IsBuildOf, IsBuildingAt, begin_refusals, begun_kind, columns_for, end_refusals};

use super::{Stripe, TableTag};
use crate::work::{Building, Work};
use crate::working::{begin_on, building_on, finish_on, scan_on};
use far_frame::Job;
use far_sessions::PlanTag;
use far_store::FarTickets;
use far_types::Refusal;

impl<N: PlanTag, B: TableTag, S: FarTickets, const I: usize> Stripe<N, B, S, I> {
    /// Begins a work; `None` if there is nothing to do. Changes nothing.
    ///
    /// - An evacuation is refused only with `NoMemory` (1).
    /// - A fetch is refused with `NoColumn` (4), else with `OutOfRange` (14) if the row group has no place, and with `StaleJob`
    ///   (20) if the object is local.
    /// - A build is refused with `StaleJob` (20) if an object that its aggregate needs is dirty, and with `NoMemory` (1).
    pub fn begin(&self, store: &S, work: &Work) -> Result<Option<Job<S>>, Refusal>
        requires store { S.store_id store.now ≡ B.store }
        ensures begins { IfOk result (BeginsWork self.now.state work.now) }
        ensures begun { IfOk result (IsJobOf work.now) }
        ensures here { IfOk result (λ job. IfSome job (IsJobAt S.is_of B.store)) }
        ensures why { IfErr result (BeginRefusal self.now.state work.now) }
        ensures column { length N.plan.schema < columns_for work.now
            → IsErrOf result Refusal.NoColumn }
        ensures refused { columns_for work.now ≤ length N.plan.schema
            → RefusedBy (begin_refusals work.now) result }
    {
        begin_on(&self.frame, store, work)
    }

    /// Ends a job by its kind: commits, installs or merges it. The history and the rows are unchanged. Only a carried job is
    /// accepted.
    ///
    /// Refused as `Frame::commit`, `Frame::install` and `Frame::merge` are. A refused call changes nothing.
    pub fn finish(&mut self, store: &S, job: &Job<S>) -> Result<(), Refusal>
        requires store { S.store_id store.now ≡ B.store }
        requires here { IsJobAt S.is_of B.store job.now }
        ensures same { self.new.log ≡ self.old.log }
        ensures ended { OnOk result (EndsWork S.number_of S.content self.old.state
            (job_kind job.now) job.now.work self.new.state) }
        ensures why { IfErr result
            (EndRefusal S.number_of S.content self.old.state (job_kind job.now) job.now.work) }
        ensures err { OnErr result (self.new ≡ self.old) }
        ensures carried { OnOk result (begun_kind job.now.work ≡ None) }
        ensures refused { RefusedBy (end_refusals (job_kind job.now)) result }
    {
        finish_on(&mut self.frame, store, job)
    }

    /// Begins to build a pending row group: by a scan, if all columns that its aggregate needs are local, otherwise by a job. Changes
    /// nothing.
    ///
    /// Refused as a build is in `begin`, if no scan is possible.
    pub fn building(&self, store: &S) -> Result<Building<Job<S>>, Refusal>
        requires store { S.store_id store.now ≡ B.store }
        ensures begins { IfOk result (BeginsBuild self.now.state) }
        ensures begun { IfOk result IsBuildOf }
        ensures here { IfOk result (IsBuildingAt S.is_of B.store) }
        ensures why { IfErr result (BuildRefusal self.now.state) }
        ensures refused { RefusedBy (14 ∷ 20 ∷ 1 ∷ []) result }
    {
        building_on(&self.frame, store)
    }

    /// Scans a row group into an aggregate. The history and the rows are unchanged.
    ///
    /// Refused as `Frame::scan_group` is. A refused call changes nothing.
    pub fn scan(&mut self, aggregate: u32, group: u32) -> Result<(), Refusal>
        ensures same { self.new.log ≡ self.old.log }
        ensures scanned { OnOk result (Accepts S.content self.old.state
            (step.ScanGroup aggregate group) reply.Done self.new.state) }
        ensures why { IfErr result
            (λ e. Refuses self.old.state (step.ScanGroup aggregate group) e self.new.state) }
        ensures err { OnErr result (self.new ≡ self.old) }
        ensures refused { RefusedBy (12 ∷ 14 ∷ 20 ∷ 16 ∷ 1 ∷ []) result }
    {
        scan_on(&mut self.frame, aggregate, group)
    }
}
