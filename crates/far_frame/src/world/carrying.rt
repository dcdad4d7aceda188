// Calls for a program that carries a world's jobs itself: which jobs wait, and how they end early.
ghost use Rattle.std.specs.Prelude.{◌≡◌, ◌+◌, ◌<◌, ◌^◌, [], ◌∷◌, None, IfErr, IfOk, IfSome, IsSome, IsSomeAnd, OnErr, OnOk, length, option_copied, unwrap_or};
ghost use Rattle.far_types.specs.FirstOf.{first_of};
ghost use Rattle.far_rows.specs.Coldest.{coldest};
ghost use Rattle.far_rows.specs.Moving.{object_refusal};
ghost use Rattle.far_scopes.specs.Refusing.{refusal_in};
ghost use Rattle.far_store.specs.Faults.{faults_of};
ghost use Rattle.far_frame.specs.Carrying.{number_wanted};
ghost use Rattle.far_frame.specs.Jobs.{IsJobAt};
ghost use Rattle.far_frame.specs.Lending.{AreObserved};
ghost use Rattle.far_frame.specs.TableRefusals.{no_column, no_group};
ghost use Rattle.far_frame.specs.TableViews.{table_of};
ghost use Rattle.far_frame.specs.Waiting.{job_at, without_job};
ghost use Rattle.far_frame.specs.Worlds.{IsNotBegun};
ghost use Rattle.far_frame.specs.Ending.{IsColdestBegun, no_job};

use super::World;
use crate::job::Job;
use far_store::FarStore;
use far_types::Refusal;

impl<S: FarStore> World<S> {
    /// Returns the job of a number; `None` if there is no such job or its number is spent. Allocates nothing.
    pub fn job(&self, n: u64) -> Option<&Job<S>>
        ensures job { option_copied result ≡ job_at self.now.jobs n }
        ensures here { IfSome result (λ job. IsJobAt S.is_of self.now.store job.now) }
    {
        self.jobs.get(n)
    }

    /// Returns the number of a content, by its index among those that a job has still to read. `None` if the index is past
    /// the last. A job that was carried has none. Allocates nothing.
    ///
    /// Refused with `StaleJob` (20) exactly if there is no such job.
    pub fn wanted(&self, n: u64, index: usize) -> Result<Option<u64>, Refusal>
        ensures number { IfOk result
            (λ number. IsSomeAnd (job_at self.now.jobs n)
            (λ job. number ≡ number_wanted S.number_of job.work index)) }
        ensures refused { refusal_in result ≡ no_job self.now n }
    {
        let Some(job) = self.jobs.get(n) else {
            return Err(Refusal::StaleJob);
        };
        if job.is_carried() {
            return Ok(None);
        }
        match job.ticket(index) {
            Some(ticket) => Ok(Some(self.store.number(ticket))),
            None => Ok(None),
        }
    }

    /// Returns how many jobs were begun. Allocates nothing.
    pub fn begun(&self) -> u64
        ensures { result ≡ self.now.begun }
    {
        self.begun
    }

    /// Returns how many jobs have a number that is not spent. Allocates nothing.
    pub fn waiting(&self) -> u64
        ensures { result ≡ length self.now.jobs }
    {
        self.jobs.count()
    }

    /// Begins to evict the coldest object without a pin, of the kind with less space, and returns the number of the job.
    /// Returns `None`, and changes nothing, exactly if neither kind has one.
    ///
    /// Refused with the first of these that applies. A refused call changes nothing.
    ///
    /// - `EditsUsedUp` (24): as many jobs were begun as edits are allowed.
    /// - `NoMemory` (1): an allocation fails.
    pub fn begin_coldest(&mut self) -> Result<Option<u64>, Refusal>
        ensures begun { IfOk result (λ n. IsColdestBegun self.old n self.new) }
        ensures table { table_of self.new.state ≡ table_of self.old.state }
        ensures refused { IfErr result (λ e. IsNotBegun None self.old e self.new) }
        ensures some { OnErr result (IsSome (coldest self.old.state.rows)) }
    {
        let Some((name, object)) = self.frame.coldest() else {
            return Ok(None);
        };
        self.may_begin()?;
        let job = self.frame.evac_job(&self.store, name, object)?;
        Ok(Some(self.add(job)?))
    }

    /// Gives up a job in any phase: spends its number. Allocates nothing.
    ///
    /// Refused with `StaleJob` (20) exactly if there is no such job. A refused call changes nothing.
    pub fn give_up(&mut self, n: u64) -> Result<(), Refusal>
        ensures spent { OnOk result
            (self.new ≡ record self.old { jobs = without_job self.old.jobs n }) }
        ensures refused { refusal_in result ≡ no_job self.old n }
        ensures err { OnErr result (self.new ≡ self.old) }
    {
        if self.jobs.get(n).is_none() {
            return Err(Refusal::StaleJob);
        }
        self.jobs.spend(n);
        Ok(())
    }

    /// Counts a fault of the caller's storage during a job, and returns `FarFault` (21). The job stays. If there is no such
    /// job, returns `StaleJob` (20) and counts nothing. Allocates nothing.
    pub fn fault(&mut self, n: u64) -> Refusal
        requires few { self.old.faults < 2 ^ 63 }
        ensures refusal { result ≡ unwrap_or (no_job self.old n) Refusal.FarFault }
        ensures counted { self.new
            ≡ record self.old { faults = self.old.faults + faults_of result } }
    {
        if self.jobs.get(n).is_none() {
            return Refusal::StaleJob;
        }
        self.meter.rise();
        Refusal::FarFault
    }

    /// Records an access to a row group of a column, and marks its object as recently used if it is local. Allocates
    /// nothing.
    ///
    /// Refused with the first of these that applies. A refused call changes nothing.
    ///
    /// - `NoColumn` (4): there is no such column.
    /// - `OutOfRange` (14): the row group has no place.
    pub fn saw(&mut self, column: u32, group: u32) -> Result<(), Refusal>
        ensures accesses { OnOk result
            (AreObserved column (group ∷ []) self.old.state self.new.state) }
        ensures world { self.new ≡ record self.old { state = self.new.state } }
        ensures table { table_of self.new.state ≡ table_of self.old.state }
        ensures refused { refusal_in result ≡ object_refusal self.old.state.rows column group }
        ensures due { refusal_in result ≡ first_of
            (no_column self.old.state.table column ∷ no_group self.old.state.table group ∷ []) }
        ensures err { OnErr result (self.new ≡ self.old) }
    {
        // For the proof: shows the invariant of the table.
        self.frame.keeps();
        self.frame.saw(column, group)
    }
}
