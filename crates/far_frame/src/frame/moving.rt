// Pins, evicts, fetches and compacts objects of a table.
ghost use Rattle.std.specs.Prelude.{◌≡◌, ◌<◌, ◌≤◌, ◌↔◌, ◌⊎◌, ℕ, List, true, OnOk, OnErr, IfOk, IfErr, IfSome, IsErrOf, option_map};
ghost use Rattle.far_types.specs.MayRefuse.{MayRefuse};
ghost use Rattle.far_scopes.specs.Refusing.{refusal_in};
ghost use Rattle.far_rows.specs.Coldest.{coldest};
ghost use Rattle.far_rows.specs.Copies.{copy_of};
ghost use Rattle.far_rows.specs.Moving.{pin_refusal, unpin_refusal};
ghost use Rattle.far_rows.specs.Jobs.{AreAt, IsEvictable, evac_refusal, fetch_refusal};
ghost use Rattle.far_table.specs.Moving.{IsMoved, IsPinned, IsUnpinned, IsCompactedOf, segments_of, HasNoOther};
ghost use Rattle.far_frame.specs.State.{Alters};
ghost use Rattle.far_frame.specs.Jobs.{IsJobAt, IsEvacJob, IsFetchJob, IsColdestJob, Commits, CommitRefusal, Installs, InstallRefusal};

use super::Frame;
use crate::job::{Job, JobPhase};
use far_rows::Object;
use far_store::FarTickets;
use far_types::{Kind, Name, Refusal};

impl<S: FarTickets> Frame<S> {
    /// Adds a pin to the object of a row group of a column, which then cannot be evicted. Allocates nothing.
    ///
    /// Refused with the first of these that applies:
    ///
    /// - `NoColumn` (4): there is no such column.
    /// - `OutOfRange` (14): the row group has no place.
    /// - `Absent` (16): the object is away.
    /// - `EditsUsedUp` (24): the object has 65,535 pins.
    ///
    /// A refused call changes nothing.
    pub fn pin(&mut self, column: u32, group: u32) -> Result<(), Refusal>
        ensures pinned { OnOk result (Alters (IsMoved (IsPinned column group)) self.old self.new) }
        ensures here { (id : List ℕ) → AreAt S.is_of id self.old.rows
            → AreAt S.is_of id self.new.rows }
        ensures refused { refusal_in result ≡ pin_refusal self.old.rows column group }
        ensures err { OnErr result (self.new ≡ self.old) }
    {
        self.rows.pin(column, group)
    }

    /// Removes a pin from the object of a row group of a column. Allocates nothing.
    ///
    /// Refused with the first of these that applies:
    ///
    /// - `NoColumn` (4): there is no such column.
    /// - `OutOfRange` (14): the row group has no place.
    /// - `NotPinned` (18): the object has no pin.
    ///
    /// A refused call changes nothing.
    pub fn unpin(&mut self, column: u32, group: u32) -> Result<(), Refusal>
        ensures unpinned { OnOk result
            (Alters (IsMoved (IsUnpinned column group)) self.old self.new) }
        ensures here { (id : List ℕ) → AreAt S.is_of id self.old.rows
            → AreAt S.is_of id self.new.rows }
        ensures refused { refusal_in result ≡ unpin_refusal self.old.rows column group }
        ensures err { OnErr result (self.new ≡ self.old) }
    {
        self.rows.unpin(column, group)
    }

    /// Checks that an eviction of the object of a row group of a column can begin. Allocates nothing.
    ///
    /// Refused with the first of these that applies:
    ///
    /// - `NoColumn` (4): there is no such column.
    /// - `OutOfRange` (14): the row group has no place.
    /// - `Absent` (16): the object is away.
    pub fn may_evac(&self, column: u32, group: u32) -> Result<(), Refusal>
        ensures refused { refusal_in result ≡ evac_refusal self.now.rows column group }
    {
        self.evictable(column, group)?;
        Ok(())
    }

    /// Returns the object of a row group of a column, if an eviction of it can begin. Refused as `may_evac` is.
    pub(crate) fn evictable(&self, column: u32, group: u32) -> Result<Object, Refusal>
        ensures evictable { IfOk result (IsEvictable self.now.rows column group) }
        ensures refused { refusal_in result ≡ evac_refusal self.now.rows column group }
    {
        self.rows.held().evictable(column as usize, group)
    }

    /// Begins to evict the object of a row group of a column. The job holds the object's far form or, if the object is
    /// clean, its ticket. Changes nothing.
    ///
    /// Refused with the first of these that applies:
    ///
    /// - `NoColumn` (4): there is no such column.
    /// - `OutOfRange` (14): the row group has no place.
    /// - `Absent` (16): the object is away.
    /// - `NoMemory` (1): an allocation fails.
    pub fn begin_evac(&self, store: &S, column: u32, group: u32) -> Result<Job<S>, Refusal>
        requires here { AreAt S.is_of (S.store_id store.now) self.now.rows }
        ensures begun { IfOk result (IsEvacJob self.now.rows column group) }
        ensures here { IfOk result (IsJobAt S.is_of (S.store_id store.now)) }
        ensures refused { IfErr result (MayRefuse (evac_refusal self.now.rows column group) true) }
    {
        let object = self.evictable(column, group)?;
        self.evac_job(store, Name { column, group }, object)
    }

    /// Begins to evict an object, which `evictable` or `coldest` returned, of the row group and the column in its name. The job
    /// holds the object's far form or, if the object is clean, its ticket. Changes nothing.
    ///
    /// Refused only with `NoMemory` (1).
    pub(crate) fn evac_job(&self, store: &S, name: Name, object: Object) -> Result<Job<S>, Refusal>
        requires here { AreAt S.is_of (S.store_id store.now) self.now.rows }
        requires evictable { IsEvictable self.now.rows name.column name.group object }
        ensures begun { IfOk result (IsEvacJob self.now.rows name.column name.group) }
        ensures here { IfOk result (IsJobAt S.is_of (S.store_id store.now)) }
        ensures memory { IfErr result (λ e. e ≡ Refusal.NoMemory) }
    {
        let evac = self.rows.held().begin_evac(self.alloc, store, object)?;
        Ok(Job {
            name: Some(name),
            work: JobPhase::Evac(evac),
        })
    }

    /// Returns the eviction victim and its name: the coldest object without a pin, of the kind with less space. `None` if
    /// neither kind has one. Allocates nothing.
    pub(crate) fn coldest(&self) -> Option<(Name, Object)>
        ensures coldest { option_map (λ found. found.0) result ≡ coldest self.now.rows }
        ensures evictable { IfSome result
            (λ found. IsEvictable self.now.rows found.0.column found.0.group found.1) }
    {
        self.rows.held().coldest()
    }

    /// Begins to evict the coldest object without a pin, of the kind with less space. `None` exactly if neither kind has
    /// one. Changes nothing.
    ///
    /// Refused only with `NoMemory` (1).
    pub fn begin_coldest(&self, store: &S) -> Result<Option<Job<S>>, Refusal>
        requires here { AreAt S.is_of (S.store_id store.now) self.now.rows }
        ensures begun { IfOk result (IsColdestJob self.now.rows) }
        ensures here { IfOk result (λ job. IfSome job (IsJobAt S.is_of (S.store_id store.now))) }
        ensures memory { IfErr result (λ e. e ≡ Refusal.NoMemory) }
    {
        let Some((name, object)) = self.coldest() else {
            return Ok(None);
        };
        Ok(Some(self.evac_job(store, name, object)?))
    }

    /// Begins to fetch the object of a row group of a column. Changes and allocates nothing.
    ///
    /// Refused with the first of these that applies:
    ///
    /// - `NoColumn` (4): there is no such column.
    /// - `OutOfRange` (14): the row group has no place.
    /// - `StaleJob` (20): the object is local.
    pub fn begin_fetch(&self, store: &S, column: u32, group: u32) -> Result<Job<S>, Refusal>
        requires here { AreAt S.is_of (S.store_id store.now) self.now.rows }
        ensures begun { IfOk result (IsFetchJob self.now.rows column group) }
        ensures here { IfOk result (IsJobAt S.is_of (S.store_id store.now)) }
        ensures refused { refusal_in result ≡ fetch_refusal self.now.rows column group }
    {
        let rows = self.rows.held();
        let fetch = rows.begin_fetch(store, column as usize, group)?;
        Ok(Job {
            name: Some(Name { column, group }),
            work: JobPhase::Fetch(fetch),
        })
    }

    /// Returns the ticket of an object that is away, by its row group and column. Allocates nothing.
    ///
    /// Refused with the first of these that applies:
    ///
    /// - `NoColumn` (4): there is no such column.
    /// - `OutOfRange` (14): the row group has no place.
    /// - `StaleJob` (20): the object is local.
    pub(crate) fn away_copy(&self, column: u32, group: u32) -> Result<&S::Ticket, Refusal>
        ensures ticket { IfOk result
            (λ ticket. copy_of self.now.rows column group ≡ Some ticket.now) }
        ensures here { (id : List ℕ) → AreAt S.is_of id self.now.rows
            → IfOk result (λ ticket. S.is_of ticket.now id) }
        ensures refused { refusal_in result ≡ fetch_refusal self.now.rows column group }
    {
        self.rows.held().away_copy(column as usize, group)
    }

    /// Ends a carried eviction: its object is away. No row, aggregate or answer changes. Allocates nothing.
    ///
    /// Refused with the first of these that applies:
    ///
    /// - `StaleJob` (20): the job is of another kind or phase, or its object was written or away since it began.
    /// - `Pinned` (19): the object has a pin.
    ///
    /// A refused call changes nothing.
    pub fn commit(&mut self, store: &S, job: &Job<S>) -> Result<(), Refusal>
        requires here { AreAt S.is_of (S.store_id store.now) self.old.rows }
        requires job_here { IsJobAt S.is_of (S.store_id store.now) job.now }
        ensures committed { OnOk result (Commits S.number_of self.old job.now.work self.new) }
        ensures refused { IfErr result (CommitRefusal S.number_of self.old job.now.work) }
        ensures err { OnErr result (self.new ≡ self.old) }
        ensures here { AreAt S.is_of (S.store_id store.now) self.new.rows }
    {
        match &job.work {
            JobPhase::Carried(carried) => self.rows.commit(store, carried),
            JobPhase::Evac(_) => Err(Refusal::StaleJob),
            JobPhase::Fetch(_) => Err(Refusal::StaleJob),
            JobPhase::Fetched(_) => Err(Refusal::StaleJob),
            JobPhase::Offload(_) => Err(Refusal::StaleJob),
            JobPhase::Offloaded(_) => Err(Refusal::StaleJob),
        }
    }

    /// Ends a carried fetch: its object is local. No row, aggregate or answer changes.
    ///
    /// Refused with the first of these that applies:
    ///
    /// - `StaleJob` (20): the job is of another kind or phase, or its object is local, or was local since it began.
    /// - `RegionFull` (17): the object does not fit.
    /// - `NoMemory` (1): an allocation fails.
    ///
    /// A refused call changes nothing.
    pub fn install(&mut self, store: &S, job: &Job<S>) -> Result<(), Refusal>
        requires here { AreAt S.is_of (S.store_id store.now) self.old.rows }
        requires job_here { IsJobAt S.is_of (S.store_id store.now) job.now }
        ensures installed { OnOk result
            (Installs S.number_of self.old S.content job.now.work self.new) }
        ensures refused { IfErr result
            (InstallRefusal S.number_of self.old S.content job.now.work) }
        ensures err { OnErr result (self.new ≡ self.old) }
        ensures here { AreAt S.is_of (S.store_id store.now) self.new.rows }
    {
        match &job.work {
            JobPhase::Fetched(fetched) => self.rows.install(self.alloc, store, fetched),
            JobPhase::Evac(_) => Err(Refusal::StaleJob),
            JobPhase::Carried(_) => Err(Refusal::StaleJob),
            JobPhase::Fetch(_) => Err(Refusal::StaleJob),
            JobPhase::Offload(_) => Err(Refusal::StaleJob),
            JobPhase::Offloaded(_) => Err(Refusal::StaleJob),
        }
    }

    /// Compacts a segment of the objects of a kind: moves its parts into the lowest other segment without parts, without
    /// gaps, those of hot objects first. Clears the hot bits of these objects.
    ///
    /// Refused with the first of these that applies:
    ///
    /// - `OutOfRange` (14): there is no such segment.
    /// - `RegionFull` (17): every other segment has a part.
    /// - `NoMemory` (1): an allocation fails.
    ///
    /// A refused call changes nothing.
    pub fn compact(&mut self, kind: Kind, segment: u32) -> Result<(), Refusal>
        ensures compacted { OnOk result
            (Alters (IsMoved (IsCompactedOf kind segment)) self.old self.new) }
        ensures here { (id : List ℕ) → AreAt S.is_of id self.old.rows
            → AreAt S.is_of id self.new.rows }
        ensures missing { IsErrOf result Refusal.OutOfRange
            ↔ (segments_of kind self.old.rows ≤ segment) }
        ensures full { IsErrOf result Refusal.RegionFull
            ↔ ((segment < segments_of kind self.old.rows) × HasNoOther kind segment self.old.rows) }
        ensures refused { IfErr result
            (λ e. (e ≡ Refusal.OutOfRange) ⊎ ((e ≡ Refusal.RegionFull) ⊎ (e ≡ Refusal.NoMemory))) }
        ensures err { OnErr result (self.new ≡ self.old) }
    {
        self.rows.compact(self.alloc, kind, segment)
    }
}
