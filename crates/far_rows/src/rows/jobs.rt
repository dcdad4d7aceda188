// Ends jobs on the objects of the rows.
ghost use Rattle.std.specs.Prelude.{◌≡◌, ◌≢◌, OnOk, OnErr};
ghost use Rattle.far_evacuator.specs.Acceptance.{DecidesCommit, DecidesInstall};
ghost use Rattle.far_rows.specs.Rows.{all_cells};
ghost use Rattle.far_rows.specs.Jobs.{AreAt, IsEvacAccepted, IsFetchAccepted, pins_by, after_commit, HasNoSpace, IsAfterInstall};

use super::Rows;
use far_evacuator::{Carried, Fetched, commit, install};
use far_store::FarTickets;
use far_types::{Kind, Refusal};
use std::alloc::Global;

impl<S: FarTickets> Rows<S> {
    /// Evicts the object of a carried evacuation. The caller keeps the carried evacuation, but a second commit of it is
    /// refused. Allocates nothing.
    ///
    /// Refused with the first of these that applies:
    ///
    /// - `StaleJob` (20): the job's assumptions no longer hold (`IsEvacAccepted`). The job was begun on another table's objects, or
    ///   its object is away, was written or evicted since, may not be evicted again, or differs from what was carried.
    /// - `Pinned` (19): the object has a pin.
    ///
    /// A refused call changes nothing.
    pub fn commit(&mut self, store: &S, carried: &Carried<S>) -> Result<(), Refusal>
        requires here { AreAt S.is_of (S.store_id store.now) self.old }
        requires carried_here { S.is_of carried.now.ticket (S.store_id store.now) }
        ensures committed { OnOk result (self.new ≡ after_commit self.old carried.now) }
        ensures cells { all_cells S.content self.new ≡ all_cells S.content self.old }
        ensures here { AreAt S.is_of (S.store_id store.now) self.new }
        ensures decided { DecidesCommit result (IsEvacAccepted S.number_of self.old carried.now)
            (pins_by self.old carried.now ≢ 0) }
        ensures err { OnErr result (self.new ≡ self.old) }
    {
        // For the proof: shows that the list of each local object has a far form.
        let _numbers = self.number_objects();
        let _texts = self.text_objects();
        match carried.kind() {
            Kind::Int => commit(&mut self.number_objects, store, carried),
            Kind::Text => commit(&mut self.text_objects, store, carried),
        }
    }

    /// Brings back the object of a carried fetch. The caller keeps the fetched bytes, but a second install of them is
    /// refused.
    ///
    /// Refused with the first of these that applies:
    ///
    /// - `StaleJob` (20): the job's assumptions no longer hold (`IsFetchAccepted`). The job was begun on another table's objects,
    ///   or its object is local, was evicted again since, or has another ticket since a renewal.
    /// - `RegionFull` (17): no segment has enough space.
    /// - `NoMemory` (1): an allocation fails.
    ///
    /// A refused call changes nothing.
    pub fn install(&mut self, alloc: Global, store: &S, fetched: &Fetched<S>) -> Result<(), Refusal>
        requires here { AreAt S.is_of (S.store_id store.now) self.old }
        requires fetched_here { S.is_of fetched.now.job.ticket (S.store_id store.now) }
        ensures installed { OnOk result (IsAfterInstall S.content self.old fetched.now self.new) }
        ensures cells { all_cells S.content self.new ≡ all_cells S.content self.old }
        ensures here { AreAt S.is_of (S.store_id store.now) self.new }
        ensures decided { DecidesInstall result
            (IsFetchAccepted S.number_of self.old fetched.now)
            (HasNoSpace S.content self.old fetched.now) }
        ensures err { OnErr result (self.new ≡ self.old) }
    {
        match fetched.kind() {
            Kind::Int => install(alloc, &mut self.number_objects, store, fetched),
            Kind::Text => install(alloc, &mut self.text_objects, store, fetched),
        }
    }
}
