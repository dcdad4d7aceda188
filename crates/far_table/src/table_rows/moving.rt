// Evicts, fetches, pins and compacts the objects of rows. No place changes.
ghost use Rattle.std.specs.Prelude.{◌≡◌, ◌≢◌, ◌↔◌, ◌⊎◌, ◌<◌, ◌≤◌, ℕ, List, OnOk, OnErr, IfErr, IsErrOf};
ghost use Rattle.far_scopes.specs.Refusing.{refusal_in};
ghost use Rattle.far_rows.specs.Moving.{object_refusal, pin_refusal, unpin_refusal};
ghost use Rattle.far_rows.specs.Jobs.{AreAt, IsEvacAccepted, IsFetchAccepted, pins_by, HasNoSpace};
ghost use Rattle.far_table.specs.Moving.{AreMoved, IsPinned, IsUnpinned, IsTouched, IsCommitted, IsInstalled, IsCompactedOf, segments_of, HasNoOther};

use super::TableRows;
use far_evacuator::{Carried, Fetched};
use far_store::FarTickets;
use far_types::{Kind, Refusal};
use std::alloc::Global;

impl<S: FarTickets> TableRows<S> {
    /// Ends a carried eviction: its object is away. No place changes. Allocates nothing.
    ///
    /// Refused with the first of these that applies:
    ///
    /// - `StaleJob` (20): its assumptions no longer hold (`IsEvacAccepted`).
    /// - `Pinned` (19): the object has a pin.
    ///
    /// A refused call changes nothing.
    pub fn commit(&mut self, store: &S, carried: &Carried<S>) -> Result<(), Refusal>
        requires here { AreAt S.is_of (S.store_id store.now) self.old.held }
        requires carried_here { S.is_of carried.now.ticket (S.store_id store.now) }
        ensures committed { OnOk result
            (AreMoved (IsCommitted S.number_of carried.now) self.old self.new) }
        ensures here { AreAt S.is_of (S.store_id store.now) self.new.held }
        ensures stale { IsErrOf result Refusal.StaleJob
            ↔ (¬ IsEvacAccepted S.number_of self.old.held carried.now) }
        ensures pinned { IsErrOf result Refusal.Pinned
            ↔ (IsEvacAccepted S.number_of self.old.held carried.now
            × (pins_by self.old.held carried.now ≢ 0)) }
        ensures refused { IfErr result (λ e. (e ≡ Refusal.StaleJob) ⊎ (e ≡ Refusal.Pinned)) }
        ensures err { OnErr result (self.new ≡ self.old) }
    {
        self.rows.commit(store, carried)
    }

    /// Ends a carried fetch: its object is local. No place changes.
    ///
    /// Refused with the first of these that applies:
    ///
    /// - `StaleJob` (20): its assumptions no longer hold (`IsFetchAccepted`).
    /// - `RegionFull` (17): no segment has the space.
    /// - `NoMemory` (1): an allocation fails.
    ///
    /// A refused call changes nothing.
    pub fn install(&mut self, alloc: Global, store: &S, fetched: &Fetched<S>) -> Result<(), Refusal>
        requires here { AreAt S.is_of (S.store_id store.now) self.old.held }
        requires fetched_here { S.is_of fetched.now.job.ticket (S.store_id store.now) }
        ensures installed { OnOk result
            (AreMoved (IsInstalled S.content S.number_of fetched.now) self.old self.new) }
        ensures here { AreAt S.is_of (S.store_id store.now) self.new.held }
        ensures stale { IsErrOf result Refusal.StaleJob
            ↔ (¬ IsFetchAccepted S.number_of self.old.held fetched.now) }
        ensures full { IsErrOf result Refusal.RegionFull
            ↔ (IsFetchAccepted S.number_of self.old.held fetched.now
            × HasNoSpace S.content self.old.held fetched.now) }
        ensures refused { IfErr result
            (λ e. (e ≡ Refusal.StaleJob) ⊎ ((e ≡ Refusal.RegionFull) ⊎ (e ≡ Refusal.NoMemory))) }
        ensures err { OnErr result (self.new ≡ self.old) }
    {
        self.rows.install(alloc, store, fetched)
    }

    /// Adds a pin to the object of a row group of a column. Allocates nothing.
    ///
    /// Refused with the first of these that applies:
    ///
    /// - `NoColumn` (4): there is no such column.
    /// - `OutOfRange` (14): the row group has no place.
    /// - `Absent` (16): the object is away.
    /// - `EditsUsedUp` (24): the object has 65,535 pins.
    ///
    /// A refused call changes nothing.
    pub fn pin(&mut self, column: u32, group: u32) -> Result<(), Refusal>
        ensures pinned { OnOk result (AreMoved (IsPinned column group) self.old self.new) }
        ensures here { (id : List ℕ) → AreAt S.is_of id self.old.held
            → AreAt S.is_of id self.new.held }
        ensures refused { refusal_in result ≡ pin_refusal self.old.held column group }
        ensures err { OnErr result (self.new ≡ self.old) }
    {
        self.rows.pin(column as usize, group)
    }

    /// Removes a pin from the object of a row group of a column. Allocates nothing.
    ///
    /// Refused with the first of these that applies:
    ///
    /// - `NoColumn` (4): there is no such column.
    /// - `OutOfRange` (14): the row group has no place.
    /// - `NotPinned` (18): the object has no pin.
    ///
    /// A refused call changes nothing.
    pub fn unpin(&mut self, column: u32, group: u32) -> Result<(), Refusal>
        ensures unpinned { OnOk result (AreMoved (IsUnpinned column group) self.old self.new) }
        ensures here { (id : List ℕ) → AreAt S.is_of id self.old.held
            → AreAt S.is_of id self.new.held }
        ensures refused { refusal_in result ≡ unpin_refusal self.old.held column group }
        ensures err { OnErr result (self.new ≡ self.old) }
    {
        self.rows.unpin(column as usize, group)
    }

    /// Marks the object of a row group of a column as hot and most recently used, if it is local. Allocates nothing.
    ///
    /// Refused with the first of these that applies:
    ///
    /// - `NoColumn` (4): there is no such column.
    /// - `OutOfRange` (14): the row group has no place.
    ///
    /// A refused call changes nothing.
    pub fn touch(&mut self, column: u32, group: u32) -> Result<(), Refusal>
        ensures touched { OnOk result (AreMoved (IsTouched column group) self.old self.new) }
        ensures here { (id : List ℕ) → AreAt S.is_of id self.old.held
            → AreAt S.is_of id self.new.held }
        ensures refused { refusal_in result ≡ object_refusal self.old.held column group }
        ensures err { OnErr result (self.new ≡ self.old) }
    {
        self.rows.touch(column as usize, group)
    }

    /// Compacts a segment of the objects of a kind: moves its parts into the lowest other segment without parts, without gaps, those of
    /// hot objects first. Clears the hot bits of these objects.
    ///
    /// Refused with the first of these that applies:
    ///
    /// - `OutOfRange` (14): there is no such segment.
    /// - `RegionFull` (17): every other segment has a part.
    /// - `NoMemory` (1): an allocation fails.
    ///
    /// A refused call changes nothing.
    pub fn compact(&mut self, alloc: Global, kind: Kind, segment: u32) -> Result<(), Refusal>
        ensures compacted { OnOk result (AreMoved (IsCompactedOf kind segment) self.old self.new) }
        ensures here { (id : List ℕ) → AreAt S.is_of id self.old.held
            → AreAt S.is_of id self.new.held }
        ensures missing { IsErrOf result Refusal.OutOfRange
            ↔ (segments_of kind self.old.held ≤ segment) }
        ensures full { IsErrOf result Refusal.RegionFull
            ↔ ((segment < segments_of kind self.old.held) × HasNoOther kind segment self.old.held) }
        ensures refused { IfErr result
            (λ e. (e ≡ Refusal.OutOfRange) ⊎ ((e ≡ Refusal.RegionFull) ⊎ (e ≡ Refusal.NoMemory))) }
        ensures err { OnErr result (self.new ≡ self.old) }
    {
        match kind {
            Kind::Int => self.rows.compact_numbers(alloc, segment),
            Kind::Text => self.rows.compact_texts(alloc, segment),
        }
    }
}
