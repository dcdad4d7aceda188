// Begins jobs on the objects of the rows.
ghost use Rattle.std.specs.Prelude.{◌≡◌, IfOk, IfErr};
ghost use Rattle.far_scopes.specs.Refusing.{refusal_in};
ghost use Rattle.far_evacuator.specs.Jobs.{IsFormOf};
ghost use Rattle.far_rows.specs.Jobs.{AreAt, IsHere, IsEvacOf, IsEvictable, IsFetchBegun, evac_refusal, fetch_refusal};

use super::Rows;
use crate::object::Object;
use far_evacuator::{EvacJob, FetchJob, Want, begin_evac, begin_fetch};
use far_store::FarTickets;
use far_types::{Kind, Refusal};
use std::alloc::Global;

impl<S: FarTickets> Rows<S> {
    /// Returns the object of a row group of a column, if an evacuation of it can begin (`begin_evac`). Allocates nothing.
    ///
    /// Refused with the first of these that applies:
    ///
    /// - `NoColumn` (4): there is no such column.
    /// - `OutOfRange` (14): no place of the row group is used.
    /// - `Absent` (16): the object is away.
    pub fn evictable(&self, column: usize, group: u32) -> Result<Object, Refusal>
        ensures evictable { IfOk result (IsEvictable self.now column group) }
        ensures refused { refusal_in result ≡ evac_refusal self.now column group }
    {
        // For the proof: shows `AreRows`, so that `Absent` names this column and this row group.
        let _len = self.len();
        match self.object(column, group)? {
            Object::Number(o) => {
                self.number_objects.here(o)?;
                Ok(Object::Number(o))
            }
            Object::Text(o) => {
                self.text_objects.here(o)?;
                Ok(Object::Text(o))
            }
        }
    }

    /// Begins to evict an object, which `evictable` returned. The job holds the far form of a dirty object, or a copy of the
    /// ticket of a clean object. The rows do not change.
    ///
    /// Refused only with `NoMemory` (1).
    pub fn begin_evac(
        &self,
        alloc: Global,
        store: &S,
        object: Object,
    ) -> Result<EvacJob<S>, Refusal>
        requires local { IsHere self.now object }
        requires here { AreAt S.is_of (S.store_id store.now) self.now }
        ensures begun { IfOk result (IsEvacOf self.now object) }
        ensures here { IfOk result (λ job. IsFormOf S.is_of (S.store_id store.now) job.form) }
        ensures memory { IfErr result (λ e. e ≡ Refusal.NoMemory) }
    {
        match object {
            Object::Number(o) => {
                begin_evac(
                    alloc,
                    self.number_objects(),
                    store,
                    Want::Object(o),
                    Kind::Int,
                )
            }
            Object::Text(o) => {
                begin_evac(
                    alloc,
                    self.text_objects(),
                    store,
                    Want::Object(o),
                    Kind::Text,
                )
            }
        }
    }

    /// Begins to fetch the object of a row group of a column. Allocates nothing.
    ///
    /// Refused with the first of these that applies:
    ///
    /// - `NoColumn` (4): there is no such column.
    /// - `OutOfRange` (14): no place of the row group is used.
    /// - `StaleJob` (20): the object is local.
    pub fn begin_fetch(&self, store: &S, column: usize, group: u32) -> Result<FetchJob<S>, Refusal>
        requires here { AreAt S.is_of (S.store_id store.now) self.now }
        ensures begun { IfOk result (IsFetchBegun self.now column group) }
        ensures here { IfOk result (λ job. S.is_of job.ticket (S.store_id store.now)) }
        ensures refused { refusal_in result ≡ fetch_refusal self.now column group }
    {
        match self.object(column, group)? {
            Object::Number(o) => begin_fetch(&self.number_objects, store, o, Kind::Int),
            Object::Text(o) => begin_fetch(&self.text_objects, store, o, Kind::Text),
        }
    }
}
