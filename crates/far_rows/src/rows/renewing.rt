// Copies the far copies of rows into another store.
ghost use Rattle.std.specs.Prelude.{◌≡◌, ◌⊎◌, ◌+◌, ◌<◌, ◌^◌, ℕ, List, [], ◌∷◌, IfOk};
ghost use Rattle.far_store.specs.Faults.{faults_in, FailsOnlyIf, RefusedBy};
ghost use Rattle.far_rows.specs.Rows.{all_cells};
ghost use Rattle.far_rows.specs.Jobs.{AreAt};
ghost use Rattle.far_rows.specs.Renewal.{RenewsRows, AreTicketsAt, renewed_rows};

use super::Rows;
use crate::renewal::RowsRenewal;
use far_store::{FarRead, FarStore, FarTickets, Meter};
use far_types::Refusal;
use std::alloc::Global;

impl<S: FarRead> Rows<S> {
    /// Puts the content of each object that is away into another store: first the objects of numbers, then the objects of
    /// texts, each by ascending object number. Allocates all memory that `renew` needs. The rows do not change.
    ///
    /// Stops at the first refusal. The new store keeps the contents that it already has. Refused with one of these:
    ///
    /// - `FarFault` (21): one of the stores fails. Only then does the meter rise, by one.
    /// - `FarFull` (22): the new store has no more numbers.
    /// - `NoMemory` (1): an allocation fails.
    pub fn renewal<N: FarStore>(
        &self,
        alloc: Global,
        store: &S,
        new_store: &N,
        meter: &mut Meter,
    ) -> Result<RowsRenewal<N>, Refusal>
        requires few { meter.old < 2 ^ 63 }
        requires here { AreAt S.is_of (S.store_id store.now) self.now }
        ensures renews { IfOk result (RenewsRows S.content N.content self.now) }
        ensures there { IfOk result (AreTicketsAt N.is_of (N.store_id new_store.now)) }
        ensures faults { meter.new ≡ meter.old + faults_in result }
        ensures cause { FailsOnlyIf (S.may_fail ⊎ N.may_fail) result }
        ensures refused { RefusedBy (21 ∷ 22 ∷ 1 ∷ []) result }
    {
        let numbers = self.number_objects.renewal(alloc, store, new_store, meter)?;
        let texts = self.text_objects.renewal(alloc, store, new_store, meter)?;
        Ok(RowsRenewal { numbers, texts })
    }
}

impl<S: FarTickets> Rows<S> {
    /// Returns the same rows over the new store, with the far copies of the renewal. The local objects are dirty, since the
    /// new store has no copy of them. Allocates nothing.
    ///
    /// Keeps every cell and flag; which objects are local, hot or pinned; versions, leavings, the orders of use and the
    /// regions.
    pub fn renew<N: FarTickets>(self, renewal: RowsRenewal<N>) -> Rows<N>
        requires { RenewsRows S.content N.content self renewal }
        ensures renewed { result ≡ renewed_rows self renewal }
        ensures cells { all_cells N.content result ≡ all_cells S.content self }
        ensures store { (id : List ℕ) → AreTicketsAt N.is_of id renewal
            → AreAt N.is_of id result }
    {
        let RowsRenewal { numbers, texts } = renewal;
        Rows {
            column_indexes: self.column_indexes,
            size: self.size,
            reciprocal: self.reciprocal,
            numbers: self.numbers,
            texts: self.texts,
            number_objects: self.number_objects.renew(numbers),
            text_objects: self.text_objects.renew(texts),
            alive: self.alive,
            spare: self.spare,
        }
    }
}
