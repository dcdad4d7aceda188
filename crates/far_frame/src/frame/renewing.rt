// Moves a table to another far store.
ghost use Rattle.std.specs.Prelude.{◌≡◌, ◌⊎◌, ◌+◌, ◌<◌, ◌^◌, [], ◌∷◌, IfOk, IfErr};
ghost use Rattle.far_store.specs.Faults.{faults_in, outcome};
ghost use Rattle.far_rows.specs.Jobs.{AreAt};
ghost use Rattle.far_frame.specs.Jobs.{IsOneOf};
ghost use Rattle.far_frame.specs.Renewing.{IsMigrated};

use super::Frame;
use far_store::{FarRead, FarStore, Meter};
use far_types::Refusal;

/// Moves a table to another store: puts the content of each object that is away there. No row, aggregate or answer changes.
/// A local object stays local, with its pins, versions and order of use, and is dirty, since the new store has no copy of
/// it. Do not use jobs of the old table at the new one.
///
/// A refused call returns the unchanged table; contents that were put stay in the new store. Refused with one of these:
///
/// - `FarFault` (21): one of the stores fails. Only then the meter rises, by one.
/// - `FarFull` (22): the new store has no space for another content.
/// - `NoMemory` (1): an allocation fails.
pub fn migrate<S: FarRead, N: FarStore>(
    frame: Frame<S>,
    store: &S,
    new_store: &N,
    meter: &mut Meter,
) -> Result<Frame<N>, (Refusal, Frame<S>)>
    requires few { meter.old < 2 ^ 63 }
    requires here { AreAt S.is_of (S.store_id store.now) frame.rows }
    ensures migrated { IfOk result (IsMigrated S.content N.content frame) }
    ensures there { IfOk result (λ new. AreAt N.is_of (N.store_id new_store.now) new.rows) }
    ensures back { IfErr result (λ e. e.1 ≡ frame) }
    ensures refused { IfErr result (λ e. IsOneOf (21 ∷ 22 ∷ 1 ∷ []) e.0) }
    ensures cause { IfErr result
        (λ e. e.0 ≡ Refusal.FarFault → S.may_fail ⊎ N.may_fail) }
    ensures faults { meter.new ≡ meter.old + faults_in (outcome result) }
{
    let rows = frame.rows.held();
    match rows.renewal(frame.alloc, store, new_store, meter) {
        Ok(renewal) => Ok(Frame {
            alloc: frame.alloc,
            rows: frame.rows.renew(renewal),
            registrations: frame.registrations,
            aggregates: frame.aggregates,
            prefetcher: frame.prefetcher,
        }),
        Err(refusal) => Err((refusal, frame)),
    }
}
