// The beginnings of jobs.
ghost use Rattle.std.specs.Prelude.{◌≡◌, ◌<◌, ◌⊎◌, length, None, Some, OnOk, IfOk, IfErr, IfSome, IsSomeAnd};
ghost use Rattle.far_codec.specs.Spelling.{IsSpelled};
ghost use Rattle.far_scopes.specs.Memory.{list_in};
ghost use Rattle.far_scopes.specs.Movement.{AreHere, AreTracked};
ghost use Rattle.far_scopes.specs.Refusing.{refusal_in, lend_refusal};
ghost use Rattle.far_evacuator.specs.Jobs.{IsFormOf};
ghost use Rattle.far_evacuator.specs.Beginning.{IsWanted, wanted_object, begin_refusal, IsBegunEvac, IsFetch, fetch_refusal};

use crate::evacuation::{EvacForm, EvacJob};
use crate::far_form::FarForm;
use crate::fetching::FetchJob;
use crate::tickets::again_of;
use far_codec::Elem;
use far_pointer::Pointer;
use far_scopes::Objects;
use far_store::FarTickets;
use far_types::{Kind, Refusal};
use std::alloc::Global;

/// Which object an evacuation takes.
#[derive(Clone, Copy, Debug, PartialEq, Eq)]
pub enum Want {
    /// The object with this number.
    Object(u32),
    /// The eviction victim: the least recently used object that is neither pinned nor hot. If there is none, the victim is the least
    /// recently used object without a pin.
    Coldest,
}

/// Begins to evict an object: encodes it if it is dirty, and copies its ticket if it is clean. Changes no object.
///
/// The job keeps `kind`, by which a caller with objects of two kinds finds these objects again at the job's end.
///
/// Refused with:
/// - `StaleJob` (20) exactly if `want` is `Coldest` and no object can be evicted;
/// - `Absent` (16), which names the object, exactly if `want` names an object that is away;
/// - else only `NoMemory` (1).
pub fn begin_evac<T: Elem, S: FarTickets>(
    alloc: Global,
    objects: &Objects<T, S>,
    store: &S,
    want: Want,
    kind: Kind,
) -> Result<EvacJob<S>, Refusal>
    requires within { IsWanted objects.now want }
    requires here { AreHere S.is_of (S.store_id store.now) objects.now }
    requires spelled { IfSome (wanted_object objects.now want)
        (λ o. IfSome (list_in objects.now.memory o) T.has_spelling) }
    ensures begun { IfOk result (λ job. IsSomeAnd (wanted_object objects.now want)
        (λ o. IsBegunEvac T.spelling objects.now o kind job)) }
    ensures here { IfOk result (λ job. IsFormOf S.is_of (S.store_id store.now) job.form) }
    ensures free { OnOk result (begin_refusal objects.now want ≡ None) }
    ensures refused { IfErr result (λ e. (begin_refusal objects.now want ≡ Some e)
        ⊎ ((begin_refusal objects.now want ≡ None) × (e ≡ Refusal.NoMemory))) }
{
    let number = objects.number();
    let object = chosen(objects, want)?;
    let list = objects.lend(object)?;
    let form = if objects.word(object).dirty() {
        EvacForm::Dirty(FarForm {
            bytes: T::spell(alloc, list)?,
        })
    } else {
        EvacForm::Clean(again_of(objects, store, object))
    };
    Ok(EvacJob {
        number,
        kind,
        object,
        version: objects.version(object),
        leavings: objects.leavings(object),
        form,
    })
}

// Returns the number of the object to evict.
fn chosen<T: Elem, S: FarTickets>(objects: &Objects<T, S>, want: Want) -> Result<u32, Refusal>
    requires within { IsWanted objects.now want }
    requires tracked { AreTracked T.meaning S.content
        (IsSpelled T.in_range T.has_spelling T.spelling) objects.now }
    ensures taken { IfOk result (λ o. wanted_object objects.now want ≡ Some o) }
    ensures within { IfOk result (λ o. o < length objects.now.records) }
    ensures local { IfOk result
        (λ o. begin_refusal objects.now want ≡ lend_refusal objects.now o) }
    ensures refused { IfErr result (λ e. (begin_refusal objects.now want ≡ Some e)) }
{
    match want {
        Want::Object(o) => Ok(o),
        Want::Coldest => match objects.coldest() {
            Some(o) => Ok(o),
            None => Err(Refusal::StaleJob),
        },
    }
}

/// Begins to fetch an object. The job keeps `kind`, as an evacuation does. Allocates nothing.
///
/// Refused with `StaleJob` (20) exactly if the object is local.
pub fn begin_fetch<T: Elem, S: FarTickets>(
    objects: &Objects<T, S>,
    store: &S,
    o: u32,
    kind: Kind,
) -> Result<FetchJob<S>, Refusal>
    requires within { o < length objects.now.records }
    requires here { AreHere S.is_of (S.store_id store.now) objects.now }
    ensures begun { IfOk result (λ job. IsFetch objects.now o kind job) }
    ensures here { IfOk result (λ job. S.is_of job.ticket (S.store_id store.now)) }
    ensures refused { refusal_in result ≡ fetch_refusal objects.now o }
{
    let Pointer::Remote = objects.word(o).read() else {
        return Err(Refusal::StaleJob);
    };
    Ok(FetchJob {
        number: objects.number(),
        kind,
        object: o,
        leavings: objects.leavings(o),
        ticket: again_of(objects, store, o),
    })
}
