// The ends of evacuations.
ghost use Rattle.std.specs.Prelude.{◌≡◌, ◌≢◌, ◌<◌, ◌↔◌, length, IsTrue, OnOk, OnErr, IfSome, IsSomeAnd};
ghost use Rattle.far_codec.specs.Spelling.{IsSpelled};
ghost use Rattle.far_scopes.specs.Memory.{list_in};
ghost use Rattle.far_scopes.specs.Movement.{pins_of, AreClean, AreHere, AreTracked};
ghost use Rattle.far_scopes.specs.Effects.{after_leave};
ghost use Rattle.far_evacuator.specs.Acceptance.{IsCommittable, IsStill, LeavesRest, DecidesCommit};

use crate::evacuation::{Carried, EvacForm};
use crate::tickets::is_under;
use far_codec::Elem;
use far_scopes::Objects;
use far_store::FarTickets;
use far_types::Refusal;

/// Ends a carried evacuation: evicts the object. The caller keeps the carried evacuation, but a second commit of it is refused. Allocates
/// nothing.
///
/// The job does not say of which element type its object is. So the caller shows that the list of the object has a spelling, as at the
/// beginning.
///
/// A refused commit changes nothing. Refused with:
/// - `StaleJob` (20) exactly if the job's assumptions no longer hold (`IsCommittable`);
/// - else `Pinned` (19) exactly if the object has a pin.
///
/// The job is stale if it was begun on other objects, or if the object:
/// - is away;
/// - was written or evicted since;
/// - was evicted as often as the limit allows;
/// - differs from what was carried.
pub fn commit<T: Elem, S: FarTickets>(
    objects: &mut Objects<T, S>,
    store: &S,
    carried: &Carried<S>,
) -> Result<(), Refusal>
    requires here { AreHere S.is_of (S.store_id store.now) objects.old }
    requires carried_here { S.is_of carried.now.ticket (S.store_id store.now) }
    requires clean { AreClean T.meaning S.content objects.old }
    requires spelled { IfSome (list_in objects.old.memory carried.now.job.object) T.has_spelling }
    ensures committed { OnOk result
        (objects.new ≡ after_leave objects.old carried.now.job.object carried.now.ticket) }
    ensures decided { DecidesCommit result
        (IsCommittable S.number_of T.spelling objects.old carried.now)
        (pins_of objects.old carried.now.job.object ≢ 0) }
    ensures rest { LeavesRest T.meaning S.content S.is_of (S.store_id store.now) objects.old
        objects.new carried.now.job.object }
    ensures err { OnErr result (objects.new ≡ objects.old) }
{
    if !is_committable(objects, store, carried) {
        return Err(Refusal::StaleJob);
    }
    let job = &carried.job;
    let o = job.object;
    if objects.pins(o) > 0 {
        return Err(Refusal::Pinned);
    }
    objects.leave(store, o, &carried.ticket);
    Ok(())
}

// Returns whether the assumptions of a carried evacuation still hold. Allocates nothing.
fn is_committable<T: Elem, S: FarTickets>(
    objects: &Objects<T, S>,
    store: &S,
    carried: &Carried<S>,
) -> bool
    requires here { AreHere S.is_of (S.store_id store.now) objects.now }
    requires carried_here { S.is_of carried.now.ticket (S.store_id store.now) }
    requires clean { AreClean T.meaning S.content objects.now }
    requires spelled { IfSome (list_in objects.now.memory carried.now.job.object) T.has_spelling }
    ensures exact { IsTrue result ↔ IsCommittable S.number_of T.spelling objects.now carried.now }
    ensures within { IsTrue result → carried.now.job.object < length objects.now.records }
    ensures copied { IsTrue result
        → IsSomeAnd (list_in objects.now.memory carried.now.job.object)
        (λ list. IsSpelled T.in_range T.has_spelling T.spelling list
        (S.content carried.now.ticket)) }
{
    let job = &carried.job;
    let o = job.object;
    if job.number != objects.number() || o >= objects.count() {
        return false;
    }
    let Ok(list) = objects.lend(o) else {
        return false;
    };
    objects.version(o) == job.version
        && objects.leavings(o) == job.leavings
        && objects.may_leave(o)
        && is_still(objects, store, carried, list)
}

// Returns whether an object with this list is still what the job carried. Allocates nothing.
fn is_still<T: Elem, S: FarTickets>(
    objects: &Objects<T, S>,
    store: &S,
    carried: &Carried<S>,
    list: &[T],
) -> bool
    requires within { carried.now.job.object < length objects.now.records }
    requires here { AreHere S.is_of (S.store_id store.now) objects.now }
    requires carried_here { S.is_of carried.now.ticket (S.store_id store.now) }
    requires clean { AreClean T.meaning S.content objects.now }
    requires tracked { AreTracked T.meaning S.content
        (IsSpelled T.in_range T.has_spelling T.spelling) objects.now }
    requires lent { list_in objects.now.memory carried.now.job.object ≡ Some list.now }
    requires spelled { T.has_spelling list.now }
    ensures exact { IsTrue result
        ↔ IsStill S.number_of T.spelling objects.now carried.now.job.object carried.now.ticket
        carried.now.job.form }
    ensures copied { IsTrue result
        → IsSpelled T.in_range T.has_spelling T.spelling list.now (S.content carried.now.ticket) }
{
    let job = &carried.job;
    let o = job.object;
    match &job.form {
        EvacForm::Dirty(form) => T::spells(&form.bytes, list),
        EvacForm::Clean(_) => {
            !objects.word(o).dirty() && is_under(objects, store, o, &carried.ticket)
        }
    }
}
