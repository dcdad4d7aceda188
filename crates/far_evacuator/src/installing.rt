// The ends of fetches.
ghost use Rattle.std.specs.Prelude.{◌≡◌, List, ◌<◌, ◌↔◌, ◌⊎◌, length, false, Some, IsTrue, OnOk, OnErr, IfOk, IfErr, IsErrOf, IsSomeAnd, option_map};
ghost use Rattle.far_log.specs.RegionState.{fits_in};
ghost use Rattle.far_codec.specs.Spelling.{IsSpelled};
ghost use Rattle.far_scopes.specs.Movement.{list_of, ticket_of, AreHere};
ghost use Rattle.far_scopes.specs.Effects.{after_arrive};
ghost use Rattle.far_evacuator.specs.Acceptance.{IsInstallable, LeavesRest, DecidesInstall};

use crate::fetching::Fetched;
use crate::tickets::is_under;
use far_codec::Elem;
use far_pointer::Pointer;
use far_scopes::Objects;
use far_store::FarTickets;
use far_types::Refusal;
use std::alloc::Global;

/// Ends a carried fetch: decodes the object into local memory. The caller keeps the fetched bytes, but a second install of them is
/// refused.
///
/// A refused install changes nothing. Refused with:
/// - `StaleJob` (20) exactly if the job's assumptions no longer hold (`IsInstallable`);
/// - else `RegionFull` (17) exactly if no segment has the space;
/// - else only `NoMemory` (1).
///
/// The job is stale if it was begun on other objects, or if the object is local or was evicted again since.
pub fn install<T: Elem, S: FarTickets>(
    alloc: Global,
    objects: &mut Objects<T, S>,
    store: &S,
    fetched: &Fetched<S>,
) -> Result<(), Refusal>
    requires here { AreHere S.is_of (S.store_id store.now) objects.old }
    requires fetched_here { S.is_of fetched.now.job.ticket (S.store_id store.now) }
    ensures installed { OnOk result (IsSomeAnd
        (list_of T.meaning S.content objects.old fetched.now.job.object)
        (λ list. objects.new ≡ after_arrive objects.old fetched.now.job.object list)) }
    ensures decided { DecidesInstall result
        (IsInstallable S.number_of (IsSpelled T.in_range T.has_spelling T.spelling) objects.old
        fetched.now)
        (IsSomeAnd (list_of T.meaning S.content objects.old fetched.now.job.object)
        (λ list. fits_in objects.old.memory.state (length list) ≡ false)) }
    ensures rest { LeavesRest T.meaning S.content S.is_of (S.store_id store.now) objects.old
        objects.new fetched.now.job.object }
    ensures err { OnErr result (objects.new ≡ objects.old) }
{
    if !is_installable(objects, store, fetched) {
        return Err(Refusal::StaleJob);
    }
    let o = fetched.job.object;
    let len = objects.len(o);
    if !objects.fits(len) {
        return Err(Refusal::RegionFull);
    }
    let list = read_form(alloc, &fetched.bytes, len)?;
    objects.arrive(o, &list)
}

// Decodes the bytes, if they are the far form of a list of `len` elements. Refused with `StaleJob` (20) if they are not, else only with
// `NoMemory` (1).
//
// `install` passes only such bytes, since the content of an object's ticket is its far form. Only a store whose contents change could break
// that rule. So this function requires nothing of the bytes, and refuses all others.
fn read_form<T: Elem>(alloc: Global, bytes: &[u8], len: usize) -> Result<Vec<T>, Refusal>
    ensures list { IfOk result (λ list. (length list.items ≡ len)
        × IsSpelled T.in_range T.has_spelling T.spelling list.items bytes.now) }
    ensures only { (list : List T) → length list ≡ len
        → IsSpelled T.in_range T.has_spelling T.spelling list bytes.now
        → IfOk result (λ found. found.items ≡ list) }
    ensures stale { IsErrOf result Refusal.StaleJob → (list : List T) → length list ≡ len
        → ¬ IsSpelled T.in_range T.has_spelling T.spelling list bytes.now }
    ensures refused { IfErr result (λ e. (e ≡ Refusal.StaleJob) ⊎ (e ≡ Refusal.NoMemory)) }
{
    match T::unspell(alloc, bytes)? {
        Some(list) if list.len() == len => Ok(list),
        _ => Err(Refusal::StaleJob),
    }
}

// Returns whether the assumptions of a fetch still hold. Allocates nothing.
fn is_installable<T: Elem, S: FarTickets>(
    objects: &Objects<T, S>,
    store: &S,
    fetched: &Fetched<S>,
) -> bool
    requires here { AreHere S.is_of (S.store_id store.now) objects.now }
    requires fetched_here { S.is_of fetched.now.job.ticket (S.store_id store.now) }
    ensures exact { IsTrue result
        ↔ IsInstallable S.number_of (IsSpelled T.in_range T.has_spelling T.spelling) objects.now
        fetched.now }
    ensures content { IsTrue result
        → option_map S.content (ticket_of objects.now fetched.now.job.object)
        ≡ Some fetched.now.bytes }
{
    let job = &fetched.job;
    let o = job.object;
    if job.number != objects.number() || o >= objects.count() {
        return false;
    }
    let Pointer::Remote = objects.word(o).read() else {
        return false;
    };
    objects.leavings(o) == job.leavings && is_under(objects, store, o, &job.ticket)
}
