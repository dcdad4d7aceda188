// A caller that writes through a borrow of an object's list.
ghost use Rattle.std.specs.Prelude.{◌<◌, ℕ, List, length};
ghost use Rattle.far_scopes.specs.Movement.{AreClean, AreHere};

use crate::fixtures::Element;
use far_scopes::Objects;
use far_store::FarStore;
use far_types::Refusal;

/// Overwrites an object's list by one of the same length. If the lengths differ, only marks the object as written. Refused
/// as `may_write` is.
pub fn write_over<T: Element, S: FarStore>(
    objects: &mut Objects<T, S>,
    o: u32,
    list: &[T],
) -> Result<(), Refusal>
    requires within { o < length objects.old.records }
    ensures clean { AreClean T.meaning S.content objects.old → AreClean T.meaning S.content objects.new }
    ensures store { (id : List ℕ) → AreHere S.is_of id objects.old → AreHere S.is_of id objects.new }
{
    objects.may_write(o)?;
    let lent = objects.lend_mut(o);
    if lent.len() == list.len() {
        lent.copy_from_slice(list);
    }
    Ok(())
}
