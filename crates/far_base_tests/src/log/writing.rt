// A caller that writes to the parts that it borrows.
ghost use Rattle.std.specs.Prelude.{◌<◌, IsSomeAnd, length, Some, slice_set};
ghost use Rattle.far_log.specs.RegionState.{part_of};
ghost use Rattle.far_log.specs.Effects.{ChangesOnly};

use far_codec::Elem;
use far_log::Region;
use far_pointer::At;

/// Overwrites the first element of a part.
fn set_first<T: Elem>(region: &mut Region<T>, at: At, value: T)
    requires { IsSomeAnd (part_of region.old at) (λ list. 0 < length list) }
    ensures { IsSomeAnd (part_of region.old at)
        (λ list. ChangesOnly region.old region.new at (Some (slice_set list 0 value))) }
{
    let list = region.part_mut(at);
    list[0] = value;
}

/// Overwrites the first element of the part that begins at this spot, and returns whether there was one.
pub fn write_first<T: Elem>(region: &mut Region<T>, at: At, value: T) -> bool {
    if !region.holds(at) || region.part(at).is_empty() {
        return false;
    }
    set_first(region, at, value);
    true
}
