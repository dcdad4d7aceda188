// Checks that a list of offsets has exactly the offsets of a segment's parts.
ghost use Rattle.std.specs.Prelude.{◌≢◌, ◌<◌, ℕ, AllPairs, All, IsSome, IsTrue, Contains};
ghost use Rattle.far_log.specs.RegionState.{segment_of, list_at};
ghost use Rattle.far_log.specs.Effects.{IsOrder};

use far_codec::Elem;
use far_log::Region;
use far_pointer::At;

/// Returns whether no number occurs twice in a list.
fn are_distinct(order: &[u32]) -> bool
    ensures { IsTrue result → AllPairs (λ offset other. offset ≢ other) order.now }
{
    for i in 0..order.len() {
        if order[i + 1..].contains(&order[i]) {
            return false;
        }
    }
    true
}

/// Returns whether a part begins at each of the offsets.
fn are_parts<T: Elem>(region: &Region<T>, segment: u16, order: &[u32]) -> bool
    ensures { IsTrue result
        → All (λ offset. IsSome (list_at (segment_of region.now segment).parts offset)) order.now }
{
    for offset in order {
        if !region.holds(At {
            segment,
            offset: *offset,
        }) {
            return false;
        }
    }
    true
}

/// Returns whether the list has each part that begins below `end`.
fn are_all<T: Elem>(region: &Region<T>, segment: u16, end: u32, order: &[u32]) -> bool
    ensures { IsTrue result → (offset : ℕ) → offset < end
        → IsSome (list_at (segment_of region.now segment).parts offset)
        → Contains order.now offset }
{
    for offset in 0..end {
        if region.holds(At { segment, offset }) && !order.contains(&offset) {
            return false;
        }
    }
    true
}

/// Returns whether the list has the offset of each part of a segment exactly once.
pub fn is_order<T: Elem>(region: &Region<T>, segment: u16, order: &[u32]) -> bool
    ensures { IsTrue result → IsOrder (segment_of region.now segment).parts order.now }
{
    if !are_distinct(order) {
        return false;
    }
    if !are_parts(region, segment, order) {
        return false;
    }
    are_all(region, segment, region.size(), order)
}
