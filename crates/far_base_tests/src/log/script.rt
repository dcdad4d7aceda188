// Scripts of calls on a region of numbers.
use crate::log::order::is_order;
use crate::log::writing::write_first;
use far_codec::Elem;
use far_log::Region;
use far_pointer::At;
use far_types::Refusal;
use std::alloc::Global;

/// A segment, and an offset in it.
pub type Spot = (u16, u32);

/// A call with its expected reply.
#[derive(Clone, Copy)]
pub enum Line {
    /// Places a list, which goes to this spot.
    Place(&'static [i64], Spot),
    /// Places a list, for which the region is full.
    IsFull(&'static [i64]),
    /// Drops the part at this spot.
    Drop(Spot),
    /// The part at this spot has these elements.
    Has(Spot, &'static [i64]),
    /// Asks whether a list of this length fits.
    Fits(usize, bool),
    /// Overwrites the first element of the part at this spot.
    WriteFirst(Spot, i64),
    /// Compacts a segment whose parts begin at these offsets: they move to another segment, at these offsets, or the call
    /// is refused.
    Compact(u16, &'static [u32], Result<(u16, &'static [u32]), Refusal>),
}

fn place_of((segment, offset): Spot) -> At {
    At { segment, offset }
}

/// Returns whether a part begins at this spot and has these elements.
fn has_part<T: Elem + PartialEq>(region: &Region<T>, at: At, list: &[T]) -> bool {
    if !region.holds(at) {
        return false;
    }
    let part = region.part(at);
    part == list && region.part_long(at, part.len()) == list
}

/// Drops the part that begins at this spot, and returns whether there was one.
fn drop_part<T: Elem>(region: &mut Region<T>, at: At) -> bool {
    if !region.holds(at) {
        return false;
    }
    region.drop_at(at);
    true
}

/// Returns whether a list is not empty and placing it gets the expected reply.
fn goes_to(region: &mut Region<i64>, list: &[i64], wanted: Result<At, Refusal>) -> bool {
    !list.is_empty() && region.place(list) == wanted
}

/// Returns whether compacting a segment whose parts begin at these offsets gets the expected reply.
fn compacts(
    alloc: Global,
    region: &mut Region<i64>,
    from: u16,
    order: &[u32],
    wanted: Result<(u16, &[u32]), Refusal>,
) -> bool {
    if !is_order(region, from, order) {
        return false;
    }
    match region.compact(alloc, u32::from(from), order) {
        Ok(moved) => wanted == Ok((moved.segment, moved.offsets.as_slice())),
        Err(refusal) => wanted == Err(refusal),
    }
}

impl Line {
    /// Returns whether the region returns the expected reply to a call.
    fn holds(self, alloc: Global, region: &mut Region<i64>) -> bool {
        match self {
            Line::Place(list, spot) => goes_to(region, list, Ok(place_of(spot))),
            Line::IsFull(list) => goes_to(region, list, Err(Refusal::RegionFull)),
            Line::Drop(spot) => drop_part(region, place_of(spot)),
            Line::Has(spot, list) => has_part(region, place_of(spot), list),
            Line::Fits(len, fits) => region.fits(len) == fits,
            Line::WriteFirst(spot, value) => write_first(region, place_of(spot), value),
            Line::Compact(from, order, wanted) => compacts(alloc, region, from, order, wanted),
        }
    }
}

fn plays(alloc: Global, region: &mut Region<i64>, lines: &[Line]) -> bool {
    for line in lines {
        if !line.holds(alloc, region) {
            return false;
        }
    }
    true
}

/// A region that is made for a case, and the script for it.
#[derive(Clone, Copy)]
pub struct Case {
    pub name: &'static str,
    pub segments: u16,
    /// The size of each segment, in numbers.
    pub size: u32,
    pub lines: &'static [Line],
}

impl Case {
    /// Returns whether the region returns the expected reply to each call.
    pub fn is_right(&self, alloc: Global) -> Result<bool, Refusal> {
        let mut region = Region::new(alloc, u32::from(self.segments), self.size)?;
        Ok(plays(alloc, &mut region, self.lines))
    }
}
