// The row groups by number, in a list with a place for each number from 0 on. A look-up is an index.
ghost use Rattle.std.specs.Prelude.{◌≡◌, ◌≤◌, ◌<◌, Some, pos, length, slice_get, OnOk, OnErr};
ghost use Rattle.std.specs.Option.{option_copied};
ghost use Rattle.std.specs.List.{AllByRecursion};
ghost use Rattle.far_extrema.specs.Holders.{IsTopped};
ghost use Rattle.far_extrema.specs.Entries.{Adds};
ghost use Rattle.far_extrema.specs.Numbers.{of_places, IsPlacePut, ArePlacesLike, ArePlacesCleared};

use super::holder::Holder;
use super::lines::{Lines, add_line};
use far_types::Key;
use std::alloc::AllocError;

/// The row groups of the numbers from 0 on. A number that does not occur has a vacant holder.
pub type Dense = Vec<Holder>;

/// Returns the holder at a place, or `None` if the list has no such place.
#[inline(always)]
pub fn get(dense: &Dense, place: usize) -> Option<&Holder>
    ensures { option_copied result ≡ slice_get dense.now.items place }
{
    if place < dense.len() {
        return Some(&dense[place]);
    }
    None
}

/// Extends a list to at least `len` places. The new places are vacant. If memory runs out, it may have some new places.
fn grow(dense: &mut Dense, len: usize) -> Result<(), AllocError>
    requires { len ≤ 2048 }
    ensures same { ArePlacesLike dense.old.items dense.new.items }
    ensures few { length dense.old.items ≤ 2048 → length dense.new.items ≤ 2048 }
    ensures len { OnOk result (len ≤ length dense.new.items) }
{
    for _place in dense.len()..len {
        dense.push(Holder::vacant())?;
    }
    Ok(())
}

/// Puts a holder at a place. Extends the list if the place is new. If memory runs out, the same numbers occur as before.
pub fn put(dense: &mut Dense, place: usize, holder: Holder) -> Result<(), AllocError>
    requires { place < 2048 }
    ensures ok { OnOk result (IsPlacePut dense.old.items place holder dense.new.items) }
    ensures err { OnErr result (ArePlacesLike dense.old.items dense.new.items) }
    ensures few { length dense.old.items ≤ 2048 → length dense.new.items ≤ 2048 }
{
    grow(dense, place + 1)?;
    dense[place] = holder;
    Ok(())
}

/// Removes a row group from all places. Allocates nothing.
pub fn clear_all(dense: &mut Dense, group: u32)
    ensures cleared { ArePlacesCleared group dense.old.items dense.new.items }
    ensures len { length dense.new.items ≡ length dense.old.items }
{
    for place in 0..dense.len() {
        dense[place].clear(group);
    }
}

/// Returns how many places have a holder that is not vacant.
pub fn count_of(dense: &Dense) -> usize
    ensures { result ≤ length dense.now.items }
{
    let mut count = 0;
    for place in 0..dense.len() {
        if !dense[place].is_vacant() {
            count += 1;
        }
    }
    count
}

/// Returns the number of a place as a key.
fn key_at(place: usize) -> Option<Key>
    requires { place < 2048 }
    ensures { result ≡ Some (Key.Int (pos place)) }
{
    Some(Key::Int(place as i64))
}

/// Adds the lines of the numbers that occur, ascending.
pub fn add_lines(lines: &mut Lines, dense: &Dense) -> Result<(), AllocError>
    requires { length dense.now.items ≤ 2048 }
    ensures ok { OnOk result (Adds lines.old.items (of_places dense.now.items) lines.new.items) }
    ensures topped { OnOk result (AllByRecursion IsTopped (of_places dense.now.items)) }
{
    for place in 0..dense.len() {
        if let Some(top) = dense[place].top() {
            add_line(lines, key_at(place), top)?;
        }
    }
    Ok(())
}
