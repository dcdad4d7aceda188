// Counts and sums by number, in a list with a place for each number, from 0 outwards. A look-up is an index. The numbers are small, or so
// many that the list takes little more memory than a tree.
ghost use Rattle.std.specs.Prelude.{◌≡◌, ◌+◌, ◌*◌, ◌^◌, ◌≤◌, ◌<◌, None, false, true, IsTrue, IfSome, IfOk, OnOk, OnErr, length};
ghost use Rattle.std.specs.Option.{option_map_or};
ghost use Rattle.std.specs.FinMap as fin;
ghost use Rattle.far_types.specs.Effects.{add_count_sums, count_in, joined_totals};
ghost use Rattle.far_groups.specs.Live.{CanRetract, CanJoin, with_replaced};
ghost use Rattle.far_groups.specs.CountSums.{IsCountSum, AreCountSums, with_count_sum, LeavesCountSum, without_count_sum};
ghost use Rattle.far_groups.specs.KeyTree.{by_number, number_lines};
ghost use Rattle.far_groups.specs.Dense.{place_number, place_key, standing, by_place, rank_place, in_order};

use super::count_sum::{CountSum, NO_VALUES};
use super::key_tree::{self, Numbers};
use far_types::Key;
use std::alloc::{AllocError, Global};
use std::collections::BTreeMap;

/// Counts and sums of the numbers 0, -1, 1, -2, and so on. A count of 0 says that the number does not occur.
pub type Dense = Vec<CountSum>;

/// A number from -1,024 to 1,023 always gets a place. A list of this many places takes 64 KB.
const PLACES: usize = 2048;

/// A tree of numbers becomes a list if the list has at most this many places for each number. A place takes 32 bytes.
const PLACES_A_NUMBER: usize = 4;

/// A list that was a tree has at most this many places: as many as all rows of a table could need.
const MOST_PLACES: usize = 1 << 28;

/// Returns the place of a number.
#[inline(always)]
pub fn place_of(number: i64) -> usize
    ensures { number ≡ place_number result }
{
    if number < 0 {
        return (-(number + 1)) as usize * 2 + 1;
    }
    number as usize * 2
}

/// Returns the number of a place.
#[inline(always)]
fn number_at(place: usize) -> i64
    requires { place < 2 ^ 63 }
    ensures { result ≡ place_number place }
{
    let half = (place / 2) as i64;
    if place % 2 == 0 { half } else { -half - 1 }
}

/// Returns whether a list has a place or may get it. It may get the first 2,048 places, and those for which it has memory already.
pub fn may_place(dense: &Dense, place: usize) -> bool
    ensures may_not { result ≡ false → length dense.now.items ≤ place }
    ensures fits { IsTrue result → place < 2 ^ 63 }
{
    place < PLACES || place < dense.len() || place < dense.capacity().min(MOST_PLACES)
}

/// Adds a count and a sum to the count and the sum at a place.
#[inline(always)]
fn added(count_sum: CountSum, more: CountSum) -> CountSum
    requires valid_sums { IfSome (standing count_sum) IsCountSum }
    requires more_valid_sums { IsCountSum more }
    requires capacity { count_in (standing count_sum) + more.0 ≤ 2 ^ 26 }
    ensures value { result
        ≡ option_map_or (λ there. add_count_sums there more) (standing count_sum) more }
    ensures valid_sums { IsCountSum result }
{
    if count_sum.count == 0 {
        return more;
    }
    count_sum.merge_two(more)
}

/// Adds a count and a sum at a place, if the list has it. Returns whether it does. Allocates nothing.
#[inline(always)]
pub fn add_existing(dense: &mut Dense, place: usize, more: CountSum) -> bool
    requires valid_sums { AreCountSums (by_place dense.old.items) }
    requires more_valid_sums { IsCountSum more }
    requires capacity { count_in (fin.get (by_place dense.old.items) (place_key place)) + more.0
        ≤ 2 ^ 26 }
    ensures valid_sums { AreCountSums (by_place dense.new.items) }
    ensures there { place < length dense.old.items → result ≡ true }
    ensures added { IsTrue result
        → by_place dense.new.items
        ≡ with_count_sum (by_place dense.old.items) (place_key place) more }
    ensures absent { result ≡ false → dense.new.items ≡ dense.old.items }
    ensures behind { result ≡ false → length dense.old.items ≤ place }
    ensures len { length dense.new.items ≡ length dense.old.items }
{
    if place >= dense.len() {
        return false;
    }
    dense[place] = added(dense[place], more);
    true
}

/// Extends a list to at least `len` places. The new ones have count 0.
fn grow(dense: &mut Dense, len: usize) -> Result<(), AllocError>
    ensures same { by_place dense.new.items ≡ by_place dense.old.items }
    ensures len { OnOk result (len ≤ length dense.new.items) }
{
    for _place in dense.len()..len {
        dense.push(NO_VALUES)?;
    }
    Ok(())
}

/// Adds a count and a sum at a place. Extends the list if the place is new.
pub fn add(dense: &mut Dense, place: usize, more: CountSum) -> Result<(), AllocError>
    requires valid_sums { AreCountSums (by_place dense.old.items) }
    requires more_valid_sums { IsCountSum more }
    requires capacity { count_in (fin.get (by_place dense.old.items) (place_key place)) + more.0
        ≤ 2 ^ 26 }
    requires fits { place < 2 ^ 63 }
    ensures valid_sums { AreCountSums (by_place dense.new.items) }
    ensures ok { OnOk result
        (by_place dense.new.items
        ≡ with_count_sum (by_place dense.old.items) (place_key place) more) }
    ensures err { OnErr result (by_place dense.new.items ≡ by_place dense.old.items) }
    ensures only_new { OnErr result
        (fin.get (by_place dense.old.items) (place_key place) ≡ None) }
{
    if !add_existing(dense, place, more) {
        grow(dense, place + 1)?;
        let _there = add_existing(dense, place, more);
    }
    Ok(())
}

/// Subtracts a count and a sum at a place. Allocates nothing.
#[inline(always)]
pub fn take(dense: &mut Dense, place: usize, less: CountSum)
    requires valid_sums { AreCountSums (by_place dense.old.items) }
    requires there { LeavesCountSum less (fin.get (by_place dense.old.items) (place_key place)) }
    ensures valid_sums { AreCountSums (by_place dense.new.items) }
    ensures less { by_place dense.new.items
        ≡ without_count_sum (by_place dense.old.items) (place_key place) less }
{
    if place < dense.len() {
        dense[place] = dense[place].subtract(less);
    }
}

/// Replaces one of the values at a place by another one. Allocates nothing.
#[inline(always)]
pub fn replace(dense: &mut Dense, place: usize, from: i64, to: i64)
    requires valid_sums { AreCountSums (by_place dense.old.items) }
    requires there { CanRetract from (fin.get (by_place dense.old.items) (place_key place)) }
    ensures valid_sums { AreCountSums (by_place dense.new.items) }
    ensures replaced { by_place dense.new.items
        ≡ with_replaced (by_place dense.old.items) (place_key place) from to }
{
    if place < dense.len() {
        dense[place] = dense[place].replace(from, to);
    }
}

/// Returns the count and the sum at a place, or `None` if the list has no such place or its count is 0. Allocates nothing.
pub fn get(dense: &Dense, place: usize) -> Option<CountSum>
    ensures { result ≡ fin.get (by_place dense.now.items) (place_key place) }
{
    if place >= dense.len() {
        return None;
    }
    let found = dense[place];
    if found.count == 0 {
        return None;
    }
    Some(found)
}

/// Joins another list to this one. Extends this one first: only this step can fail.
pub fn join(dense: &mut Dense, other: &Dense) -> Result<(), AllocError>
    requires valid_sums { AreCountSums (by_place dense.old.items) }
    requires other_valid_sums { AreCountSums (by_place other.now.items) }
    requires can_join { CanJoin (by_place dense.old.items) (by_place other.now.items) }
    ensures valid_sums { AreCountSums (by_place dense.new.items) }
    ensures ok { OnOk result
        (by_place dense.new.items
        ≡ joined_totals (by_place dense.old.items) (by_place other.now.items)) }
    ensures err { OnErr result (by_place dense.new.items ≡ by_place dense.old.items) }
{
    grow(dense, other.len())?;
    for place in 0..other.len() {
        let more = other[place];
        if more.count != 0 {
            let _there = add_existing(dense, place, more);
        }
    }
    Ok(())
}

/// Copies the list into a tree of numbers.
pub fn numbers_of(alloc: Global, dense: &Dense) -> Result<Numbers, AllocError>
    requires { AreCountSums (by_place dense.now.items) }
    ensures ok { IfOk result (λ numbers. by_number numbers.entries ≡ by_place dense.now.items) }
{
    let mut numbers = BTreeMap::new(alloc);
    for place in 0..dense.len() {
        let count_sum = dense[place];
        if count_sum.count != 0 {
            key_tree::add(&mut numbers, number_at(place), count_sum)?;
        }
    }
    Ok(numbers)
}

/// Returns whether an entry's number has one of the first `places` places. Returns `true` if there is no entry.
fn is_within(entry: Option<(&i64, &CountSum)>, places: usize) -> bool {
    match entry {
        Some((number, _)) => place_of(*number) < places,
        None => true,
    }
}

/// Returns how many places a tree of numbers may have as a list, or `None` if that is too few for its numbers.
///
/// It looks only at the least and the greatest number.
pub fn places_for(numbers: &Numbers) -> Option<usize>
    ensures fits { IfSome result (λ places. places ≤ 2 ^ 28) }
{
    let places = numbers.len().min(MOST_PLACES / PLACES_A_NUMBER) * PLACES_A_NUMBER;
    if is_within(numbers.first_key_value(), places) && is_within(numbers.last_key_value(), places) {
        return Some(places);
    }
    None
}

/// Copies a tree of numbers into a list with capacity for `places` places. Returns `None` if a number's place is not one of them.
pub fn dense_of(
    alloc: Global,
    numbers: &Numbers,
    places: usize,
) -> Result<Option<Dense>, AllocError>
    requires valid_sums { AreCountSums (by_number numbers.now.entries) }
    requires fits { places ≤ 2 ^ 28 }
    ensures same { IfOk result
        (λ made. IfSome made (λ dense. by_place dense.items ≡ by_number numbers.now.entries)) }
{
    let mut dense = Vec::with_capacity(alloc, places)?;
    for (number, count_sum) in numbers {
        let place = place_of(*number);
        if place >= places {
            return Ok(None);
        }
        add(&mut dense, place, *count_sum)?;
    }
    Ok(Some(dense))
}

/// Returns how many places have a count above 0.
fn count_of(dense: &Dense) -> usize
    ensures { result ≤ length dense.now.items }
{
    let mut count = 0;
    for place in 0..dense.len() {
        if dense[place].count != 0 {
            count += 1;
        }
    }
    count
}

/// Makes an answer's line for a place.
fn line(place: usize, count_sum: CountSum) -> (Option<Key>, u64, i128)
    requires { place < 2 ^ 63 }
    ensures { result ≡ (place_key place, count_sum.0, count_sum.1) }
{
    (
        Some(Key::Int(number_at(place))),
        count_sum.count,
        count_sum.sum,
    )
}

/// Returns the place of the number at index `rank` in ascending order, if `below` numbers of the list are below 0.
#[inline(always)]
fn place_of_rank(below: usize, rank: usize) -> usize
    requires inside { rank ≤ below * 2 }
    requires few { below * 2 < 2 ^ 63 }
    ensures { result ≡ rank_place below rank }
{
    if rank < below {
        (below - rank) * 2 - 1
    } else {
        (rank - below) * 2
    }
}

/// Makes an answer's lines for the places with a count above 0, ascending by number.
pub fn lines(alloc: Global, dense: &Dense) -> Result<Vec<(Option<Key>, u64, i128)>, AllocError>
    ensures ok { IfOk result (λ lines. lines.items ≡ number_lines (in_order dense.now.items)) }
{
    let mut lines = Vec::with_capacity(alloc, count_of(dense))?;
    let below = dense.len() / 2;
    for rank in 0..dense.len() {
        let place = place_of_rank(below, rank);
        let count_sum = dense[place];
        if count_sum.count != 0 {
            lines.push(line(place, count_sum))?;
        }
    }
    Ok(lines)
}
