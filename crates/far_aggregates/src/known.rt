// Live extrema that cache the min-max of rows without a key.
ghost use Rattle.std.specs.Prelude.{◌≡◌, ◌≢◌, ◌-◌, ◌<◌, [], None, Some, Err, OnOk, OnErr, IfOk, IfErr, IfSome, IsTrue, ℤ, ◌≤ℤ◌, length, slice_get, slice_set};
ghost use Rattle.std.specs.FinMap as fin;
ghost use Rattle.far_types.specs.Effects.{min_max_with, with_observed};
ghost use Rattle.far_extrema.specs.Live.{all_groups, group_at};
ghost use Rattle.far_aggregates.specs.Known.{IsNoted};

use far_extrema::{GroupExtrema, LiveExtrema, MinMax, RowsLeft};
use far_types::{Answer, Key, Refusal};
use std::alloc::{AllocError, Global};
use std::marker::Model;

/// Live extrema with a cache for aggregates without a key column: the min-max under no key of the first row groups, which then
/// needs no look-up. Contracts see the model of `LiveExtrema`, and not the cache.
#[derive(Drop)]
pub struct KnownExtrema {
    live: LiveExtrema,
    plain: Vec<Option<MinMax>>,
}

impl Model for KnownExtrema {
    ghost use Rattle.far_extrema.specs.Live.{ExtremaState, coded_extrema_state};
    ghost use Rattle.far_aggregates.specs.Known.{AreKnown};

    ghost Value = { ExtremaState };

    ghost coded = { coded_extrema_state };

    ghost view = { λ known. known.live };

    ghost invariant = { λ known. AreKnown known.plain.items known.live.groups };
}

/// Reserves capacity to cache the min-max of a row group, if it is the next row group after those in the cache. If the
/// allocation fails, nothing is cached.
fn make_place(plain: &mut Vec<Option<MinMax>>, group: usize)
    ensures { plain.new.items ≡ plain.old.items }
{
    if group == plain.len() {
        let _made = plain.reserve(1).is_ok();
    }
}

/// Caches the min-max under no key of a row group, or `None` if it is not known. Ignores a row group for which the cache has no
/// capacity. Allocates nothing.
fn note(plain: &mut Vec<Option<MinMax>>, group: usize, min_max: Option<MinMax>)
    ensures { IsNoted plain.old.items group min_max plain.new.items }
{
    if group < plain.len() {
        plain[group] = min_max;
    } else if group == plain.len() && group < plain.capacity() {
        plain.push_reserved(min_max);
    }
}

/// Returns the cached min-max of a row group, if there is one. The min-max is built anew from its parts, so that its numbers are
/// passed in registers.
#[inline(always)]
fn noted_in(plain: &[Option<MinMax>], group: usize) -> Option<MinMax>
    ensures { IfSome result (λ min_max. slice_get plain.now group ≡ Some (Some min_max)) }
{
    match plain.get(group) {
        Some(Some(min_max)) => Some(MinMax {
            min: min_max.min,
            max: min_max.max,
        }),
        _ => None,
    }
}

/// Returns whether there is a min-max and a value is within it.
#[inline(always)]
fn is_within_noted(value: i64, min_max: &Option<MinMax>) -> bool
    ensures { IsTrue result
        → (s : ℤ × ℤ) × (min_max.now ≡ Some s)
        × (s.0 ≤ℤ value)
        × (value ≤ℤ s.1) }
{
    match min_max {
        Some(min_max) => min_max.is_within(value),
        None => false,
    }
}

/// Observes the value of a row under no key. Returns the previous min-max of the row group, which is cached or looked up.
fn observe_noted(
    live: &mut LiveExtrema,
    group: u32,
    value: i64,
    noted: Option<MinMax>,
) -> Result<Option<MinMax>, AllocError>
    requires reserved { group < length live.old.groups }
    requires noted { IfSome noted
        (λ min_max. fin.get (group_at live.old.groups group) None ≡ Some min_max) }
    ensures previous { IfOk result
        (λ previous. previous ≡ fin.get (group_at live.old.groups group) None) }
    ensures ok { OnOk result
        (live.new
        ≡ record live.old {
          groups = slice_set live.old.groups group
              (with_observed (group_at live.old.groups group) (None, value));
        }) }
    ensures err { OnErr result (live.new ≡ live.old) }
    ensures only_new { OnErr result (fin.get (group_at live.old.groups group) None ≡ None) }
{
    match noted {
        Some(min_max) => {
            live.observe_over(group, &None, value, min_max);
            Ok(Some(min_max))
        }
        None => live.observe_under(group, &None, value),
    }
}

/// Widens a min-max, if there is one, to include one more value.
#[inline(always)]
fn wider(value: i64, previous: &Option<MinMax>) -> MinMax
    ensures { result ≡ min_max_with value previous.now }
{
    match previous {
        Some(min_max) => min_max.with(value),
        None => MinMax::of(value),
    }
}

impl KnownExtrema {
    ghost use Rattle.far_types.specs.Answers.{lines_by_key};
    ghost use Rattle.far_extrema.specs.Live.{after_reserve, IsReservedFor};
    ghost use Rattle.far_extrema.specs.MinMaxes.{put_min_max};

    /// Makes extrema without a row, in which `left` row groups are pending. See `LiveExtrema::new`.
    pub fn new(alloc: Global, left: u32) -> KnownExtrema
        ensures left { result.left ≡ left }
        ensures empty { result.groups ≡ [] }
    {
        KnownExtrema {
            live: LiveExtrema::new(alloc, left),
            plain: Vec::new(alloc),
        }
    }

    /// Reserves the row groups up to this one. See `LiveExtrema::make_room`.
    pub fn reserve(&mut self, group: u32)
        ensures { self.new ≡ record self.old { groups = after_reserve group self.old.groups } }
    {
        self.live.make_room(group);
    }

    /// Reserves a row group and the keys of its extrema. See `LiveExtrema::reserve_for`.
    pub fn reserve_for(&mut self, group: u32, extrema: &GroupExtrema) -> Result<(), AllocError>
        ensures left { self.new.left ≡ self.old.left }
        ensures groups { OnOk result (self.new.groups ≡ after_reserve group self.old.groups) }
        ensures reserved { OnOk result (IsReservedFor extrema.now self.new) }
        ensures err { OnErr result (self.new.groups ≡ self.old.groups) }
    {
        make_place(&mut self.plain, group as usize);
        self.live.reserve_for(group, extrema)
    }

    /// Observes a value like `observe_under`, for a row under no key. If the min-max is cached, a value within it costs no
    /// look-up, and nothing is written.
    fn observe_plain(&mut self, group: u32, value: i64) -> Result<Option<MinMax>, AllocError>
        requires { group < length self.old.groups }
        ensures previous { IfOk result
            (λ previous. previous ≡ fin.get (group_at self.old.groups group) None) }
        ensures ok { OnOk result
            (self.new
            ≡ record self.old {
              groups = slice_set self.old.groups group
                  (with_observed (group_at self.old.groups group) (None, value));
            }) }
        ensures err { OnErr result (self.new ≡ self.old) }
        ensures only_new { OnErr result (fin.get (group_at self.old.groups group) None ≡ None) }
    {
        let noted = noted_in(self.plain.as_slice(), group as usize);
        if is_within_noted(value, &noted) {
            return Ok(noted);
        }
        make_place(&mut self.plain, group as usize);
        let previous = observe_noted(&mut self.live, group, value, noted)?;
        note(
            &mut self.plain,
            group as usize,
            Some(wider(value, &previous)),
        );
        Ok(previous)
    }

    /// Observes a value under a key of a row group. See `LiveExtrema::observe_under`.
    #[inline(always)]
    pub fn observe_under(
        &mut self,
        group: u32,
        key: &Option<Key>,
        value: i64,
    ) -> Result<Option<MinMax>, AllocError>
        requires { group < length self.old.groups }
        ensures previous { IfOk result
            (λ previous. previous ≡ fin.get (group_at self.old.groups group) key.now) }
        ensures ok { OnOk result
            (self.new
            ≡ record self.old {
              groups = slice_set self.old.groups group
                  (with_observed (group_at self.old.groups group) (key.now, value));
            }) }
        ensures err { OnErr result (self.new ≡ self.old) }
        ensures only_new { OnErr result
            (fin.get (group_at self.old.groups group) key.now ≡ None) }
    {
        match key {
            None => self.observe_plain(group, value),
            Some(_) => self.live.observe_under(group, key, value),
        }
    }

    /// Replaces the min-max of a key that occurs in a row group. See `LiveExtrema::put_min_max`.
    pub fn put_min_max(&mut self, group: u32, key: &Option<Key>, min_max: &Option<MinMax>)
        requires reserved { group < length self.old.groups }
        requires there { fin.get (group_at self.old.groups group) key.now ≢ None }
        ensures { self.new
            ≡ record self.old {
              groups = slice_set self.old.groups group
                  (put_min_max (group_at self.old.groups group) key.now min_max.now);
            } }
    {
        self.live.put_min_max(group, key, *min_max);
        if key.is_none() {
            note(&mut self.plain, group as usize, *min_max);
        }
    }

    /// Retracts a value like `shrink`, for a row under no key. If the min-max is cached, a value strictly within it costs no
    /// look-up.
    fn shrink_plain<R: RowsLeft>(&mut self, group: u32, value: i64, rows: &R)
        requires reserved { group < length self.old.groups }
        requires at_hand { R.at_hand rows.now }
        requires previous { fin.get (group_at self.old.groups group) None
            ≡ Some (min_max_with value (R.extremes rows.now)) }
        ensures { self.new
            ≡ record self.old {
              groups = slice_set self.old.groups group
                  (put_min_max (group_at self.old.groups group) None (R.extremes rows.now));
            } }
    {
        if let Some(min_max) = noted_in(self.plain.as_slice(), group as usize) {
            if min_max.is_strictly_within(value) {
                return;
            }
        }
        let left = self.live.shrink(group, &None, value, rows);
        note(&mut self.plain, group as usize, left);
    }

    /// Retracts a value under a key of a row group. See `LiveExtrema::shrink`.
    pub fn shrink<R: RowsLeft>(&mut self, group: u32, key: &Option<Key>, value: i64, rows: &R)
        requires reserved { group < length self.old.groups }
        requires at_hand { R.at_hand rows.now }
        requires previous { fin.get (group_at self.old.groups group) key.now
            ≡ Some (min_max_with value (R.extremes rows.now)) }
        ensures { self.new
            ≡ record self.old {
              groups = slice_set self.old.groups group
                  (put_min_max (group_at self.old.groups group) key.now (R.extremes rows.now));
            } }
    {
        match key {
            None => self.shrink_plain(group, value, rows),
            Some(_) => {
                self.live.shrink(group, key, value, rows);
            }
        }
    }

    /// Merges the extrema of a row group that is pending. See `LiveExtrema::merge`.
    pub fn merge(&mut self, group: u32, extrema: GroupExtrema)
        requires reserved { group < length self.old.groups }
        requires keys { IsReservedFor extrema self.old }
        requires new { group_at self.old.groups group ≡ fin.empty }
        requires left { self.old.left ≢ 0 }
        ensures left { self.new.left ≡ self.old.left - 1 }
        ensures groups { self.new.groups ≡ slice_set self.old.groups group extrema }
    {
        let min_max = extrema.min_max(&None);
        self.live.merge(group, extrema);
        note(&mut self.plain, group as usize, min_max);
    }

    /// Returns the answer. See `LiveExtrema::answer`.
    pub fn answer(&self, alloc: Global) -> Result<Answer, Refusal>
        ensures ok { IfOk result
            (λ answer. answer ≡ Answer.Extrema (lines_by_key (all_groups self.now.groups))) }
        ensures all_scanned { OnOk result (self.now.left ≡ 0) }
        ensures building { self.now.left ≢ 0 → result ≡ Err (Refusal.Building self.now.left) }
        ensures memory { self.now.left ≡ 0 → IfErr result (λ e. e ≡ Refusal.NoMemory) }
    {
        self.live.answer(alloc)
    }

    /// Returns how many row groups are pending. See `LiveExtrema::left`.
    pub fn left(&self) -> u32
        ensures { result ≡ self.now.left }
    {
        self.live.left()
    }

    /// Returns the min-max of a key over all row groups. See `LiveExtrema::get`.
    pub fn get(&self, key: &Option<Key>) -> Option<MinMax>
        ensures { result ≡ fin.get (all_groups self.now.groups) key.now }
    {
        self.live.get(key)
    }
}
