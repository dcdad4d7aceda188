// The row groups in which each key occurs, by the kind of key: no key, numbers, and texts.
ghost use Rattle.std.specs.Prelude.{◌≡◌, ◌≢◌, None, Some, OnOk, OnErr, IfOk, Option};
ghost use Rattle.std.specs.List.{AllByRecursion};
ghost use Rattle.far_types.specs.declared.key.Key.{Key};
ghost use Rattle.far_types.specs.Keys.{line_cmp};
ghost use Rattle.far_extrema.specs.MinMaxes.{extrema_of};
ghost use Rattle.far_extrema.specs.Holders.{min_max_at, reserved_at, IsPut, IsObserved, HasWith, IsTopUnder, HaveSameReserved, HaveSameOtherReserved, HaveSameMinMaxes, KeepsReserved, AreReservedFor, IsGroup, AreCleared, AreAlike, IsVacant, IsTopped};
ghost use Rattle.far_extrema.specs.Entries.{plain_entries, lines_of, Adds};

use super::holder::{Holder, clear};
use super::lines::{Lines, add_line};
use super::min_max::MinMax;
use super::min_maxes::MinMaxes;
use super::numbers::Numbers;
use super::rows_left::RowsLeft;
use super::texts::{self, Texts};
use far_types::Key;
use std::alloc::{AllocError, Global};
use std::collections::BTreeMap;
use std::marker::Model;

/// The row groups by key. The holder of no key is a field. A number is an index into a list, or is looked up in a tree of bare numbers.
///
/// Contracts see the holding of each key.
#[derive(Drop)]
pub struct Holders {
    plain: Option<Holder>,
    numbers: Numbers,
    texts: Texts,
}

impl Model for Holders {
    ghost use Rattle.far_types.specs.Answers.{ByKey};
    ghost use Rattle.far_extrema.specs.Holders.{Holding, coded_holders, holders_of};
    ghost use Rattle.far_extrema.specs.Entries.{entries_in};

    ghost Value = { ByKey Holding };

    ghost coded = { coded_holders };

    ghost view = { λ h. holders_of (entries_in h.plain h.numbers h.texts.entries) };
}

/// Removes a row group from the holder of no key. Removes the holder too if it is then vacant. Allocates nothing.
fn clear_plain(plain: &mut Option<Holder>, group: u32)
    ensures { AreCleared group plain.old plain.new }
{
    if let Some(holder) = plain {
        if clear(holder, group) {
            return;
        }
    }
    *plain = None;
}

/// Adds the line for no key, if there is one.
fn add_plain_line(lines: &mut Lines, plain: &Option<Holder>) -> Result<(), AllocError>
    ensures ok { OnOk result (Adds lines.old.items (plain_entries plain.now) lines.new.items) }
    ensures topped { AllByRecursion IsTopped (plain_entries plain.now) }
{
    if let Some(holder) = plain {
        if let Some(top) = holder.top() {
            add_line(lines, None, top)?;
        }
    }
    Ok(())
}

impl Holders {
    ghost use Rattle.std.specs.Borrow.{sem};
    ghost use Rattle.std.specs.Option.{option_copied, option_copied_mut};
    ghost use Rattle.std.specs.List.Sorted.{IsStrictlySortedBy};
    ghost use Rattle.std.specs.FinMap as fin;
    ghost use Rattle.far_extrema.specs.Lending.{lends_holder};

    /// Makes an empty collection: no key has a holder. Allocates nothing.
    pub fn new(alloc: Global) -> Holders
        ensures { result ≡ fin.empty }
    {
        Holders {
            plain: None,
            numbers: Numbers::new(alloc),
            texts: BTreeMap::new(alloc),
        }
    }

    /// Returns the holder of a key, or `None` if there is none.
    #[inline]
    fn find(&self, key: &Option<Key>) -> Option<&Holder>
        ensures { option_copied result ≡ fin.get self.now key.now }
    {
        match key {
            None => self.plain.as_ref(),
            Some(Key::Int(number)) => self.numbers.get(number),
            Some(Key::Text(text)) => self.texts.get(text),
        }
    }

    /// Mutably borrows the holder of a key. Returns `None` if there is none.
    #[inline]
    fn find_mut(&mut self, key: &Option<Key>) -> Option<&mut Holder>
        ensures* writes_back { sem 𝓛 (lends_holder self.entry key.now result) }
        ensures value { option_copied_mut result ≡ fin.get self.old key.now }
    {
        match key {
            None => self.plain.as_mut(),
            Some(Key::Int(number)) => self.numbers.get_mut(number),
            Some(Key::Text(text)) => self.texts.get_mut(text),
        }
    }

    /// Adds or replaces the holder of a key. Clones the key. If memory runs out, the same keys occur as before.
    fn insert(&mut self, key: &Option<Key>, holder: Holder) -> Result<(), AllocError>
        ensures ok { OnOk result (AreAlike (fin.insert self.old key.now holder) self.new) }
        ensures err { OnErr result (AreAlike self.old self.new) }
    {
        match key {
            None => {
                self.plain = Some(holder);
                Ok(())
            }
            Some(Key::Int(number)) => self.numbers.insert(number, holder),
            Some(Key::Text(text)) => texts::put(&mut self.texts, text, holder),
        }
    }

    /// Removes the vacant holder of a key. A vacant holder in a list stays. Allocates nothing.
    fn remove(&mut self, key: &Option<Key>)
        requires { IsVacant (fin.get self.old key.now) }
        ensures { AreAlike (fin.remove self.old key.now) self.new }
    {
        match key {
            None => self.plain = None,
            Some(Key::Int(number)) => self.numbers.remove(number),
            Some(Key::Text(text)) => texts::remove(&mut self.texts, text),
        }
    }

    /// Removes a row group from all keys. Also removes a key without any row group left, unless it is reserved. Allocates nothing.
    pub fn clear(&mut self, group: u32)
        ensures min_maxes { IsGroup self.old group fin.empty self.new }
        ensures reserved { HaveSameReserved self.old self.new }
    {
        clear_plain(&mut self.plain, group);
        self.numbers.clear(group);
        texts::clear_all(&mut self.texts, group);
    }

    /// Returns how many keys occur or are reserved, or `usize::MAX` if there are more.
    fn len(&self) -> usize {
        let keys = self.numbers.len().saturating_add(self.texts.len());
        keys.saturating_add(self.plain.is_some() as usize)
    }

    /// Makes an answer's lines, ascending by key: each has a key and its joined min-max of all row groups. Clones the keys. A key that is
    /// only reserved has no line.
    pub fn lines(&self, alloc: Global) -> Result<Lines, AllocError>
        ensures ok { IfOk result (λ lines. lines.items ≡ lines_of (fin.entries self.now)) }
        ensures ordered { OnOk result (IsStrictlySortedBy line_cmp (fin.keys self.now)) }
        ensures topped { OnOk result (AllByRecursion IsTopped (fin.entries self.now)) }
    {
        let mut lines = Vec::with_capacity(alloc, self.len())?;
        add_plain_line(&mut lines, &self.plain)?;
        self.numbers.add_lines(&mut lines)?;
        texts::add_lines(&mut lines, &self.texts)?;
        Ok(lines)
    }
}

/// Returns the min-max of a key in a row group, or `None` if it does not occur there. Allocates nothing.
pub fn min_max_in(holders: &Holders, group: u32, key: &Option<Key>) -> Option<MinMax>
    ensures { result ≡ min_max_at holders.now group key.now }
{
    match holders.find(key) {
        Some(holder) => holder.min_max(group),
        None => None,
    }
}

/// Observes a value under a key in a row group, with one look-up if the key is known. Clones the key if it is new. Returns the previous
/// min-max there, or `None`.
///
/// Fails only if memory runs out for a key that is new in the row group. Then no min-max and no reserved key is changed.
pub fn observe_in(
    holders: &mut Holders,
    alloc: Global,
    group: u32,
    key: &Option<Key>,
    value: i64,
) -> Result<Option<MinMax>, AllocError>
    ensures previous { IfOk result
        (λ previous. previous ≡ min_max_at holders.old group key.now) }
    ensures ok { OnOk result (IsObserved holders.old group key.now value holders.new) }
    ensures reserved { OnOk result (HaveSameReserved holders.old holders.new) }
    ensures err { OnErr result (AreAlike holders.old holders.new) }
    ensures only_new { OnErr result (min_max_at holders.old group key.now ≡ None) }
{
    match holders.find_mut(key) {
        Some(holder) => holder.observe(alloc, group, value),
        None => {
            holders.insert(key, Holder::new(group, MinMax::of(value)))?;
            Ok(None)
        }
    }
}

/// Sets the min-max of a key in a row group. Allocates nothing.
pub fn set_in(holders: &mut Holders, group: u32, key: &Option<Key>, min_max: MinMax)
    requires { min_max_at holders.old group key.now ≢ None }
    ensures min_maxes { IsPut holders.old group key.now (Some min_max) holders.new }
    ensures reserved { HaveSameReserved holders.old holders.new }
{
    match holders.find_mut(key) {
        Some(holder) => holder.put(group, min_max),
        None => unreachable!(),
    }
}

/// Removes a row group from a key. Also removes the key if it has no row group left, unless it is reserved. Allocates nothing.
pub fn leave_in(holders: &mut Holders, group: u32, key: &Option<Key>)
    requires { min_max_at holders.old group key.now ≢ None }
    ensures min_maxes { IsPut holders.old group key.now None holders.new }
    ensures reserved { HaveSameReserved holders.old holders.new }
{
    match holders.find_mut(key) {
        Some(holder) => {
            holder.leave(group);
            if !holder.is_vacant() {
                return;
            }
        }
        None => unreachable!(),
    }
    holders.remove(key);
}

/// Removes a value under a key in a row group. `rows` are the remaining rows, which it reads only if the value was the least or the
/// greatest. Returns the remaining min-max, or `None`. Allocates nothing.
///
/// Removes the key if it has no row group left, unless it is reserved. One look-up finds the key, and one more removes it.
pub fn shrink_in<R: RowsLeft>(
    holders: &mut Holders,
    group: u32,
    key: &Option<Key>,
    value: i64,
    rows: &R,
) -> Option<MinMax>
    requires at_hand { R.at_hand rows.now }
    requires previous { HasWith holders.old group key.now value (R.extremes rows.now) }
    ensures left { result ≡ R.extremes rows.now }
    ensures min_maxes { IsPut holders.old group key.now (R.extremes rows.now) holders.new }
    ensures reserved { HaveSameReserved holders.old holders.new }
{
    match holders.find_mut(key) {
        Some(holder) => {
            let left = holder.shrink(group, value, rows);
            if !holder.is_vacant() {
                return left;
            }
        }
        None => unreachable!(),
    }
    holders.remove(key);
    None
}

/// Reserves memory for one more row group of a key.
fn reserve_in(holders: &mut Holders, alloc: Global, key: &Option<Key>) -> Result<(), AllocError>
    ensures min_maxes { HaveSameMinMaxes holders.old holders.new }
    ensures kept { KeepsReserved holders.old holders.new }
    ensures reserved { OnOk result (reserved_at holders.new key.now ≢ None) }
{
    match holders.find_mut(key) {
        Some(holder) => holder.reserve(alloc),
        None => {
            holders.insert(key, Holder::with_place())?;
            Ok(())
        }
    }
}

/// Reserves memory for one more row group of each of these keys. If memory runs out, some may be reserved.
pub fn reserve_all(
    holders: &mut Holders,
    alloc: Global,
    min_maxes: &MinMaxes,
) -> Result<(), AllocError>
    ensures min_maxes { HaveSameMinMaxes holders.old holders.new }
    ensures reserved { OnOk result (AreReservedFor (extrema_of min_maxes.now.entries) holders.new) }
{
    for (key, _) in min_maxes {
        reserve_in(holders, alloc, key)?;
    }
    Ok(())
}

/// Adds a row group to a reserved key. Allocates nothing.
fn fill_in(holders: &mut Holders, group: u32, key: &Option<Key>, min_max: MinMax)
    requires reserved { reserved_at holders.old key.now ≢ None }
    requires new { min_max_at holders.old group key.now ≡ None }
    ensures min_maxes { IsPut holders.old group key.now (Some min_max) holders.new }
    ensures reserved { HaveSameOtherReserved holders.old key.now holders.new }
{
    match holders.find_mut(key) {
        Some(holder) => holder.fill(group, min_max),
        None => unreachable!(),
    }
}

/// Sets the min-maxes of a row group in which no key occurs yet. Each key of them must be reserved. Allocates nothing.
pub fn fill_all(holders: &mut Holders, group: u32, min_maxes: &MinMaxes)
    requires reserved { AreReservedFor (extrema_of min_maxes.now.entries) holders.old }
    requires new { (q : Option Key) → min_max_at holders.old group q ≡ None }
    ensures { IsGroup holders.old group (extrema_of min_maxes.now.entries) holders.new }
{
    for (key, min_max) in min_maxes {
        fill_in(holders, group, key, *min_max);
    }
}

/// Returns the joined min-max of a key over all row groups, or `None` if it occurs in none. Allocates nothing.
pub fn top_under(holders: &Holders, key: &Option<Key>) -> Option<MinMax>
    ensures { IsTopUnder holders.now key.now result }
{
    match holders.find(key) {
        Some(holder) => holder.top(),
        None => None,
    }
}
