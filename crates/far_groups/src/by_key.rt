// Counts and sums by key, in one of five forms. Mostly there is only the one key of an aggregate without key column, or all keys are
// texts, or small numbers.
ghost use Rattle.std.specs.Prelude.{ℕ, ◌≡◌, ◌+◌, ◌^◌, ◌≤◌, ◌<◌, ◌∷◌, [], pos, None, Some, unwrap_or, IsSome, IfSome, IfNone, IfOk, OnOk, OnErr};
ghost use Rattle.std.specs.FinMap as fin;
ghost use Rattle.far_types.specs.declared.key.Key.TheVariants as key_of;
ghost use Rattle.far_types.specs.Answers.{lines_by_key};
ghost use Rattle.far_types.specs.Effects.{count_in};
ghost use Rattle.far_groups.specs.Live.{CanRetract, with_replaced};
ghost use Rattle.far_groups.specs.CountSums.{totals_of, IsCountSum, AreCountSums, with_count_sum, LeavesCountSum, without_count_sum};
ghost use Rattle.far_groups.specs.KeyTree.{by_kind, by_number};
ghost use Rattle.far_groups.specs.Dense.{place_key, by_place};
ghost use Rattle.far_groups.specs.ByKey.{plain_totals, in_form, totals_in, MayBeElsewhere};

mod joining;

use super::count_sum::{CountSum, NO_VALUES};
use super::count_sums::{self, CountSums};
use super::dense::{self, Dense, dense_of, may_place, numbers_of, place_of, places_for};
use super::key_tree::{self, Numbers, Texts, Tree, keyed};
use super::tree_key::TreeKey;
use far_types::{Key, Text};
pub use joining::join;
use std::alloc::{AllocError, Global};
use std::collections::BTreeMap;

/// The form in which counts and sums are kept by key.
#[derive(Drop)]
enum Form {
    /// One count and sum, under no key, as in an aggregate without key column. The count is not 0.
    Plain(CountSum),
    /// A list by number, in which a look-up is an index.
    Dense(Dense),
    /// A tree of bare numbers. A look-up takes a third of the time that it takes in a tree of keys.
    Numbered(Numbers),
    /// A tree of bare texts. A look-up compares the texts themselves: it does not look which kind of key each one is.
    Texts(Texts),
    /// A tree of keys.
    Keyed(CountSums),
}

/// Counts and sums by key. They begin as an empty list:
/// - A row under no key replaces the empty list. Its count and sum change without a look-up.
/// - A text replaces the empty list by a tree of texts.
/// - A number without a place in the list moves everything into a tree of numbers.
/// - A tree of many numbers that are close together becomes a list again (`settle`).
/// - Any other key without a place in a form moves everything into a tree of keys, for good.
#[derive(Drop)]
pub struct ByKey {
    alloc: Global,
    form: Form,
    /// How many numbers a tree needs before it may become a list: twice as many as the last time. So moving them back and forth takes
    /// constant time per number, on average.
    many: usize,
}

/// A tree needs this many numbers to become a list for the first time. Smaller trees are as good as lists.
const MANY: usize = 512;

/// A tree tries to become a list only when its length is a multiple of this.
const ASK_EACH: usize = 64;

/// Makes empty counts and sums: no key has any. Allocates nothing.
pub fn nothing(alloc: Global) -> ByKey
    ensures empty { totals_in result ≡ fin.empty }
{
    ByKey {
        alloc,
        form: Form::Dense(Vec::new(alloc)),
        many: MANY,
    }
}

/// Returns the place of a key that is a number, or `None` for any other key.
#[inline(always)]
fn place_in(key: &Option<Key>) -> Option<usize>
    ensures some { IfSome result (λ place. key.now ≡ place_key place) }
    ensures none { IfNone result ((place : ℕ) → key.now ≡ place_key place → ⊥) }
{
    match key {
        Some(Key::Int(number)) => Some(place_of(*number)),
        _ => None,
    }
}

/// Moves the count and the sum under no key into a tree of keys.
fn keyed_plain(alloc: Global, count_sum: CountSum) -> Result<CountSums, AllocError>
    ensures ok { IfOk result (λ keys. totals_of keys.entries ≡ plain_totals count_sum) }
{
    let mut keys = BTreeMap::new(alloc);
    keys.insert(None, count_sum)?;
    Ok(keys)
}

/// Moves the count and the sum under no key into a tree of keys, and adds a count and a sum under another key.
fn plain_with_key(
    alloc: Global,
    count_sum: CountSum,
    key: &Option<Key>,
    more: CountSum,
) -> Result<CountSums, AllocError>
    requires valid_sums { AreCountSums (plain_totals count_sum) }
    requires more_valid_sums { IsCountSum more }
    requires capacity { count_in (fin.get (plain_totals count_sum) key.now) + more.0 ≤ 2 ^ 26 }
    requires other { IsSome key.now }
    ensures ok { IfOk result
        (λ keys. totals_of keys.entries ≡ with_count_sum (plain_totals count_sum) key.now more) }
    ensures valid_sums { IfOk result (λ keys. AreCountSums (totals_of keys.entries)) }
    ensures new { fin.get (plain_totals count_sum) key.now ≡ None }
{
    let mut keys = keyed_plain(alloc, count_sum)?;
    count_sums::add_under(&mut keys, key, more)?;
    Ok(keys)
}

/// Moves counts and sums into a tree of keys, and adds a count and a sum under a key of another kind.
fn with_key<K: TreeKey>(
    alloc: Global,
    tree: &Tree<K>,
    key: &Option<Key>,
    more: CountSum,
) -> Result<Form, AllocError>
    requires valid_sums { AreCountSums (by_kind K.as_key tree.now.entries) }
    requires more_valid_sums { IsCountSum more }
    requires other { (own : K) → key.now ≡ Some (K.as_key own) → ⊥ }
    ensures ok { IfOk result
        (λ form. in_form form ≡ with_count_sum (by_kind K.as_key tree.now.entries) key.now more) }
    ensures valid_sums { IfOk result (λ form. AreCountSums (in_form form)) }
    ensures new { fin.get (by_kind K.as_key tree.now.entries) key.now ≡ None }
{
    let mut keys = keyed(alloc, tree)?;
    count_sums::add_under(&mut keys, key, more)?;
    Ok(Form::Keyed(keys))
}

/// Adds a count and a sum under a key to counts and sums by number. Returns a tree of numbers, or a tree of keys for any other key.
fn in_tree(
    alloc: Global,
    mut numbers: Numbers,
    key: &Option<Key>,
    more: CountSum,
) -> Result<Form, AllocError>
    requires valid_sums { AreCountSums (by_number numbers.entries) }
    requires more_valid_sums { IsCountSum more }
    requires capacity { count_in (fin.get (by_number numbers.entries) key.now) + more.0 ≤ 2 ^ 26 }
    ensures ok { IfOk result
        (λ form. in_form form ≡ with_count_sum (by_number numbers.entries) key.now more) }
    ensures valid_sums { IfOk result (λ form. AreCountSums (in_form form)) }
{
    match i64::of(key) {
        Some(number) => {
            key_tree::add_under(&mut numbers, number, more)?;
            Ok(Form::Numbered(numbers))
        }
        None => with_key(alloc, &numbers, key, more),
    }
}

/// Makes a tree of texts of a count and a sum under a text.
fn one_text(alloc: Global, text: &Text, more: CountSum) -> Result<Form, AllocError>
    requires { IsCountSum more }
    ensures ok { IfOk result
        (λ form. in_form form ≡ with_count_sum fin.empty (Some (key_of.Text text.now)) more) }
    ensures valid_sums { IfOk result (λ form. AreCountSums (in_form form)) }
{
    let mut texts = BTreeMap::new(alloc);
    key_tree::add_under(&mut texts, text, more)?;
    Ok(Form::Texts(texts))
}

/// Adds a count and a sum under a key that has no place in a list, and returns another form. Allocates nothing if the list is empty and
/// there is no key.
fn with_new_key(
    alloc: Global,
    dense: &Dense,
    key: &Option<Key>,
    more: CountSum,
) -> Result<Form, AllocError>
    requires valid_sums { AreCountSums (by_place dense.now.items) }
    requires more_valid_sums { IsCountSum more }
    requires new { fin.get (by_place dense.now.items) key.now ≡ None }
    ensures ok { IfOk result
        (λ form. in_form form ≡ with_count_sum (by_place dense.now.items) key.now more) }
    ensures valid_sums { IfOk result (λ form. AreCountSums (in_form form)) }
{
    if dense.is_empty() {
        match key {
            None => return Ok(Form::Plain(more)),
            Some(Key::Text(text)) => return one_text(alloc, text, more),
            Some(Key::Int(_)) => {}
        }
    }
    in_tree(alloc, numbers_of(alloc, dense)?, key, more)
}

/// Returns the place that a key has in a list or may get in it.
fn place_for(dense: &Dense, key: &Option<Key>) -> Option<usize>
    ensures some { IfSome result (λ place. (key.now ≡ place_key place) × (place < 2 ^ 63)) }
    ensures none { IfNone result (fin.get (by_place dense.now.items) key.now ≡ None) }
{
    match place_in(key) {
        None => None,
        Some(place) => {
            if may_place(dense, place) {
                Some(place)
            } else {
                None
            }
        }
    }
}

/// Adds a count and a sum under a key. If the key is in already, drops the given key.
pub fn add(by_key: &mut ByKey, key: Option<Key>, more: CountSum) -> Result<(), AllocError>
    requires valid_sums { AreCountSums (totals_in by_key.old) }
    requires more_valid_sums { IsCountSum more }
    requires capacity { count_in (fin.get (totals_in by_key.old) key) + more.0 ≤ 2 ^ 26 }
    ensures valid_sums { AreCountSums (totals_in by_key.new) }
    ensures ok { OnOk result
        (totals_in by_key.new ≡ with_count_sum (totals_in by_key.old) key more) }
    ensures err { OnErr result (totals_in by_key.new ≡ totals_in by_key.old) }
    ensures only_new { OnErr result (fin.get (totals_in by_key.old) key ≡ None) }
{
    match &mut by_key.form {
        Form::Keyed(keys) => count_sums::add(keys, key, more),
        Form::Texts(texts) => match key {
            Some(Key::Text(text)) => key_tree::add(texts, text, more),
            key => add_under(by_key, &key, more),
        },
        _ => add_under(by_key, &key, more),
    }
}

/// Adds a count and a sum under a key. Clones the key if it is new.
#[inline(always)]
pub fn add_under(by_key: &mut ByKey, key: &Option<Key>, more: CountSum) -> Result<(), AllocError>
    requires valid_sums { AreCountSums (totals_in by_key.old) }
    requires more_valid_sums { IsCountSum more }
    requires capacity { count_in (fin.get (totals_in by_key.old) key.now) + more.0 ≤ 2 ^ 26 }
    ensures valid_sums { AreCountSums (totals_in by_key.new) }
    ensures ok { OnOk result
        (totals_in by_key.new ≡ with_count_sum (totals_in by_key.old) key.now more) }
    ensures err { OnErr result (totals_in by_key.new ≡ totals_in by_key.old) }
    ensures only_new { OnErr result (fin.get (totals_in by_key.old) key.now ≡ None) }
{
    match &mut by_key.form {
        Form::Plain(count_sum) => match key {
            None => {
                *count_sum = count_sum.merge_two(more);
                Ok(())
            }
            Some(_) => add_elsewhere(by_key, key, more.count, more.sum),
        },
        Form::Dense(dense) => {
            if let Some(place) = place_in(key) {
                if dense::add_existing(dense, place, more) {
                    return Ok(());
                }
            }
            add_elsewhere(by_key, key, more.count, more.sum)
        }
        Form::Numbered(_) => add_elsewhere(by_key, key, more.count, more.sum),
        Form::Texts(_) => add_elsewhere(by_key, key, more.count, more.sum),
        Form::Keyed(_) => add_elsewhere(by_key, key, more.count, more.sum),
    }
}

/// Adds a count and a sum under a key that may have no place yet.
///
/// It is a separate function so that `add_under` stays short. It takes the count and the sum as two numbers, which need no memory.
#[inline(never)]
fn add_elsewhere(
    by_key: &mut ByKey,
    key: &Option<Key>,
    count: u64,
    sum: i128,
) -> Result<(), AllocError>
    requires valid_sums { AreCountSums (totals_in by_key.old) }
    requires more_valid_sums { IsCountSum (count, sum) }
    requires capacity { count_in (fin.get (totals_in by_key.old) key.now) + count ≤ 2 ^ 26 }
    requires elsewhere { MayBeElsewhere by_key.old.form key.now }
    ensures valid_sums { AreCountSums (totals_in by_key.new) }
    ensures ok { OnOk result
        (totals_in by_key.new ≡ with_count_sum (totals_in by_key.old) key.now (count, sum)) }
    ensures err { OnErr result (totals_in by_key.new ≡ totals_in by_key.old) }
    ensures only_new { OnErr result (fin.get (totals_in by_key.old) key.now ≡ None) }
{
    let more = CountSum { count, sum };
    let form = match &mut by_key.form {
        Form::Plain(count_sum) => {
            Form::Keyed(plain_with_key(by_key.alloc, *count_sum, key, more)?)
        }
        Form::Dense(dense) => match place_for(dense, key) {
            Some(place) => return dense::add(dense, place, more),
            None => with_new_key(by_key.alloc, dense, key, more)?,
        },
        Form::Numbered(numbers) => match i64::of(key) {
            Some(number) => {
                let before = numbers.len();
                key_tree::add_under(numbers, number, more)?;
                if numbers.len() != before {
                    settle(by_key);
                }
                return Ok(());
            }
            None => with_key(by_key.alloc, numbers, key, more)?,
        },
        Form::Texts(texts) => match Text::of(key) {
            Some(text) => return key_tree::add_under(texts, text, more),
            None => with_key(by_key.alloc, texts, key, more)?,
        },
        Form::Keyed(keys) => return count_sums::add_under(keys, key, more),
    };
    by_key.form = form;
    Ok(())
}

/// Turns a tree into a list if it has many numbers and they are close together. If memory runs out, it stays a tree.
#[inline(never)]
fn settle(by_key: &mut ByKey)
    requires valid_sums { AreCountSums (totals_in by_key.old) }
    ensures same { totals_in by_key.new ≡ totals_in by_key.old }
    ensures valid_sums { AreCountSums (totals_in by_key.new) }
{
    if let Form::Numbered(numbers) = &by_key.form {
        let len = numbers.len();
        if len >= by_key.many && len % ASK_EACH == 0 {
            if let Some(dense) = listed(by_key.alloc, numbers) {
                by_key.form = Form::Dense(dense);
                by_key.many = len.saturating_mul(2);
            }
        }
    }
}

/// Copies a tree of numbers into a list. Returns `None` if the numbers are too far apart, or if memory runs out.
fn listed(alloc: Global, numbers: &Numbers) -> Option<Dense>
    requires valid_sums { AreCountSums (by_number numbers.now.entries) }
    ensures same { IfSome result
        (λ dense. by_place dense.items ≡ by_number numbers.now.entries) }
{
    match places_for(numbers) {
        Some(places) => match dense_of(alloc, numbers, places) {
            Ok(made) => made,
            Err(_) => None,
        },
        None => None,
    }
}

/// Subtracts a count and a sum under a key. Removes a key whose count is then 0. Allocates nothing.
#[inline(always)]
pub fn take(by_key: &mut ByKey, key: &Option<Key>, less: CountSum)
    requires valid_sums { AreCountSums (totals_in by_key.old) }
    requires there { LeavesCountSum less (fin.get (totals_in by_key.old) key.now) }
    ensures valid_sums { AreCountSums (totals_in by_key.new) }
    ensures less { totals_in by_key.new ≡ without_count_sum (totals_in by_key.old) key.now less }
{
    match &mut by_key.form {
        Form::Plain(count_sum) => {
            let rest = count_sum.subtract(less);
            if rest.count == 0 {
                by_key.form = Form::Dense(Vec::new(by_key.alloc));
            } else {
                *count_sum = rest;
            }
        }
        Form::Dense(dense) => match place_in(key) {
            Some(place) => dense::take(dense, place, less),
            None => {}
        },
        Form::Numbered(numbers) => match i64::of(key) {
            Some(number) => key_tree::take(numbers, number, less),
            None => {}
        },
        Form::Texts(texts) => match Text::of(key) {
            Some(text) => key_tree::take(texts, text, less),
            None => {}
        },
        Form::Keyed(keys) => count_sums::take(keys, key, less),
    }
}

/// Replaces one of the values under a key by another one. Allocates nothing.
#[inline(always)]
pub fn replace(by_key: &mut ByKey, key: &Option<Key>, from: i64, to: i64)
    requires valid_sums { AreCountSums (totals_in by_key.old) }
    requires there { CanRetract from (fin.get (totals_in by_key.old) key.now) }
    ensures valid_sums { AreCountSums (totals_in by_key.new) }
    ensures replaced { totals_in by_key.new
        ≡ with_replaced (totals_in by_key.old) key.now from to }
{
    match &mut by_key.form {
        Form::Plain(count_sum) => *count_sum = count_sum.replace(from, to),
        Form::Dense(dense) => match place_in(key) {
            Some(place) => dense::replace(dense, place, from, to),
            None => {}
        },
        Form::Numbered(numbers) => match i64::of(key) {
            Some(number) => key_tree::replace(numbers, number, from, to),
            None => {}
        },
        Form::Texts(texts) => match Text::of(key) {
            Some(text) => key_tree::replace(texts, text, from, to),
            None => {}
        },
        Form::Keyed(keys) => count_sums::replace(keys, key, from, to),
    }
}

/// Makes the one line of the count and the sum under no key.
fn plain_line(
    alloc: Global,
    count_sum: CountSum,
) -> Result<Vec<(Option<Key>, u64, i128)>, AllocError>
    ensures ok { IfOk result (λ lines. lines.items ≡ (None, count_sum.0, count_sum.1) ∷ []) }
{
    let mut lines = Vec::with_capacity(alloc, 1)?;
    lines.push((None, count_sum.count, count_sum.sum))?;
    Ok(lines)
}

/// Makes an answer's lines, one for each key, ascending.
pub fn lines(alloc: Global, by_key: &ByKey) -> Result<Vec<(Option<Key>, u64, i128)>, AllocError>
    ensures ok { IfOk result (λ lines. lines.items ≡ lines_by_key (totals_in by_key.now)) }
{
    match &by_key.form {
        Form::Plain(count_sum) => plain_line(alloc, *count_sum),
        Form::Dense(dense) => dense::lines(alloc, dense),
        Form::Numbered(numbers) => key_tree::lines(alloc, numbers),
        Form::Texts(texts) => key_tree::lines(alloc, texts),
        Form::Keyed(keys) => count_sums::lines(alloc, keys),
    }
}

/// Returns the count and the sum under no key: 0 and 0 if there are none. Allocates nothing.
pub fn plain(by_key: &ByKey) -> CountSum
    ensures { result ≡ unwrap_or (fin.get (totals_in by_key.now) None) (0, pos 0) }
{
    match &by_key.form {
        Form::Plain(count_sum) => *count_sum,
        Form::Dense(_) => NO_VALUES,
        Form::Numbered(_) => NO_VALUES,
        Form::Texts(_) => NO_VALUES,
        Form::Keyed(keys) => keys.get(&None).copied().unwrap_or(NO_VALUES),
    }
}

/// Returns the count and the sum under a key, or `None` if it has no rows. Costs a look-up. Allocates nothing.
pub fn get(by_key: &ByKey, key: &Option<Key>) -> Option<CountSum>
    ensures { result ≡ fin.get (totals_in by_key.now) key.now }
{
    match &by_key.form {
        Form::Plain(count_sum) => match key {
            None => Some(*count_sum),
            Some(_) => None,
        },
        Form::Dense(dense) => match place_in(key) {
            Some(place) => dense::get(dense, place),
            None => None,
        },
        Form::Numbered(numbers) => match i64::of(key) {
            Some(number) => numbers.get(number).copied(),
            None => None,
        },
        Form::Texts(texts) => match Text::of(key) {
            Some(text) => texts.get(text).copied(),
            None => None,
        },
        Form::Keyed(keys) => keys.get(key).copied(),
    }
}
