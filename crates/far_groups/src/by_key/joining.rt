// Joins counts and sums by key, whatever form each has.
ghost use Rattle.std.specs.Prelude.{◌≡◌, OnOk, OnErr, IfOk};
ghost use Rattle.far_types.specs.Effects.{joined_totals};
ghost use Rattle.far_groups.specs.Live.{CanJoin};
ghost use Rattle.far_groups.specs.CountSums.{totals_of, AreCountSums};
ghost use Rattle.far_groups.specs.KeyTree.{by_number, by_text};
ghost use Rattle.far_groups.specs.Dense.{by_place};
ghost use Rattle.far_groups.specs.ByKey.{totals_in};

use super::{ByKey, Form, add_under, keyed_plain};
use crate::count_sums::CountSums;
use crate::dense::{self, Dense, numbers_of};
use crate::joins::join_all;
use crate::key_tree::{self, Numbers, Texts, keyed};
use std::alloc::{AllocError, Global};
use std::collections::BTreeMap;

/// Joins `more` to a tree of keys, and returns the tree.
fn with_keys(alloc: Global, mut keys: CountSums, more: &CountSums) -> Result<CountSums, AllocError>
    requires valid_sums { AreCountSums (totals_of keys.entries) }
    requires other_valid_sums { AreCountSums (totals_of more.now.entries) }
    requires can_join { CanJoin (totals_of keys.entries) (totals_of more.now.entries) }
    ensures ok { IfOk result
        (λ all. totals_of all.entries
        ≡ joined_totals (totals_of keys.entries) (totals_of more.now.entries)) }
    ensures valid_sums { IfOk result (λ all. AreCountSums (totals_of all.entries)) }
{
    join_all(alloc, &mut keys, more)?;
    Ok(keys)
}

/// Joins a tree of keys to these counts and sums.
fn join_keys(by_key: &mut ByKey, more: &CountSums) -> Result<(), AllocError>
    requires valid_sums { AreCountSums (totals_in by_key.old) }
    requires other_valid_sums { AreCountSums (totals_of more.now.entries) }
    requires can_join { CanJoin (totals_in by_key.old) (totals_of more.now.entries) }
    ensures valid_sums { AreCountSums (totals_in by_key.new) }
    ensures ok { OnOk result
        (totals_in by_key.new
        ≡ joined_totals (totals_in by_key.old) (totals_of more.now.entries)) }
    ensures err { OnErr result (totals_in by_key.new ≡ totals_in by_key.old) }
{
    match &mut by_key.form {
        Form::Plain(count_sum) => {
            let keys = keyed_plain(by_key.alloc, *count_sum)?;
            by_key.form = Form::Keyed(with_keys(by_key.alloc, keys, more)?);
            Ok(())
        }
        Form::Dense(dense) => {
            let numbers = numbers_of(by_key.alloc, dense)?;
            let keys = keyed(by_key.alloc, &numbers)?;
            by_key.form = Form::Keyed(with_keys(by_key.alloc, keys, more)?);
            Ok(())
        }
        Form::Numbered(numbers) => {
            let keys = keyed(by_key.alloc, numbers)?;
            by_key.form = Form::Keyed(with_keys(by_key.alloc, keys, more)?);
            Ok(())
        }
        Form::Texts(texts) => {
            let keys = keyed(by_key.alloc, texts)?;
            by_key.form = Form::Keyed(with_keys(by_key.alloc, keys, more)?);
            Ok(())
        }
        Form::Keyed(keys) => join_all(by_key.alloc, keys, more),
    }
}

/// Joins a tree of numbers to these counts and sums.
fn join_numbers(by_key: &mut ByKey, more: &Numbers) -> Result<(), AllocError>
    requires valid_sums { AreCountSums (totals_in by_key.old) }
    requires other_valid_sums { AreCountSums (by_number more.now.entries) }
    requires can_join { CanJoin (totals_in by_key.old) (by_number more.now.entries) }
    ensures valid_sums { AreCountSums (totals_in by_key.new) }
    ensures ok { OnOk result
        (totals_in by_key.new
        ≡ joined_totals (totals_in by_key.old) (by_number more.now.entries)) }
    ensures err { OnErr result (totals_in by_key.new ≡ totals_in by_key.old) }
{
    if more.is_empty() {
        return Ok(());
    }
    match &mut by_key.form {
        Form::Dense(dense) => {
            let mut numbers = numbers_of(by_key.alloc, dense)?;
            key_tree::join(&mut numbers, more)?;
            by_key.form = Form::Numbered(numbers);
            Ok(())
        }
        Form::Numbered(numbers) => key_tree::join(numbers, more),
        _ => {
            let keys = keyed(by_key.alloc, more)?;
            join_keys(by_key, &keys)
        }
    }
}

/// Joins a tree of texts to these counts and sums.
fn join_texts(by_key: &mut ByKey, more: &Texts) -> Result<(), AllocError>
    requires valid_sums { AreCountSums (totals_in by_key.old) }
    requires other_valid_sums { AreCountSums (by_text more.now.entries) }
    requires can_join { CanJoin (totals_in by_key.old) (by_text more.now.entries) }
    ensures valid_sums { AreCountSums (totals_in by_key.new) }
    ensures ok { OnOk result
        (totals_in by_key.new ≡ joined_totals (totals_in by_key.old) (by_text more.now.entries)) }
    ensures err { OnErr result (totals_in by_key.new ≡ totals_in by_key.old) }
{
    if more.is_empty() {
        return Ok(());
    }
    match &mut by_key.form {
        Form::Dense(dense) if dense.is_empty() => {
            let mut texts = BTreeMap::new(by_key.alloc);
            key_tree::join(&mut texts, more)?;
            by_key.form = Form::Texts(texts);
            Ok(())
        }
        Form::Texts(texts) => key_tree::join(texts, more),
        _ => {
            let keys = keyed(by_key.alloc, more)?;
            join_keys(by_key, &keys)
        }
    }
}

/// Joins a list by number to these counts and sums.
fn join_dense(by_key: &mut ByKey, more: &Dense) -> Result<(), AllocError>
    requires valid_sums { AreCountSums (totals_in by_key.old) }
    requires other_valid_sums { AreCountSums (by_place more.now.items) }
    requires can_join { CanJoin (totals_in by_key.old) (by_place more.now.items) }
    ensures valid_sums { AreCountSums (totals_in by_key.new) }
    ensures ok { OnOk result
        (totals_in by_key.new ≡ joined_totals (totals_in by_key.old) (by_place more.now.items)) }
    ensures err { OnErr result (totals_in by_key.new ≡ totals_in by_key.old) }
{
    match &mut by_key.form {
        Form::Dense(dense) => dense::join(dense, more),
        _ => {
            let numbers = numbers_of(by_key.alloc, more)?;
            join_numbers(by_key, &numbers)
        }
    }
}

/// Joins other counts and sums to these.
pub fn join(by_key: &mut ByKey, other: &ByKey) -> Result<(), AllocError>
    requires valid_sums { AreCountSums (totals_in by_key.old) }
    requires other_valid_sums { AreCountSums (totals_in other.now) }
    requires can_join { CanJoin (totals_in by_key.old) (totals_in other.now) }
    ensures valid_sums { AreCountSums (totals_in by_key.new) }
    ensures ok { OnOk result
        (totals_in by_key.new ≡ joined_totals (totals_in by_key.old) (totals_in other.now)) }
    ensures err { OnErr result (totals_in by_key.new ≡ totals_in by_key.old) }
{
    match &other.form {
        Form::Plain(count_sum) => add_under(by_key, &None, *count_sum),
        Form::Dense(more) => join_dense(by_key, more),
        Form::Numbered(more) => join_numbers(by_key, more),
        Form::Texts(more) => join_texts(by_key, more),
        Form::Keyed(more) => join_keys(by_key, more),
    }
}
