// Answers of several tables, merged key by key.
ghost use Rattle.std.specs.Prelude.{◌≡◌, ◌++◌, ℕ, ℤ, List, Option, map, true, IfOk, OnOk};
ghost use Rattle.std.specs.BTreeMap.{IsOrdered};
ghost use Rattle.std.specs.FinMap as fin;
ghost use Rattle.std.specs.Option.{option_map_or};
ghost use Rattle.far_types.specs.declared.key.Key.{Key};
ghost use Rattle.far_types.specs.declared.spec.Fold.TheVariants as fold;
ghost use Rattle.far_types.specs.Keys.{line_cmp};
ghost use Rattle.far_types.specs.Pairs.{Pair};
ghost use Rattle.far_types.specs.Answers.{answer_of, totals, extrema, lines_by_key, or_zero};
ghost use Rattle.far_types.specs.Effects.{add_count_sums, join_min_maxes};
ghost use Rattle.far_groups.specs.CountSums.{totals_of};

use far_extrema::{GroupExtrema, MinMax};
use far_groups::{CountSum, CountSums};
use far_types::{Answer, ExtremaLines, Key, TotalLines, clone_key};
use std::alloc::{AllocError, Global};
use std::collections::BTreeMap;

/// Returns the count and the sum of a key with another count and sum added. Fails also if one of them does not fit, which takes
/// far more rows than tables have.
fn with_more(before: Option<CountSum>, more: CountSum) -> Result<CountSum, AllocError>
    ensures ok { IfOk result
        (λ count_sum. count_sum ≡ option_map_or (λ there. add_count_sums there more) before more) }
{
    let Some(count_sum) = before else {
        return Ok(more);
    };
    let Some(count) = count_sum.count.checked_add(more.count) else {
        return Err(AllocError);
    };
    let Some(sum) = count_sum.sum.checked_add(more.sum) else {
        return Err(AllocError);
    };
    Ok(CountSum { count, sum })
}

/// Adds a count and a sum to a key.
fn add(count_sums: &mut CountSums, key: Option<Key>, more: CountSum) -> Result<(), AllocError>
    ensures ok { OnOk result (totals_of count_sums.new.entries
        ≡ fin.insert (totals_of count_sums.old.entries) key
        (option_map_or (λ there. add_count_sums there more)
        (fin.get (totals_of count_sums.old.entries) key) more)) }
{
    let count_sum = with_more(count_sums.get(&key).copied(), more)?;
    count_sums.insert(key, count_sum)?;
    Ok(())
}

/// Adds the rows of one answer.
fn add_totals(count_sums: &mut CountSums, lines: TotalLines) -> Result<(), AllocError>
    ensures ok { OnOk result ((key : Option ℕ) → (some : List Pair) → (others : List Pair)
        → totals_of count_sums.old.entries ≡ totals some
        → lines ≡ or_zero key (lines_by_key (totals others))
        → totals_of count_sums.new.entries ≡ totals (some ++ others)) }
{
    for (key, count, sum) in lines.into_lines() {
        // The line of an answer over no rows has no rows to add.
        if count != 0 {
            add(count_sums, key, CountSum { count, sum })?;
        }
    }
    Ok(())
}

/// Returns the lines of the counts and sums, by their keys.
fn lines_of(alloc: Global, count_sums: &CountSums) -> Result<TotalLines, AllocError>
    ensures ok { IfOk result (λ lines. lines
        ≡ map (λ (entry : Option Key × (ℕ × ℤ)). (entry.0, entry.1.0, entry.1.1))
        count_sums.now.entries) }
    ensures ordered { IsOrdered line_cmp count_sums.now }
{
    let mut lines = Vec::with_capacity(alloc, count_sums.len())?;
    for (key, count_sum) in count_sums {
        lines.push((clone_key(key)?, count_sum.count, count_sum.sum))?;
    }
    Ok(TotalLines::new(lines))
}

/// Merges the totals of four parts of the rows into the totals of all rows.
pub(crate) fn merge_totals(
    alloc: Global,
    key: Option<u32>,
    one: TotalLines,
    two: TotalLines,
    three: TotalLines,
    four: TotalLines,
) -> Result<Answer, AllocError>
    ensures ok { IfOk result (λ answer. (a : List Pair) → (b : List Pair) → (c : List Pair)
        → (d : List Pair)
        → one ≡ or_zero key (lines_by_key (totals a))
        → two ≡ or_zero key (lines_by_key (totals b))
        → three ≡ or_zero key (lines_by_key (totals c))
        → four ≡ or_zero key (lines_by_key (totals d))
        → answer ≡ answer_of fold.Totals key (a ++ (b ++ (c ++ d)))) }
{
    let mut count_sums = BTreeMap::new(alloc);
    add_totals(&mut count_sums, one)?;
    add_totals(&mut count_sums, two)?;
    add_totals(&mut count_sums, three)?;
    add_totals(&mut count_sums, four)?;
    let lines = lines_of(alloc, &count_sums)?.or_zero(key)?;
    Ok(Answer::Totals(lines))
}

/// Joins a min-max to the min-max of a key.
fn observe(
    min_maxes: &mut GroupExtrema,
    key: Option<Key>,
    min_max: MinMax,
) -> Result<(), AllocError>
    ensures ok { OnOk result (min_maxes.new
        ≡ fin.insert min_maxes.old key
        (option_map_or (λ there. join_min_maxes there min_max)
        (fin.get min_maxes.old key) min_max)) }
{
    min_maxes.observe_rows(key, min_max)
}

/// Adds the rows of one answer.
fn add_extrema(min_maxes: &mut GroupExtrema, lines: ExtremaLines) -> Result<(), AllocError>
    ensures ok { OnOk result ((some : List Pair) → (others : List Pair)
        → min_maxes.old ≡ extrema some → lines ≡ lines_by_key (extrema others)
        → min_maxes.new ≡ extrema (some ++ others)) }
{
    for (key, min, max) in lines.into_lines() {
        observe(min_maxes, key, MinMax { min, max })?;
    }
    Ok(())
}

/// Merges the extrema of four parts of the rows into the extrema of all rows.
pub(crate) fn merge_extrema(
    alloc: Global,
    one: ExtremaLines,
    two: ExtremaLines,
    three: ExtremaLines,
    four: ExtremaLines,
) -> Result<Answer, AllocError>
    ensures ok { IfOk result (λ answer. (key : Option ℕ) → (a : List Pair) → (b : List Pair)
        → (c : List Pair) → (d : List Pair)
        → one ≡ lines_by_key (extrema a)
        → two ≡ lines_by_key (extrema b)
        → three ≡ lines_by_key (extrema c)
        → four ≡ lines_by_key (extrema d)
        → answer ≡ answer_of fold.Extrema key (a ++ (b ++ (c ++ d)))) }
{
    let mut min_maxes = GroupExtrema::new(alloc);
    add_extrema(&mut min_maxes, one)?;
    add_extrema(&mut min_maxes, two)?;
    add_extrema(&mut min_maxes, three)?;
    add_extrema(&mut min_maxes, four)?;
    match min_maxes.answer(alloc) {
        Ok(answer) => Ok(answer),
        Err(_) => Err(AllocError),
    }
}
