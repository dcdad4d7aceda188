// Laws of the answers, which follow from the definitions in `specs` alone.
ghost use Rattle.std.specs.Prelude.{◌≡◌, ◌≤◌, ◌^◌, ℕ, ℤ, pos, neg_ℤ, ◌≤ℤ◌, List, ◌∷◌, ◌++◌, length, map, All, Option};
ghost use Rattle.std.specs.Int.{int_min, int_max};
ghost use Rattle.std.specs.List.{list_any, filter_map};
ghost use Rattle.std.specs.List.Sorted.{IsStrictlySortedBy};
ghost use Rattle.std.specs.Ordering.{eq_by_cmp};
ghost use Rattle.far_types.specs.declared.key.Key.{Key};
ghost use Rattle.far_types.specs.Keys.{line_cmp};
ghost use Rattle.far_types.specs.declared.spec.Spec.{Spec};
ghost use Rattle.far_types.specs.Pairs.{Pair, PairsFit, pairs_of};
ghost use Rattle.far_types.specs.Table.{Place, rows_of, place_pair};
ghost use Rattle.far_types.specs.Answers.{totals, extrema, lines_by_key, values_of, is_under, int_sum, picked};
ghost use Rattle.far_types.specs.Effects.{with_pair, without_pair, with_observed, joined_totals, joined_extrema};
ghost use Rattle.far_types.specs.Examples.{OverNoRows, TotalsByKey, ExactSum, LeastAndGreatest, Filtered, WithMissing};
ghost use Rattle.far_types.specs.RefusalExamples.{UsedUp, FirstRefusal, OverLength};
ghost use Rattle.far_types.specs.FilterExamples.{Comparisons, TestsOfTexts, AllowedAggregates};
ghost use Rattle.far_types.specs.EditExamples.{WhatEditsDo, SpaceForTexts, OrderOfRefusals, RowGroups};

/// Shows that an aggregate gets the same pairs, in the same order, from the rows of a table as from its places.
pub fn pairs_follow_the_places()
    ensures { (spec : Spec) → (places : List Place)
        → pairs_of spec (rows_of places) ≡ filter_map (place_pair spec) places }
{}

/// Shows how totals change with the folded rows:
/// - with one pair more;
/// - with one pair less;
/// - in another order, which changes nothing;
/// - when two lists are joined.
pub fn totals_follow_the_pairs()
    ensures more { (pair : Pair) → (pairs : List Pair)
        → totals (pair ∷ pairs) ≡ with_pair (totals pairs) pair }
    ensures less { (pair : Pair) → (pairs : List Pair)
        → without_pair (totals (pair ∷ pairs)) pair ≡ totals pairs }
    ensures anywhere { (before : List Pair) → (pair : Pair) → (after : List Pair)
        → totals (before ++ pair ∷ after) ≡ totals (pair ∷ (before ++ after)) }
    ensures joined { (some : List Pair) → (others : List Pair)
        → totals (some ++ others) ≡ joined_totals (totals some) (totals others) }
{}

/// Shows how extrema change with the folded rows:
/// - with one pair more;
/// - in another order, which changes nothing;
/// - when two lists are joined.
///
/// There is no law for one pair less: extrema keep only the extremes, so the row group is read again.
pub fn extrema_follow_the_pairs()
    ensures more { (pair : Pair) → (pairs : List Pair)
        → extrema (pair ∷ pairs) ≡ with_observed (extrema pairs) pair }
    ensures anywhere { (before : List Pair) → (pair : Pair) → (after : List Pair)
        → extrema (before ++ pair ∷ after) ≡ extrema (pair ∷ (before ++ after)) }
    ensures joined { (some : List Pair) → (others : List Pair)
        → extrema (some ++ others) ≡ joined_extrema (extrema some) (extrema others) }
{}

/// Shows which lines totals have:
/// - Their keys ascend, and no key occurs twice.
/// - A key has a line exactly if a folded row has that key. The line has the count of these rows, at least 1, and the sum of their values.
/// - The sum of at most 2^26 values is at most 2^89 in absolute value.
pub fn total_lines_are_by_key()
    ensures ascending { (pairs : List Pair)
        → IsStrictlySortedBy line_cmp (map (λ line. line.0) (lines_by_key (totals pairs))) }
    ensures occurring { (pairs : List Pair) → (key : Option Key)
        → list_any (eq_by_cmp line_cmp key) (map (λ line. line.0) (lines_by_key (totals pairs)))
        ≡ list_any (is_under key) pairs }
    ensures counts { (pairs : List Pair)
        → All (λ line. line.1 ≡ length (values_of line.0 pairs)) (lines_by_key (totals pairs)) }
    ensures sums { (pairs : List Pair)
        → All (λ line. line.2 ≡ int_sum (values_of line.0 pairs))
        (lines_by_key (totals pairs)) }
    ensures counted { (pairs : List Pair)
        → All (λ line. 1 ≤ line.1) (lines_by_key (totals pairs)) }
    ensures bounded { (pairs : List Pair) → PairsFit pairs → length pairs ≤ 2 ^ 26
        → All (λ line. (neg_ℤ (pos (2 ^ 89)) ≤ℤ line.2) × (line.2 ≤ℤ pos (2 ^ 89)))
        (lines_by_key (totals pairs)) }
{}

/// Shows which lines extrema have:
/// - Their keys ascend, and no key occurs twice.
/// - A key has a line exactly if a folded row has that key. The line has the least and the greatest value of these rows.
pub fn extrema_lines_are_by_key()
    ensures ascending { (pairs : List Pair)
        → IsStrictlySortedBy line_cmp (map (λ line. line.0) (lines_by_key (extrema pairs))) }
    ensures occurring { (pairs : List Pair) → (key : Option Key)
        → list_any (eq_by_cmp line_cmp key)
        (map (λ line. line.0) (lines_by_key (extrema pairs)))
        ≡ list_any (is_under key) pairs }
    ensures minima { (pairs : List Pair)
        → All (λ line. line.1 ≡ picked int_min (values_of line.0 pairs))
        (lines_by_key (extrema pairs)) }
    ensures maxima { (pairs : List Pair)
        → All (λ line. line.2 ≡ picked int_max (values_of line.0 pairs))
        (lines_by_key (extrema pairs)) }
{}

/// Computes answers over small tables. A wrong definition fails here, as in the next three laws.
pub fn worked_answers()
    ensures over_no_rows { OverNoRows }
    ensures totals_by_key { TotalsByKey }
    ensures exact_sum { ExactSum }
    ensures least_and_greatest { LeastAndGreatest }
    ensures filtered { Filtered }
    ensures with_missing { WithMissing }
{}

/// Computes which tests values pass, and which aggregates are allowed.
pub fn worked_filters()
    ensures comparisons { Comparisons }
    ensures tests_of_texts { TestsOfTexts }
    ensures allowed_aggregates { AllowedAggregates }
{}

/// Computes what edits of small tables do, and why they are refused.
pub fn worked_edits()
    ensures what_edits_do { WhatEditsDo }
    ensures space_for_texts { SpaceForTexts }
    ensures order_of_refusals { OrderOfRefusals }
    ensures row_groups { RowGroups }
{}

/// Computes which refusal comes first, at the limits too.
pub fn worked_refusals()
    ensures used_up { UsedUp }
    ensures first_refusal { FirstRefusal }
    ensures over_length { OverLength }
{}
