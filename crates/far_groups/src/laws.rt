// When the conditions of live totals' calls hold, for totals made from pairs.
ghost use Rattle.std.specs.Prelude.{◌≡◌, ◌+◌, ◌^◌, ◌≤◌, ℤ, List, ◌∷◌, length, map, Option, FitsSigned};
ghost use Rattle.std.specs.Int.{w64};
ghost use Rattle.std.specs.List.{AllByRecursion};
ghost use Rattle.std.specs.FinMap as fin;
ghost use Rattle.far_types.specs.declared.key.Key.{Key};
ghost use Rattle.far_types.specs.Pairs.{Pair, PairsFit};
ghost use Rattle.far_types.specs.Answers.{totals, count_sum};
ghost use Rattle.far_types.specs.Effects.{count_in};
ghost use Rattle.far_groups.specs.Live.{CanRetract, CanJoin};
ghost use Rattle.far_groups.specs.CountSums.{IsCountSum};

/// Says what holds of totals made from pairs whose values are numbers of 64 bits:
/// - A pair that was added can be retracted.
/// - A key has at most as many values as there are pairs.
/// - Totals of at most 2^26 pairs, both counted together, can be joined.
pub fn pairs_meet_the_conditions()
    ensures retractable { (pair : Pair) → (pairs : List Pair) → PairsFit (pair ∷ pairs)
        → CanRetract pair.1 (fin.get (totals (pair ∷ pairs)) pair.0) }
    ensures counted { (pairs : List Pair) → (key : Option Key)
        → count_in (fin.get (totals pairs) key) ≤ length pairs }
    ensures joinable { (some : List Pair) → (others : List Pair)
        → length some + length others ≤ 2 ^ 26 → CanJoin (totals some) (totals others) }
{}

/// Says what holds of rows that all have one key, as `add_rows` takes them. Their totals are their count and their sum under that key.
/// At most 2^26 values of 64 bits meet the condition of `add_rows`.
pub fn rows_under_one_key_are_folded()
    ensures totals { (key : Option Key) → (value : ℤ) → (values : List ℤ)
        → totals (map (λ each. (key, each)) (value ∷ values))
        ≡ fin.insert fin.empty key (count_sum (value ∷ values)) }
    ensures valid_sums { (value : ℤ) → (values : List ℤ)
        → AllByRecursion (FitsSigned w64) (value ∷ values)
        → length (value ∷ values) ≤ 2 ^ 26
        → IsCountSum (count_sum (value ∷ values)) }
{}
