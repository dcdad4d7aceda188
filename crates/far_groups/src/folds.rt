// Pairs folded into counts and sums, one after another.
ghost use Rattle.std.specs.Prelude.{◌≡◌, ◌≤◌, length, take, OnOk, OnErr};
ghost use Rattle.far_types.specs.Answers.{Totals};
ghost use Rattle.far_groups.specs.CountSums.{AreCountSums};
ghost use Rattle.far_groups.specs.ByKey.{totals_in};
ghost use Rattle.far_groups.specs.Folds.{with_pairs, CanFoldAll, HasFolded};

use super::by_key::{ByKey, add_under, take};
use super::count_sum::CountSum;
use far_types::Key;
use std::alloc::AllocError;

/// A folded row: its key, which is `None` in an aggregate without key column, and its value.
pub type Pair = (Option<Key>, i64);

/// Subtracts the first `count` pairs from counts and sums again, the last one first. Allocates nothing.
fn undo_first(count_sums: &mut ByKey, pairs: &[Pair], count: usize)
    requires within { count ≤ length pairs.now }
    requires valid_sums { AreCountSums (totals_in count_sums.old) }
    requires folded { (start : Totals)
        × HasFolded start (take count pairs.now) (totals_in count_sums.old) }
    ensures { (start : Totals) → HasFolded start (take count pairs.now) (totals_in count_sums.old)
        → totals_in count_sums.new ≡ start }
{
    for done in 0..count {
        let pair = &pairs[count - 1 - done];
        take(count_sums, &pair.0, CountSum::of(pair.1));
    }
}

/// Folds pairs into counts and sums. If memory runs out, it undoes what it did.
pub fn fold_all(count_sums: &mut ByKey, pairs: &[Pair]) -> Result<(), AllocError>
    requires valid_sums { AreCountSums (totals_in count_sums.old) }
    requires can { CanFoldAll (totals_in count_sums.old) pairs.now }
    ensures valid_sums { AreCountSums (totals_in count_sums.new) }
    ensures ok { OnOk result
        (totals_in count_sums.new ≡ with_pairs (totals_in count_sums.old) pairs.now) }
    ensures err { OnErr result (totals_in count_sums.new ≡ totals_in count_sums.old) }
{
    for i in 0..pairs.len() {
        let pair = &pairs[i];
        match add_under(count_sums, &pair.0, CountSum::of(pair.1)) {
            Ok(()) => {}
            Err(no_memory) => {
                undo_first(count_sums, pairs, i);
                return Err(no_memory);
            }
        }
    }
    Ok(())
}
