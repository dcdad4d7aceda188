// How many values there are, and their sum.
ghost use Rattle.std.specs.Prelude.{◌≡◌, ◌+◌, ◌-◌, ◌-ℤ◌, ◌^◌, ◌≤◌, Some};
ghost use Rattle.far_types.specs.Effects.{add_count_sums};
ghost use Rattle.far_groups.specs.Live.{CanRetract};
ghost use Rattle.far_groups.specs.CountSums.{IsCountSum, LeavesCountSum, replaced};

use std::marker::Model;

/// How many values there are, and their sum.
///
/// Contracts see the pair of count and sum.
#[derive(Clone, Copy, Debug, PartialEq, Eq)]
pub struct CountSum {
    /// How many values there are.
    pub count: u64,
    /// Their sum.
    pub sum: i128,
}

impl Model for CountSum {
    ghost use Rattle.std.specs.Prelude.{ℕ, ℤ};

    ghost Value = { ℕ × ℤ };

    ghost view = { λ count_sum. (count_sum.count, count_sum.sum) };

    ghost inverse = { λ pair. record { count = pair.0; sum = pair.1 } };
}

/// The count and the sum of no values.
pub const NO_VALUES: CountSum = CountSum { count: 0, sum: 0 };

impl CountSum {
    /// Makes the count and the sum of one value.
    #[inline(always)]
    pub fn of(value: i64) -> CountSum
        ensures value { result ≡ (1, value) }
        ensures valid_sums { IsCountSum result }
    {
        CountSum {
            count: 1,
            sum: i128::from(value),
        }
    }

    /// Adds two counts and sums.
    #[inline(always)]
    pub fn merge_two(self, more: CountSum) -> CountSum
        requires valid_sums { IsCountSum self }
        requires more_valid_sums { IsCountSum more }
        requires capacity { self.0 + more.0 ≤ 2 ^ 26 }
        ensures value { result ≡ add_count_sums self more }
        ensures valid_sums { IsCountSum result }
    {
        CountSum {
            count: self.count + more.count,
            sum: self.sum + more.sum,
        }
    }

    /// Subtracts a count and a sum.
    #[inline(always)]
    pub fn subtract(self, less: CountSum) -> CountSum
        requires valid_sums { IsCountSum self }
        requires there { LeavesCountSum less (Some self) }
        ensures { result ≡ (self.0 - less.0, self.1 -ℤ less.1) }
    {
        CountSum {
            count: self.count - less.count,
            sum: self.sum - less.sum,
        }
    }
    /// Replaces one of the values by another one: the count stays.
    #[inline(always)]
    pub fn replace(self, from: i64, to: i64) -> CountSum
        requires valid_sums { IsCountSum self }
        requires there { CanRetract from (Some self) }
        ensures value { result ≡ replaced from to self }
        ensures valid_sums { IsCountSum result }
    {
        CountSum {
            count: self.count,
            sum: self.sum + i128::from(to) - i128::from(from),
        }
    }
}
