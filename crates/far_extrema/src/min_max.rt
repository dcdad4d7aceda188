// The least and the greatest of some values.
ghost use Rattle.std.specs.Prelude.{◌≡◌, ◌≤ℤ◌, ◌<ℤ◌, Some, IsTrue, ◌↔◌};
ghost use Rattle.far_types.specs.Effects.{join_min_maxes, merge_two, min_max_with};

use std::marker::Model;

/// The least and the greatest of some values.
///
/// Contracts see the pair of least and greatest value.
#[derive(Clone, Copy, Debug, PartialEq, Eq)]
pub struct MinMax {
    /// The least value.
    pub min: i64,
    /// The greatest value.
    pub max: i64,
}

impl Model for MinMax {
    ghost use Rattle.std.specs.Prelude.{ℤ};

    ghost Value = { ℤ × ℤ };

    ghost view = { λ min_max. (min_max.min, min_max.max) };

    ghost inverse = { λ pair. record { min = pair.0; max = pair.1 } };
}

impl MinMax {
    /// Makes the min-max of one value.
    #[inline(always)]
    pub fn of(value: i64) -> MinMax
        ensures { result ≡ (value, value) }
    {
        MinMax {
            min: value,
            max: value,
        }
    }

    /// Returns the min-max with one more value.
    #[inline(always)]
    pub fn with(self, value: i64) -> MinMax
        ensures { result ≡ min_max_with value (Some self) }
    {
        MinMax {
            min: value.min(self.min),
            max: value.max(self.max),
        }
    }

    /// Joins two min-maxes.
    pub fn merge_two(self, more: MinMax) -> MinMax
        ensures { result ≡ join_min_maxes self more }
    {
        MinMax {
            min: self.min.min(more.min),
            max: self.max.max(more.max),
        }
    }

    /// Returns whether a value is within the min-max, its ends included. Such a value does not change the min-max.
    #[inline(always)]
    pub fn is_within(self, value: i64) -> bool
        ensures { IsTrue result ↔ ((self.0 ≤ℤ value) × (value ≤ℤ self.1)) }
    {
        self.min <= value && value <= self.max
    }

    /// Returns whether a value is strictly within the min-max, its ends excluded. Removing such a value does not change the min-max.
    #[inline(always)]
    pub fn is_strictly_within(self, value: i64) -> bool
        ensures { IsTrue result ↔ ((self.0 <ℤ value) × (value <ℤ self.1)) }
    {
        self.min < value && value < self.max
    }

    /// Returns whether another min-max is within this one, its ends included.
    #[inline(always)]
    pub fn covers(self, less: MinMax) -> bool
        ensures { IsTrue result → (self.0 ≤ℤ less.0) × (less.1 ≤ℤ self.1) }
    {
        self.min <= less.min && less.max <= self.max
    }

    /// Returns whether another min-max is strictly within this one, its ends excluded.
    #[inline(always)]
    pub fn surpasses(self, less: MinMax) -> bool
        ensures { IsTrue result → (self.0 <ℤ less.0) × (less.1 <ℤ self.1) }
    {
        self.min < less.min && less.max < self.max
    }
}

/// Joins two min-maxes. If either is `None`, returns the other one.
pub fn either(min_max: Option<MinMax>, more: Option<MinMax>) -> Option<MinMax>
    ensures { result ≡ merge_two join_min_maxes min_max more }
{
    match (min_max, more) {
        (Some(min_max), Some(more)) => Some(min_max.merge_two(more)),
        (Some(min_max), None) => Some(min_max),
        (None, more) => more,
    }
}
